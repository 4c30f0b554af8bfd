//! Lemmas on exits.

ghost use Rattle.std.specs.Prelude.{◌≡◌, ℕ, None, true, Some, slice_get};
ghost use Rattle.pass_fetch_proof.specs.rule_shape.Switches.{wrong_switch};
ghost use Rattle.pass_fetch_proof.specs.edges.rules.Phis.{ArePhisEnteredByJumps};
ghost use Rattle.pass_fetch_proof.specs.flow_solver.Paths.{IsListed};
ghost use Rattle.pass_fetch_proof.specs.rule_laws.rules.function_rules.Kept.{KeepsFunctionRules};
ghost use Rattle.pass_fetch_proof.specs.pass_intrinsics.Shapes.{suspends_of};
ghost use Rattle.pass_fetch_proof.specs.pass_intrinsics.declared.shape.SuspendPoint.{SuspendPoint};
ghost use Rattle.ir_model.specs.declared.module.Function.{Function};
ghost use Rattle.ir_model.specs.declared.module.Module.{Module};
ghost use Rattle.pass_exits_proof.specs.split.rules.Reached.{IsLedTo};
ghost use Rattle.pass_fetch_proof.specs.rule_laws.frames.replaced.Splittable.{IsEndedFirst, may_cross};
ghost use Rattle.pass_split.specs.pass_exits.ExitBlocks.{with_exit_blocks};
ghost use Rattle.ir_model.specs.declared.module.Block.{Block};
ghost use Rattle.pass_fetch_proof.specs.ir_paths.declared.point.Point.{Point};
ghost use Rattle.pass_fetch_proof.specs.frame_crossing.Crossing.{suspends_of as suspend_points};
ghost use Rattle.pass_fetch_proof.specs.frame_crossing.Paths.{IsDefinedBefore, IsNeededBehind};
ghost use Rattle.pass_exits_proof.specs.split.rules.Splittable.{IsSplittable};

/// Behind a suspend that is reached the end comes before a return.
pub fn ends_come_before_returns_where_exits_have_blocks()
    ensures { (m : Module) (k : ℕ) (f : Function) → KeepsFunctionRules m k f → ArePhisEnteredByJumps f → f.coroutine ≡ true → wrong_switch k f ≡ None
        → ((p : SuspendPoint) → IsListed p (suspends_of f) → IsLedTo f p.block → IsEndedFirst f p)
        → (p : SuspendPoint) → IsListed p (suspends_of (with_exit_blocks f)) → IsLedTo (with_exit_blocks f) p.block → IsEndedFirst (with_exit_blocks f) p }
{}

/// No further values cross suspends that are reached.
pub fn no_more_crosses_where_exits_have_blocks()
    ensures { (m : Module) (k : ℕ) (f : Function) → KeepsFunctionRules m k f → ArePhisEnteredByJumps f → f.coroutine ≡ true → wrong_switch k f ≡ None
        → ((v : ℕ) (s : Point) (b : Block) → IsListed s (suspend_points f) → slice_get f.blocks s.block ≡ Some b → IsLedTo f b.label → IsDefinedBefore f v s.block s.at → IsNeededBehind f v s → may_cross m f v ≡ true)
        → (v : ℕ) (s : Point) (b : Block) → IsListed s (suspend_points (with_exit_blocks f)) → slice_get (with_exit_blocks f).blocks s.block ≡ Some b → IsLedTo (with_exit_blocks f) b.label → IsDefinedBefore (with_exit_blocks f) v s.block s.at → IsNeededBehind (with_exit_blocks f) v s → may_cross m (with_exit_blocks f) v ≡ true }
{}

/// A coroutine stays as splitting asks.
pub fn exits_keep_splittable()
    ensures { (m : Module) (k : ℕ) (f : Function) (begin : ℕ) → IsSplittable m k f begin → ArePhisEnteredByJumps f → IsSplittable m k (with_exit_blocks f) begin }
{}
