//! What crosses suspends, and what is returned behind them, in a coroutine whose frame is built.
//!
//! In that form the end comes between a suspend and a return (`framed_suspends_end_first`). Behind a suspend that is
//! reached no value is needed but tokens and those of allocas, begin and `coro.frame`
//! (`nothing_is_needed_in_framed_coroutines`).

ghost use Rattle.pass_exits_proof.specs.split.crossing.Ended.{AreEndedFirst};
ghost use Rattle.ir_model.specs.declared.module.Function.{Function};
ghost use Rattle.ir_model.specs.declared.module.Module.{Module};
ghost use Rattle.pass_fetch_proof.specs.rule_laws.rules.woven_rules.Blocks.{IsWoven};
ghost use Rattle.pass_fetch_proof.specs.rule_laws.rules.woven_rules.Weaving.{Weaving};
ghost use Rattle.pass_fetch_proof.specs.rule_laws.frames.woven_shape.Shaped.{KeepsCalls};
ghost use Rattle.std.specs.Prelude.{◌≡◌, ℕ, true, None, Some, slice_get};
ghost use Rattle.pass_fetch_proof.specs.rule_laws.frames.crossing.Crossed.{IsNothingNeeded};
ghost use Rattle.pass_fetch_proof.specs.rule_shape.OneOfEach.{wrong_call};
ghost use Rattle.pass_fetch_proof.specs.flow_solver.Paths.{IsListed};
ghost use Rattle.pass_fetch_proof.specs.rule_laws.frames.needed.Crossed.{AreFramesUnneeded};
ghost use Rattle.pass_fetch_proof.specs.rule_laws.rules.function_rules.Kept.{KeepsFunctionRules};
ghost use Rattle.ir_model.specs.Calls.{first_result};
ghost use Rattle.ir_model.specs.declared.module.Block.{Block};
ghost use Rattle.ir_model.specs.declared.operand.Intrinsic.{Intrinsic};
ghost use Rattle.pass_fetch_proof.specs.ir_paths.declared.point.Point.{Point};
ghost use Rattle.pass_exits_proof.specs.split.rules.Reached.{IsLedTo};
ghost use Rattle.pass_fetch_proof.specs.rule_laws.frames.replaced.Splittable.{may_cross};
ghost use Rattle.pass_fetch_proof.specs.frame_crossing.Crossing.{suspends_of};
ghost use Rattle.pass_fetch_proof.specs.frame_crossing.Paths.{IsDefinedBefore, IsNeededBehind};

/// So it stays with instructions woven in.
pub fn woven_suspends_end_first()
    ensures { (w : Weaving) (m : Module) (f g : Function) → IsWoven w m f g → KeepsCalls w f g → AreEndedFirst f → AreEndedFirst g }
{}

/// Where no value but those is needed, and none of `coro.frame` is, what crosses a suspend to which a path leads is begin's value, the address of an alloca or a token.
pub fn only_what_each_part_has_anew_crosses()
    ensures { (m : Module) (k : ℕ) (g : Function) (begin : ℕ) → KeepsFunctionRules m k g → g.coroutine ≡ true → wrong_call k g ≡ None → first_result Intrinsic.CoroBegin g ≡ Some begin → IsNothingNeeded g → AreFramesUnneeded g
        → (v : ℕ) (s : Point) (b : Block) → IsListed s (suspends_of g) → slice_get g.blocks s.block ≡ Some b → IsLedTo g b.label → IsDefinedBefore g v s.block s.at → IsNeededBehind g v s → may_cross m g v ≡ true }
{}
