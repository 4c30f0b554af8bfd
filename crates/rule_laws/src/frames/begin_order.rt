//! Lemmas on begin order.

ghost use Rattle.std.specs.Prelude.{ℕ};
ghost use Rattle.rule_laws.specs.frames.begin_order.Behind.{AreAgainBehind};
ghost use Rattle.rule_laws.specs.frames.counted.Asked.{IsAwayFromEntry};
ghost use Rattle.ir_laws.specs.flow_solver.Paths.{IsListed};
ghost use Rattle.rule_laws.specs.rules.function_rules.Kept.{KeepsFunctionRules};
ghost use Rattle.pass_intrinsics.specs.Shapes.{suspends_of};
ghost use Rattle.pass_intrinsics.specs.declared.shape.SuspendPoint.{SuspendPoint};
ghost use Rattle.ir_laws.specs.ir_model.declared.module.Function.{Function};
ghost use Rattle.ir_laws.specs.ir_model.declared.module.Module.{Module};
ghost use Rattle.rule_laws.specs.rules.replaced.Splittable.{AreBlocksBegun};
ghost use Rattle.rule_laws.specs.frames.replaced.Splittable.{HasOwnEdges};
ghost use Rattle.ir_laws.specs.run_laws.changed.Changed.{Each};

/// The edges of suspends lead from blocks in which begin's value is there, so the blocks to which they alone lead stand behind begin.
pub fn suspends_lead_behind_begin()
    ensures { (m : Module) (k : ℕ) (f : Function) (begin : ℕ) → KeepsFunctionRules m k f → AreBlocksBegun f begin 0 f.blocks → Each (HasOwnEdges f) (suspends_of f) → ((s : SuspendPoint) → IsListed s (suspends_of f) → IsAwayFromEntry f s) → AreAgainBehind f begin }
{}
