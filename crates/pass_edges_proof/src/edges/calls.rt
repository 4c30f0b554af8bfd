//! Lemmas on calls.

ghost use Rattle.std.specs.Prelude.{◌≡◌, ℕ, true, None, Some};
ghost use Rattle.pass_early_proof.specs.rule_shape.OneOfEach.{wrong_call};
ghost use Rattle.pass_early_proof.specs.rule_shape.Switches.{wrong_switch};
ghost use Rattle.pass_edges.specs.EdgeBlocks.{with_edge_blocks};
ghost use Rattle.pass_early_proof.specs.rule_laws.rules.function_rules.Kept.{KeepsFunctionRules};
ghost use Rattle.ir_model.specs.Calls.{first_result};
ghost use Rattle.ir_model.specs.declared.module.Function.{Function};
ghost use Rattle.ir_model.specs.declared.module.Module.{Module};
ghost use Rattle.ir_model.specs.declared.operand.Intrinsic.{Intrinsic};
ghost use Rattle.pass_early_proof.specs.rule_windows.Outside.{IsFirstOutside};
ghost use Rattle.pass_early_proof.specs.rule_windows.Windows.{IsFirstWindow};
ghost use Rattle.pass_early_proof.specs.rule_laws.frames.woven_shape.Shaped.{IsShaped};

/// A coroutine that breaks none of its rules (K2, K3, K5 and K6) is what splitting asks where its edges have blocks.
pub fn coroutines_are_shaped_where_edges_have_blocks()
    ensures { (m : Module) (k : ℕ) (f : Function) (begin : ℕ) → KeepsFunctionRules m k f → f.coroutine ≡ true → wrong_call k f ≡ None → wrong_switch k f ≡ None → IsFirstOutside k f None → IsFirstWindow k f None
        → first_result Intrinsic.CoroBegin f ≡ Some begin → IsShaped k (with_edge_blocks f) begin }
{}
