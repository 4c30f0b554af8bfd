//! A coroutine whose edges have blocks is the coroutine that it was: what splitting asks of its calls.
//!
//! K2, K3, begin's value and the suspends' tokens stay where edges have blocks
//! (`calls_break_no_rule_where_edges_have_blocks`, `switches_break_no_rule_where_edges_have_blocks`).

ghost use Rattle.std.specs.Prelude.{◌≡◌, ℕ, None, true};
ghost use Rattle.pass_early_proof.specs.rule_shape.OneOfEach.{wrong_call};
ghost use Rattle.pass_early_proof.specs.rule_shape.Switches.{wrong_switch};
ghost use Rattle.pass_edges.specs.EdgeBlocks.{with_edge_blocks};
ghost use Rattle.pass_early_proof.specs.rule_laws.rules.function_rules.Kept.{KeepsFunctionRules};
ghost use Rattle.ir_model.specs.declared.module.Function.{Function};
ghost use Rattle.ir_model.specs.declared.module.Module.{Module};
ghost use Rattle.pass_early_proof.specs.rule_laws.rules.woven_shape.Calls.{shaping_calls};
ghost use Rattle.ir_model.specs.Calls.{first_result};
ghost use Rattle.ir_model.specs.declared.operand.Intrinsic.{Intrinsic};
ghost use Rattle.pass_early_proof.specs.rule_laws.frames.replaced.Splittable.{tokens_taken};

/// The calls by which it is one are the same, in the blocks with the same labels, with what they name, the end in front, and each
/// suspend with its switch right behind it, whose default edge gets no block.
pub fn calls_stay_where_edges_have_blocks()
    ensures { (m : Module) (k : ℕ) (f : Function) → KeepsFunctionRules m k f → f.coroutine ≡ true → wrong_call k f ≡ None → wrong_switch k f ≡ None → shaping_calls (with_edge_blocks f) ≡ shaping_calls f }
{}

/// So they break no rule (K2).
pub fn calls_break_no_rule_where_edges_have_blocks()
    ensures { (m : Module) (k : ℕ) (f : Function) → KeepsFunctionRules m k f → f.coroutine ≡ true → wrong_call k f ≡ None → wrong_switch k f ≡ None → wrong_call k (with_edge_blocks f) ≡ None }
{}

/// Begin's value is the same one.
pub fn begin_stays_where_edges_have_blocks()
    ensures { (m : Module) (k : ℕ) (f : Function) → KeepsFunctionRules m k f → f.coroutine ≡ true → wrong_call k f ≡ None → wrong_switch k f ≡ None
        → first_result Intrinsic.CoroBegin (with_edge_blocks f) ≡ first_result Intrinsic.CoroBegin f }
{}

/// The switches of its suspends break no rule (K3).
pub fn switches_break_no_rule_where_edges_have_blocks()
    ensures { (m : Module) (k : ℕ) (f : Function) → KeepsFunctionRules m k f → f.coroutine ≡ true → wrong_call k f ≡ None → wrong_switch k f ≡ None → wrong_switch k (with_edge_blocks f) ≡ None }
{}

/// The tokens that suspends take are the same.
pub fn tokens_stay_where_edges_have_blocks()
    ensures { (m : Module) (k : ℕ) (f : Function) → KeepsFunctionRules m k f → f.coroutine ≡ true → wrong_call k f ≡ None → wrong_switch k f ≡ None → tokens_taken (with_edge_blocks f) ≡ tokens_taken f }
{}
