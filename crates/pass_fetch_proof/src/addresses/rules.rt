//! A function whose slots become bytes of the frame breaks no rule, where the function breaks none and its slots
//! are used behind begin.
//!
//! That goes by what the pass asks of its tables (`addressed_functions_keep_rules`).

ghost use Rattle.std.specs.Prelude.{ℕ, Bool, List, Option};
ghost use Rattle.pass_fetch_proof.specs.addresses.rules.Addresses.{AddressesFit};
ghost use Rattle.pass_addresses.specs.Placing.{with_frame_addresses};
ghost use Rattle.pass_edges_proof.specs.rule_laws.rules.function_rules.Kept.{KeepsFunctionRules};
ghost use Rattle.ir_model.specs.declared.module.Function.{Function};
ghost use Rattle.ir_model.specs.declared.module.Module.{Module};
ghost use Rattle.pass_edges_proof.specs.rule_laws.rules.woven_rules.Pairs.{AreIncomingOnce};

/// A function that breaks none of the rules of functions, and whose phis name each label once, breaks none with its slots in the frame.
pub fn addressed_functions_keep_rules()
    ensures { (m : Module) (k : ℕ) (f : Function) (begin : ℕ) (offsets : List (Option ℕ)) (marked : List Bool) → KeepsFunctionRules m k f → AreIncomingOnce f → AddressesFit k f begin offsets marked → KeepsFunctionRules m k (with_frame_addresses f begin offsets marked) }
{}

/// Its phis name each label once, too.
pub fn addressed_phis_have_each_label_once()
    ensures { (m : Module) (k : ℕ) (f : Function) (begin : ℕ) (offsets : List (Option ℕ)) (marked : List Bool) → KeepsFunctionRules m k f → AreIncomingOnce f → AddressesFit k f begin offsets marked → AreIncomingOnce (with_frame_addresses f begin offsets marked) }
{}
