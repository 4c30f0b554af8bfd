//! Lemmas on spelled.

ghost use Rattle.std.specs.Prelude.{ℕ, Bool, List, Option};
ghost use Rattle.pass_addresses.specs.Placing.{with_frame_addresses};
ghost use Rattle.ir_model.specs.declared.module.Function.{Function};
ghost use Rattle.pass_edges_proof.specs.rule_laws.rules.spelled.Spelled.{IsSpelledFunction};

/// And where slots are bytes of the frame.
pub fn addresses_can_be_spelled()
    ensures { (f : Function) (begin : ℕ) (offsets : List (Option ℕ)) (marked : List Bool) → IsSpelledFunction f → IsSpelledFunction (with_frame_addresses f begin offsets marked) }
{}
