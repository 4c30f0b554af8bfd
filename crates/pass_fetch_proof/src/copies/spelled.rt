//! Lemmas on spelled.

ghost use Rattle.std.specs.Prelude.{ℕ, Bool, List};
ghost use Rattle.pass_copies.specs.BeginCopies.{with_begin_copies};
ghost use Rattle.ir_model.specs.declared.module.Function.{Function};
ghost use Rattle.pass_edges_proof.specs.rule_laws.rules.spelled.Spelled.{IsSpelledFunction};

/// And where slots that are used before begin have temporaries.
pub fn copies_can_be_spelled()
    ensures { (f : Function) (slots before : List Bool) (sizes : List ℕ) → IsSpelledFunction f → IsSpelledFunction (with_begin_copies f slots before sizes) }
{}
