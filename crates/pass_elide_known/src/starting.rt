//! What is known of states holds where the runs start.

ghost use Rattle.pass_elide_known.specs.Keeping.{KeepsMore};
ghost use Rattle.pass_elide_known.specs.States.{Allocates, IsKnownFramed, IsKnownGiving};
ghost use Rattle.pass_elide_proof.specs.Elision.{Elision, elided_code, function_in};
ghost use Rattle.pass_elide_proof.specs.Placing.{KeepsPlaces};
ghost use Rattle.pass_elide_proof.specs.Worked.{the_elision};
ghost use Rattle.pass_elide_proof.specs.pass_proofs.ir_base.declared.outcome.Word.{Word};
ghost use Rattle.pass_elide_proof.specs.pass_proofs.ir_model.Ty.{Ty};
ghost use Rattle.pass_elide_proof.specs.pass_proofs.ir_model.declared.operand.Allocator.{Allocator};
ghost use Rattle.pass_elide_proof.specs.pass_proofs.ir_model.declared.operand.Arg.{Arg};
ghost use Rattle.pass_elide_proof.specs.pass_proofs.run_source.Source.{first_state};
ghost use Rattle.std.specs.Prelude.{Bool, List, Option, false, ◌<◌, ◌^◌, ◌≡◌, ℕ};

/// The first states are known, if an allocator that is called first is asked for a small size. That holds of arguments
/// that fit their types.
pub fn runs_start_known()
    ensures framed { (e : Elision) (entry : ℕ) (args : List Word) → KeepsPlaces e → KeepsMore e
        → (function_in e entry).coroutine ≡ false
        → ((a : Allocator) (result : Option ℕ) (must_tail : Bool) (ty : Option Ty) (values : List Arg) (word : Word)
        → Allocates e (first_state e.code entry args) a result must_tail ty values word → word.bits < 2 ^ 64)
        → IsKnownFramed e (first_state e.code entry args) }
    ensures giving { (e : Elision) (entry : ℕ) (args : List Word) → KeepsPlaces e → KeepsMore e
        → (function_in e entry).coroutine ≡ false → IsKnownGiving e (first_state (elided_code e) entry args) }
{}

/// The worked module keeps what is asked besides.
#[tactic(none)]
pub fn the_worked_module_keeps_more()
    ensures { KeepsMore the_elision }
{}
