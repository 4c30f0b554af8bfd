//! Where both runs start, what is to be kept is kept.

ghost use Rattle.std.specs.Prelude.{List, false, ◌≡◌, ℕ};
ghost use Rattle.pass_elide_kept.specs.Kept.{AreKept, HaveKeepers};
ghost use Rattle.pass_elide_proof.specs.Elision.{Elision, elided_code, function_in};
ghost use Rattle.pass_elide_proof.specs.Statement.{AreRelated};
ghost use Rattle.pass_elide_proof.specs.pass_proofs.ir_base.declared.outcome.Word.{Word};
ghost use Rattle.pass_elide_proof.specs.pass_proofs.run_source.Source.{first_state};

/// No instance has begun at the start, so there is no handle to keep. What is related there is kept.
pub fn runs_start_kept()
    ensures keepers { (e : Elision) (entry : ℕ) (args : List Word)
        → HaveKeepers e (first_state e.code entry args) (first_state (elided_code e) entry args) }
    ensures kept { (e : Elision) (entry : ℕ) (args : List Word)
        → AreRelated e (first_state e.code entry args) (first_state (elided_code e) entry args)
        → AreKept e (first_state e.code entry args) (first_state (elided_code e) entry args) }
{}
