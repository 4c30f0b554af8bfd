//! The calls that made activations.

ghost use Rattle.pass_elide_proof.specs.Elision.{Elision, elided};
ghost use Rattle.pass_elide_proof.specs.Placing.{KeepsPlaces};
ghost use Rattle.pass_elide_proof.specs.PlacingStates.{IsCalledBy};
ghost use Rattle.pass_elide_proof.specs.StepCases.{LeadsTo};
ghost use Rattle.pass_elide_runs.specs.Calls.{HaveCallsBelow};
ghost use Rattle.pass_elide_proof.specs.pass_proofs.ir_base.declared.outcome.Outcome.{Outcome};
ghost use Rattle.pass_elide_proof.specs.pass_proofs.ir_base.declared.outcome.Word.{Word};
ghost use Rattle.pass_elide_proof.specs.pass_proofs.ir_model.declared.module.Module.{Module};
ghost use Rattle.pass_elide_proof.specs.pass_proofs.run_agreement.Machines.{IsFine};
ghost use Rattle.pass_elide_proof.specs.pass_proofs.run_framed.Framed.{FramedGiven, framed_state_at};
ghost use Rattle.pass_elide_proof.specs.pass_proofs.run_source.Source.{first_state};
ghost use Rattle.pass_elide_proof.specs.pass_proofs.run_source.declared.state.Activation.{Activation};
ghost use Rattle.pass_elide_proof.specs.pass_proofs.run_source.declared.state.State.{State};
ghost use Rattle.std.specs.Prelude.{List, ◌∷◌, ◌≡◌, ℕ};

/// Each activation was made by the instruction in front of the place of the one below it.
pub fn activations_are_made_by_calls()
    ensures start { (m : Module) (entry : ℕ) (args : List Word) → HaveCallsBelow m (first_state m entry args) }
    ensures step { (g : FramedGiven) (s u : State) → s.outcome ≡ Outcome.Running → HaveCallsBelow g.given.code s
        → LeadsTo g s u → HaveCallsBelow g.given.code u }
    ensures runs { (g : FramedGiven) (entry : ℕ) (args : List Word) (n : ℕ)
        → IsFine (framed_state_at g entry args n).outcome
        → HaveCallsBelow g.given.code (framed_state_at g entry args n) }
{}

/// So in the run that gives frames, what is right above the caller at a site is of the function that the site
/// calls.
pub fn sites_call_what_is_above()
    ensures { (e : Elision) (entry : ℕ) (args : List Word) (n : ℕ) → KeepsPlaces e
        → IsFine (framed_state_at (elided e) entry args n).outcome → (c : Activation) (below : List Activation)
        → (framed_state_at (elided e) entry args n).below ≡ c ∷ below
        → IsCalledBy e (framed_state_at (elided e) entry args n).top c }
{}
