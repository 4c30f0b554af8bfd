//! Coroutines that are given frames.

ghost use Rattle.pass_elide_proof.specs.Elision.{Elision, elided};
ghost use Rattle.pass_elide_proof.specs.Placing.{HasShape, KeepsPlaces};
ghost use Rattle.pass_elide_proof.specs.PlacingStates.{HaveShapes};
ghost use Rattle.pass_elide_proof.specs.Releasing.{AreOfCallees};
ghost use Rattle.pass_elide_proof.specs.Callers.{HaveBlocks};
ghost use Rattle.pass_elide_proof.specs.pass_proofs.ir_base.declared.outcome.Word.{Word};
ghost use Rattle.pass_elide_proof.specs.pass_proofs.run_framed.Framed.{framed_state_at, framed_step};
ghost use Rattle.pass_elide_proof.specs.pass_proofs.run_source.declared.state.State.{State};
ghost use Rattle.std.specs.Prelude.{List, ℕ};

/// A ramp that was given its frame, and an instance whose frame was given, is of a function that has a shape. Each
/// frame lies in a block that there is.
pub fn given_frames_are_of_shapes()
    ensures step { (e : Elision) (t : State) → KeepsPlaces e → AreOfCallees (HasShape e) t
        → AreOfCallees (HasShape e) (framed_step (elided e) t) }
    ensures runs { (e : Elision) (entry : ℕ) (args : List Word) (n : ℕ) → KeepsPlaces e
        → HaveShapes e (framed_state_at (elided e) entry args n) }
    ensures blocks { (e : Elision) (entry : ℕ) (args : List Word) (n : ℕ) → KeepsPlaces e
        → HaveBlocks (framed_state_at (elided e) entry args n) }
    ensures means { (e : Elision) (t : State) → AreOfCallees (HasShape e) t → HaveShapes e t }
{}
