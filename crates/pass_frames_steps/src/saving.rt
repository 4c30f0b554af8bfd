//! Saves of a coroutine are followed.

ghost use Rattle.pass_frames_code.specs.Followed.{IsFollowed};
ghost use Rattle.pass_frames_code.specs.Related.{AreBuiltOf, Building};
ghost use Rattle.pass_frames_code.specs.Saving.{IsAtSave};
ghost use Rattle.pass_frames_code.specs.Stepping.{AreGiven};
ghost use Rattle.pass_frames_code.specs.pass_renewed_proof.Renewed.{RenewedGiven};
ghost use Rattle.pass_frames_code.specs.run_source.declared.state.State.{State};

/// In front of a save the values that cross its suspend go to their fields. Then both instances are Suspended, and the
/// fields are right.
pub fn saves_are_followed()
    ensures { (b : Building) (g : RenewedGiven) → AreGiven b g → (s t : State) (r : AreBuiltOf b s t)
        → IsAtSave b s t r → IsFollowed b g s t }
{}
