//! Suspends of a coroutine are followed.

ghost use Rattle.pass_frames_code.specs.Followed.{IsFollowed};
ghost use Rattle.pass_frames_code.specs.Related.{AreBuiltOf, Building};
ghost use Rattle.pass_frames_code.specs.Stepping.{AreGiven};
ghost use Rattle.pass_frames_code.specs.Suspending.{IsAtSuspend};
ghost use Rattle.pass_frames_code.specs.pass_renewed_proof.Renewed.{RenewedGiven};
ghost use Rattle.pass_frames_code.specs.run_source.declared.state.State.{State};

/// A suspend with its save's token gives -1 in both runs, in one step. Its switch then takes the stop edge.
pub fn suspends_are_followed()
    ensures { (b : Building) (g : RenewedGiven) → AreGiven b g → (s t : State) → AreBuiltOf b s t → IsAtSuspend b s
        → IsFollowed b g s t }
{}
