//! From the run in which a resume hands on some values to the framed one, over that which makes slots anew.
//!
//! What is known of the first run may be used where a step is followed: that its live slots conflict, say.

ghost use Rattle.std.specs.Prelude.{◌≡◌};
ghost use Rattle.pass_frames_proof.specs.frame_layout.declared.layout.Layouts.{Layouts as TheLayouts};
ghost use Rattle.pass_frames_meaning.specs.Covered.{AgreesWithFrames, AreCoveredStepsFollowed, AreStepsPaid, IsKeptOver};
ghost use Rattle.pass_frames_proof.specs.Followed.{IsGiven};
ghost use Rattle.pass_frames_proof.specs.Related.{AreBuiltOf, Building};
ghost use Rattle.pass_renewed_meaning.specs.Rules.{KeepsAll, Setting};
ghost use Rattle.pass_frames_proof.specs.pass_renewed_proof.Prices.{Prices};
ghost use Rattle.pass_frames_proof.specs.run_source.Source.{first_state};
ghost use Rattle.pass_frames_proof.specs.run_source.declared.state.State.{State as TheState};

/// What is told of states of the run that makes slots anew.
pub trait TellsStates {
    ghost tells: { TheState → Type 0 };
}

/// The run in which a resume hands on some values agrees with the framed one, by what its steps cost. The starts have to
/// be related, the prices to pay in the run that makes slots anew, and each step from a covered state to be followed. Where
/// a step is followed something may be told that holds at the start, and behind each step from a related state.
pub fn kept_runs_agree_with_framed_ones<T: TellsStates>()
    ensures { (c : Setting) (p : Prices) (b : Building) (layouts : TheLayouts) → KeepsAll c
        → IsGiven b layouts c.answers → b.framed_code.declarations ≡ c.code.declarations
        → AreStepsPaid c b p
        → AreBuiltOf b (first_state c.code c.entry c.args) (first_state b.framed_code c.entry c.args)
        → IsKeptOver c b T.tells → AreCoveredStepsFollowed c b T.tells → AgreesWithFrames c p b layouts }
{}
