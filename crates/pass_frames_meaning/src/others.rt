//! Steps of functions that are no coroutines are followed.
//!
//! What stands at the place, and facts of runs, are premises of the laws of `pass_frames_proof`. Here these follow of
//! invariants of both runs, of the rules that a source keeps, and of good layouts.

ghost use Rattle.std.specs.Prelude.{◌≡◌, false};
ghost use Rattle.pass_frames_proof.specs.ir_base.declared.outcome.Outcome.{Outcome};
ghost use Rattle.pass_frames_meaning.specs.Others.{EntersCoroutines};
ghost use Rattle.pass_frames_meaning.specs.Setting.{AreOfRuns, KeepsAll, Setting};
ghost use Rattle.pass_frames_proof.specs.Followed.{IsFollowed};
ghost use Rattle.pass_frames_proof.specs.Related.{AreBuiltOf, is_coroutine};
ghost use Rattle.pass_frames_proof.specs.pass_renewed_proof.Renewed.{renewed_step};
ghost use Rattle.pass_frames_proof.specs.run_agreement.Machines.{IsFine};
ghost use Rattle.pass_frames_proof.specs.run_source.declared.state.State.{State as TheState};

/// In a function that is no coroutine each step is followed that enters no coroutine. So is each of them where calls of
/// ramps, resumes and destroys are followed.
pub fn other_functions_are_followed()
    ensures { (c : Setting) → KeepsAll c → (s t : TheState) (r : AreBuiltOf c.b s t) → AreOfRuns c s t r
        → s.outcome ≡ Outcome.Running → IsFine (renewed_step c.g s).outcome → is_coroutine c.b s.top.func ≡ false
        → EntersCoroutines c s t → IsFollowed c.b c.g s t }
{}
