//! A release of an instance whose frame was given.

ghost use Rattle.std.specs.Prelude.{◌≡◌, true};
ghost use Rattle.pass_proofs.specs.ir_base.declared.outcome.Outcome.{Outcome};
ghost use Rattle.pass_proofs.specs.ir_model.declared.operand.Intrinsic.{Intrinsic};
ghost use Rattle.pass_split_proof.specs.code.Positions.{is_given};
ghost use Rattle.pass_split_proof.specs.given_frees.Freeing.{HasGivenFrame};
ghost use Rattle.pass_split_proof.specs.giving.Intrinsics.{IsAtIntrinsic};
ghost use Rattle.pass_split_proof.specs.simulation.Followed.{IsFollowed};
ghost use Rattle.pass_split_proof.specs.states.Related.{AreRelated};
ghost use Rattle.pass_proofs.specs.run_framed.Framed.{FramedGiven};
ghost use Rattle.run_access_worked.specs.run_plain.Plain.{PlainGiven};
ghost use Rattle.run_access_worked.specs.run_plain.declared.state.PlainState.{PlainState as ThePlainState};
ghost use Rattle.pass_proofs.specs.run_source.declared.state.State.{State as TheState};

/// A release of an instance whose frame was given gives null in both, in one step or in none. The part is the ramp that
/// is given its frame, or the one that destroys such an instance.
pub fn releases_of_given_frames_are_followed()
    ensures { (g : FramedGiven) (h : PlainGiven) (s : TheState) (t : ThePlainState) (r : AreRelated g h s t)
        → s.outcome ≡ Outcome.Running → IsAtIntrinsic g h s t r Intrinsic.CoroFree
        → is_given r.top.part ≡ true → HasGivenFrame s → IsFollowed g h s t }
{}
