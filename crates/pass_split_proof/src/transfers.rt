//! Transfers: a resume right before its suspend.
//!
//! The part has called from a block of its own, and returns from there (`resumes_are_followed`). When the callee has
//! returned, the framed run is at the suspend. It comes over that and its switch to the end, while the part stays.

ghost use Rattle.std.specs.Prelude.{◌≡◌};
ghost use Rattle.pass_proofs.specs.ir_base.declared.outcome.Outcome.{Outcome};
ghost use Rattle.pass_proofs.specs.ir_model.declared.operand.Intrinsic.{Intrinsic};
ghost use Rattle.pass_split_proof.specs.giving.Intrinsics.{IsAtIntrinsic};
ghost use Rattle.pass_split_proof.specs.simulation.Followed.{IsFollowed};
ghost use Rattle.pass_split_proof.specs.states.Related.{AreRelated};
ghost use Rattle.pass_split_proof.specs.transfers.Passing.{IsAtEnd, IsPassing};
ghost use Rattle.pass_proofs.specs.run_agreement.Machines.{IsFine};
ghost use Rattle.pass_proofs.specs.run_framed.Framed.{FramedGiven, framed_step};
ghost use Rattle.run_access_worked.specs.run_plain.Plain.{PlainGiven};
ghost use Rattle.run_access_worked.specs.run_plain.declared.state.PlainState.{PlainState as ThePlainState};
ghost use Rattle.pass_proofs.specs.run_source.declared.state.Mode.{Mode};
ghost use Rattle.pass_proofs.specs.run_source.declared.state.State.{State as TheState};

/// The end in a resumed activation is followed where the part returns, whether the activation has left or not, and
/// wherever its frame lies. The part returns where it is at the same place.
pub fn ends_of_resumed_activations_are_followed()
    ensures returns { (g : FramedGiven) (h : PlainGiven) (s : TheState) (t : ThePlainState) → AreRelated g h s t
        → IsAtEnd g h s t → IsFollowed g h s t }
    ensures inside { (g : FramedGiven) (h : PlainGiven) (s : TheState) (t : ThePlainState) (r : AreRelated g h s t)
        → s.outcome ≡ Outcome.Running → s.top.mode ≡ Mode.Resumed → IsAtIntrinsic g h s t r Intrinsic.CoroEnd
        → IsFollowed g h s t }
{}

/// Behind a transfer the steps over the suspend, its switch and the end are followed: by none, by none, and by the
/// return.
pub fn passing_activations_are_followed()
    ensures { (g : FramedGiven) (h : PlainGiven) (s : TheState) (t : ThePlainState) (r : AreRelated g h s t)
        → IsPassing g h s t r → IsFine (framed_step g s).outcome → IsFollowed g h s t }
{}
