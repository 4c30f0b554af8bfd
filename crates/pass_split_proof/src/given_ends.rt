//! The end of a coroutine in its ramp, wherever its frame lies.

ghost use Rattle.std.specs.Prelude.{◌≡◌, false};
ghost use Rattle.pass_proofs.specs.ir_base.declared.outcome.Outcome.{Outcome};
ghost use Rattle.pass_proofs.specs.ir_model.declared.operand.Intrinsic.{Intrinsic};
ghost use Rattle.pass_proofs.specs.pass_intrinsics.Cuts.{goes_on};
ghost use Rattle.pass_split_proof.specs.giving.Intrinsics.{IsAtIntrinsic};
ghost use Rattle.pass_split_proof.specs.simulation.Followed.{IsFollowed};
ghost use Rattle.pass_split_proof.specs.states.Related.{AreRelated};
ghost use Rattle.pass_proofs.specs.run_framed.Framed.{FramedGiven};
ghost use Rattle.run_access_worked.specs.run_plain.Plain.{PlainGiven};
ghost use Rattle.run_access_worked.specs.run_plain.declared.state.PlainState.{PlainState as ThePlainState};
ghost use Rattle.pass_proofs.specs.run_source.declared.state.State.{State as TheState};

/// The end of an instance is followed in a ramp, also where its frame was given. An instance in a stack block owns
/// that no more. The part sets the result to false, or takes no step where it has no name.
pub fn ends_in_ramps_are_followed()
    ensures { (g : FramedGiven) (h : PlainGiven) (s : TheState) (t : ThePlainState) (r : AreRelated g h s t)
        → s.outcome ≡ Outcome.Running → IsAtIntrinsic g h s t r Intrinsic.CoroEnd → goes_on r.top.part ≡ false
        → IsFollowed g h s t }
{}
