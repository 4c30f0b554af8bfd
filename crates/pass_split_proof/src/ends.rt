//! The end of a coroutine is followed in its ramp.

ghost use Rattle.std.specs.Prelude.{◌≡◌, false};
ghost use Rattle.pass_proofs.specs.ir_base.declared.outcome.Outcome.{Outcome};
ghost use Rattle.pass_proofs.specs.ir_model.declared.operand.Intrinsic.{Intrinsic};
ghost use Rattle.pass_proofs.specs.pass_intrinsics.Cuts.{goes_on};
ghost use Rattle.pass_split_proof.specs.ends.Ending.{HasOwnFrame};
ghost use Rattle.pass_split_proof.specs.giving.Intrinsics.{IsAtIntrinsic};
ghost use Rattle.pass_split_proof.specs.simulation.Followed.{IsFollowed};
ghost use Rattle.pass_split_proof.specs.states.Related.{AreRelated};
ghost use Rattle.pass_proofs.specs.run_framed.Framed.{FramedGiven};
ghost use Rattle.run_access_worked.specs.run_plain.Plain.{PlainGiven};
ghost use Rattle.run_access_worked.specs.run_plain.declared.state.PlainState.{PlainState as ThePlainState};
ghost use Rattle.pass_proofs.specs.run_source.declared.state.State.{State as TheState};

/// The end of an instance with a frame of its own is followed in a ramp. The part sets the result to false, or takes no
/// step where it has no name. The end of a resumed activation is followed by a return
/// (`ends_of_resumed_activations_are_followed`).
pub fn ends_are_followed()
    ensures { (g : FramedGiven) (h : PlainGiven) (s : TheState) (t : ThePlainState) (r : AreRelated g h s t)
        → s.outcome ≡ Outcome.Running → HasOwnFrame s → IsAtIntrinsic g h s t r Intrinsic.CoroEnd
        → goes_on r.top.part ≡ false → IsFollowed g h s t }
{}
