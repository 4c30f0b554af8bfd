//! Resumes and destroys of a framed run are followed in the parts.

ghost use Rattle.pass_proofs.specs.ir_model.declared.operand.Intrinsic.{Intrinsic};
ghost use Rattle.pass_split_proof.specs.simulation.Followed.{IsFollowed};
ghost use Rattle.pass_split_proof.specs.states.Related.{AreRelated};
ghost use Rattle.pass_split_proof.specs.steps.Resuming.{IsAtWaking};
ghost use Rattle.pass_split_proof.specs.waking.Able.{CanBeDestroyed, CanBeResumed};
ghost use Rattle.pass_proofs.specs.run_agreement.Machines.{IsFine};
ghost use Rattle.pass_proofs.specs.run_framed.Framed.{FramedGiven, framed_step};
ghost use Rattle.run_access_worked.specs.run_plain.Plain.{PlainGiven};
ghost use Rattle.run_access_worked.specs.run_plain.declared.state.PlainState.{PlainState as ThePlainState};
ghost use Rattle.pass_proofs.specs.run_source.declared.state.State.{State as TheState};
ghost use Rattle.pass_proofs.specs.run_step.Values.{arg_value};

/// A resume is followed in any kind of part, where the instance that it wakes can go on. One right before its suspend
/// is a transfer: the part calls from a block of its own, and returns from there.
pub fn resumes_are_followed()
    ensures { (g : FramedGiven) (h : PlainGiven) (s : TheState) (t : ThePlainState) (r : AreRelated g h s t)
        (k : IsAtWaking g h s t r Intrinsic.CoroResume) → IsFine (framed_step g s).outcome
        → CanBeResumed g h s t (arg_value g.given.code s.top.values k.arg) → IsFollowed g h s t }
{}

/// A destroy is followed in any kind of part, where the instance that it wakes can go on.
pub fn destroys_are_followed()
    ensures { (g : FramedGiven) (h : PlainGiven) (s : TheState) (t : ThePlainState) (r : AreRelated g h s t)
        (k : IsAtWaking g h s t r Intrinsic.CoroDestroy) → IsFine (framed_step g s).outcome
        → CanBeDestroyed g h s t (arg_value g.given.code s.top.values k.arg) → IsFollowed g h s t }
{}
