//! Suspends of a framed run, for which its parts take no step.

ghost use Rattle.std.specs.Prelude.{◌≡◌};
ghost use Rattle.pass_proofs.specs.ir_base.declared.outcome.Outcome.{Outcome};
ghost use Rattle.pass_split_proof.specs.silent.Suspending.{IsAtSuspendInPart};
ghost use Rattle.pass_split_proof.specs.simulation.Followed.{IsFollowed};
ghost use Rattle.pass_split_proof.specs.states.Related.{AreRelated};
ghost use Rattle.pass_proofs.specs.run_framed.Framed.{FramedGiven};
ghost use Rattle.run_access_worked.specs.run_plain.Plain.{PlainGiven};
ghost use Rattle.run_access_worked.specs.run_plain.declared.state.PlainState.{PlainState as ThePlainState};
ghost use Rattle.pass_proofs.specs.run_source.declared.state.State.{State as TheState};

/// At a suspend the part is at the jump to the end already. The framed run comes to the suspend's switch, and the part
/// takes no step.
pub fn suspends_are_followed()
    ensures { (g : FramedGiven) (h : PlainGiven) (s : TheState) (t : ThePlainState) (r : AreRelated g h s t)
        → s.outcome ≡ Outcome.Running → IsAtSuspendInPart g h s t r → IsFollowed g h s t }
{}
