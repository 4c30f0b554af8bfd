//! One step of the framed run, and the steps of the run that gives frames beside it.

ghost use Rattle.pass_elide_proof.specs.Elision.{Elision, elided, framed};
ghost use Rattle.pass_elide_proof.specs.Match.{AreElided};
ghost use Rattle.pass_elide_proof.specs.Stepping.{AreBesideOrOver, IsKnownStep, steps_of};
ghost use Rattle.pass_proofs.specs.run_agreement.Machines.{IsFine, iterate};
ghost use Rattle.pass_proofs.specs.run_framed.Framed.{framed_step};
ghost use Rattle.pass_proofs.specs.run_source.declared.state.State.{State};

/// A step from a place of a known kind is followed in one step at most, and in one more for each new alloca of the
/// function. Behind it the states stand beside each other again, or both runs are over.
pub fn steps_are_followed()
    ensures { (e : Elision) (s t : State) (r : AreElided e s t) → IsFine (framed_step (framed e) s).outcome
        → (k : IsKnownStep e s t r)
        → AreBesideOrOver e (framed_step (framed e) s) (iterate (framed_step (elided e)) (steps_of e s t r k) t) }
{}
