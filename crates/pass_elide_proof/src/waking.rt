//! Resumes and destroys of both runs.

ghost use Rattle.pass_elide_proof.specs.Calling.{AreReady};
ghost use Rattle.pass_elide_proof.specs.Elision.{Elision, elided, framed};
ghost use Rattle.pass_elide_proof.specs.Match.{AreElided};
ghost use Rattle.pass_elide_proof.specs.Waking.{IsAtWaking};
ghost use Rattle.pass_proofs.specs.run_framed.Framed.{framed_step};
ghost use Rattle.pass_proofs.specs.run_source.declared.state.State.{State};

/// A resume or a destroy that isn't undefined wakes the same instance in both runs, which goes on at the same label.
pub fn resumes_stay_beside()
    ensures { (e : Elision) (s t : State) → AreReady e s t → IsAtWaking e s t
        → AreElided e (framed_step (framed e) s) (framed_step (elided e) t) }
{}
