//! Calls of both runs.

ghost use Rattle.std.specs.Prelude.{length};
ghost use Rattle.pass_elide_proof.specs.Calling.{AreReady, IsAtCall, IsAtFront, IsAtSite, IsBehindFront};
ghost use Rattle.pass_elide_proof.specs.Elision.{Elision, elided, framed, function_in, rooms};
ghost use Rattle.pass_elide_proof.specs.Match.{AreElided};
ghost use Rattle.pass_elide_proof.specs.Places.{allocas_ahead};
ghost use Rattle.pass_proofs.specs.run_agreement.Machines.{iterate};
ghost use Rattle.pass_proofs.specs.run_framed.Framed.{framed_step};
ghost use Rattle.pass_proofs.specs.run_source.declared.state.State.{State};

/// Where a function has just been entered the run that gives frames makes its new allocas, one step each. At any other
/// place it has nothing to make up for.
pub fn fronts_are_made()
    ensures first { (e : Elision) (s t : State) → AreElided e s t → IsAtFront e s t
        → AreReady e s (iterate (framed_step (elided e))
        (length (allocas_ahead (rooms e s.top.func) (function_in e s.top.func))) t) }
    ensures other { (e : Elision) (s t : State) → AreElided e s t → IsBehindFront e s t → AreReady e s t }
{}

/// A call that gives an alloca enters the ramp in both runs. In the second one the ramp is given the alloca's address.
pub fn sites_are_called()
    ensures { (e : Elision) (s t : State) → AreReady e s t → IsAtSite e s t
        → AreElided e (framed_step (framed e) s) (framed_step (elided e) t) }
{}

/// Any other call of a function or a ramp enters the same one in both runs.
pub fn calls_stay_beside()
    ensures { (e : Elision) (s t : State) → AreReady e s t → IsAtCall e s t
        → AreElided e (framed_step (framed e) s) (framed_step (elided e) t) }
{}
