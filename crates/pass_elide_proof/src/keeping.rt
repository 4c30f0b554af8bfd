//! Callers of instances whose frames lie in their allocas, where they call others.

ghost use Rattle.std.specs.Prelude.{length, false, ◌≡◌};
ghost use Rattle.pass_elide_proof.specs.Calling.{AreReady, DestroysHandles, IsAtCall, IsAtFront, IsAtSite};
ghost use Rattle.pass_elide_proof.specs.Elision.{Elision, elided, function_in, rooms};
ghost use Rattle.pass_elide_proof.specs.Invariant.{HaveCallers};
ghost use Rattle.pass_elide_proof.specs.Match.{AreElided};
ghost use Rattle.pass_elide_proof.specs.Places.{allocas_ahead};
ghost use Rattle.pass_elide_proof.specs.Returning.{HaveOwnSlots};
ghost use Rattle.pass_proofs.specs.run_agreement.Machines.{iterate};
ghost use Rattle.pass_proofs.specs.run_framed.Framed.{framed_step};
ghost use Rattle.pass_proofs.specs.run_source.declared.state.State.{State};

/// A call that gives no alloca destroys nothing, so callers of instances stay on the stack with their handles.
pub fn calls_keep_callers()
    ensures { (e : Elision) (s t : State) → AreReady e s t → IsAtCall e s t → HaveCallers e t
        → HaveCallers e (framed_step (elided e) t) }
{}

/// While a function makes its new allocas the callers below it stay. Where it has just been entered it has no slot, so
/// it is no caller yet.
pub fn fronts_keep_callers()
    ensures { (e : Elision) (s t : State) → AreElided e s t → IsAtFront e s t → HaveCallers e t
        → HaveCallers e (iterate (framed_step (elided e))
        (length (allocas_ahead (rooms e s.top.func) (function_in e s.top.func))) t) }
{}

/// At a call that gives an alloca callers stay on the stack too. All that began there before is Finished, since its
/// caller would be at its call again with the handle held.
pub fn sites_keep_callers()
    ensures { (e : Elision) (s t : State) → AreReady e s t → IsAtSite e s t
        → (function_in e s.top.func).coroutine ≡ false → DestroysHandles e s.top.func → HaveOwnSlots t → HaveCallers e t
        → HaveCallers e (framed_step (elided e) t) }
{}
