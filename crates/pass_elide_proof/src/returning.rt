//! Returns of both runs.

ghost use Rattle.std.specs.Prelude.{[], ◌≡◌, Ok, Option, unwrap_or};
ghost use Rattle.pass_elide_proof.specs.Calling.{AreReady};
ghost use Rattle.pass_elide_proof.specs.Elision.{Elision, elided, framed};
ghost use Rattle.pass_elide_proof.specs.Match.{AreElided};
ghost use Rattle.pass_elide_proof.specs.Returning.{GoesOnBehind, HaveReturned, IsAtLeftEnd, IsAtReturn, LeadsBack, MayEnd, ReturnsTo};
ghost use Rattle.pass_proofs.specs.run_agreement.Machines.{IsFine};
ghost use Rattle.pass_proofs.specs.run_framed.Framed.{framed_step};
ghost use Rattle.pass_proofs.specs.run_laws.memory.Pointers.{IsValue};
ghost use Rattle.pass_proofs.specs.run_memory.declared.pointer.Value.{Value};
ghost use Rattle.pass_proofs.specs.run_source.Source.{return};
ghost use Rattle.pass_proofs.specs.run_source.declared.state.State.{State};

/// A return leads back to the caller in both runs, where the slots of the activation die. No frame of an instance that
/// isn't Finished lies in one of them. Behind the entry's return both runs are over and have shown the same.
pub fn returns_stay_beside()
    ensures caller { (e : Elision) (s t : State) → AreReady e s t → IsAtReturn e s t → ReturnsTo e s
        → AreElided e (framed_step (framed e) s) (framed_step (elided e) t) }
    ensures run { (e : Elision) (s t : State) → AreReady e s t → IsAtReturn e s t → s.below ≡ []
        → IsFine (framed_step (framed e) s).outcome
        → HaveReturned (framed_step (framed e) s) (framed_step (elided e) t) }
{}

/// An activation that may end leads back to its caller in both runs, whatever it is that returns.
pub fn activations_lead_back()
    ensures { (e : Elision) (s t : State) (r : AreReady e s t) (v u : Option Value) → MayEnd e s t → ReturnsTo e s
        → IsValue r.beside.homes (unwrap_or v Value.Poison) (unwrap_or u Value.Poison)
        → (a : State) × ((b : State) × ((return s v ≡ Ok a) × ((return t u ≡ Ok b) × AreElided e a b))) }
{}

/// At its coro.end an activation whose coroutine was suspended goes on in both runs if it is a ramp, wherever its frame
/// lies. One that was resumed returns.
pub fn ends_behind_suspends_stay_beside()
    ensures ramp { (e : Elision) (s t : State) → AreReady e s t → (k : IsAtLeftEnd e s t)
        → GoesOnBehind e s k.result → AreElided e (framed_step (framed e) s) (framed_step (elided e) t) }
    ensures resumed { (e : Elision) (s t : State) → AreReady e s t → IsAtLeftEnd e s t → LeadsBack e s t
        → AreElided e (framed_step (framed e) s) (framed_step (elided e) t) }
{}
