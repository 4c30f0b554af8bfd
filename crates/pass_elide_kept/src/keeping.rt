//! What is kept behind each step of a known kind: activations pass by what allocates and frees given frames, have what
//! their calls gave, and callers of instances stay on the stack.

ghost use Rattle.std.specs.Prelude.{Some, slice_get, true, ◌≡◌, ℕ};
ghost use Rattle.elide_sites.specs.Destroyed.{FreesWhenDestroyed};
ghost use Rattle.pass_elide_kept.specs.Kept.{AreKept};
ghost use Rattle.pass_elide_kept.specs.Modules.{KeepsHandlesAndEnds};
ghost use Rattle.pass_elide_kept.specs.Runs.{EndsDestroyed, EndsInBlock, IsKeptFramed, IsKeptGiving};
ghost use Rattle.pass_elide_proof.specs.CallersStack.{AreCalled};
ghost use Rattle.pass_elide_proof.specs.Destroying.{DestroysAreToFree};
ghost use Rattle.pass_elide_proof.specs.Elision.{Elision, elided, framed, function_in};
ghost use Rattle.pass_elide_proof.specs.Invariant.{HaveCallers};
ghost use Rattle.pass_elide_proof.specs.Match.{AreElided};
ghost use Rattle.pass_elide_proof.specs.Placing.{HasShape, KeepsPlaces};
ghost use Rattle.pass_elide_proof.specs.PlacingStates.{HavePassedBy};
ghost use Rattle.pass_elide_proof.specs.Releasing.{FreesAtOnce, HaveReleased};
ghost use Rattle.pass_elide_proof.specs.Sound.{IsSoundState};
ghost use Rattle.pass_elide_proof.specs.Stepping.{IsKnownStep, steps_of};
ghost use Rattle.pass_elide_proof.specs.pass_proofs.ir_base.declared.outcome.Outcome.{Outcome};
ghost use Rattle.pass_elide_proof.specs.pass_proofs.run_agreement.Machines.{IsFine, iterate};
ghost use Rattle.pass_elide_proof.specs.pass_proofs.run_framed.Framed.{framed_step};
ghost use Rattle.pass_elide_proof.specs.pass_proofs.run_source.declared.state.Instance.{Instance};
ghost use Rattle.pass_elide_proof.specs.pass_proofs.run_source.declared.state.State.{State};

/// Behind a step of a known kind no activation whose frame was given is in a block that allocates or frees it. Such a
/// block is entered by one edge, which the run that gives frames doesn't take.
pub fn known_steps_pass_by()
    ensures { (e : Elision) → KeepsPlaces e → KeepsHandlesAndEnds e → (s t : State) → IsKeptFramed e s
        → ((n : ℕ) → IsKeptGiving e (iterate (framed_step (elided e)) n t)) → (r : AreElided e s t)
        → IsFine (framed_step (framed e) s).outcome → HavePassedBy e t → (k : IsKnownStep e s t r)
        → AreElided e (framed_step (framed e) s) (iterate (framed_step (elided e)) (steps_of e s t r k) t)
        → HavePassedBy e (iterate (framed_step (elided e)) (steps_of e s t r k) t) }
{}

/// Activations have what their calls gave. No instruction but begin gives begin's name, and a call of a function is no
/// begin.
pub fn known_steps_keep_calls()
    ensures { (e : Elision) → KeepsPlaces e → KeepsHandlesAndEnds e → (s t : State) → IsKeptFramed e s
        → ((n : ℕ) → IsKeptGiving e (iterate (framed_step (elided e)) n t)) → (r : AreElided e s t)
        → IsFine (framed_step (framed e) s).outcome → AreCalled e t → (k : IsKnownStep e s t r)
        → AreElided e (framed_step (framed e) s) (iterate (framed_step (elided e)) (steps_of e s t r k) t)
        → AreCalled e (iterate (framed_step (elided e)) (steps_of e s t r k) t) }
{}

/// Callers of given instances that aren't Finished are on the stack. A coroutine that is never given its frame may
/// save on a path from a destroy edge, since it has no such instance.
pub fn known_steps_keep_callers()
    ensures { (e : Elision) → KeepsPlaces e → KeepsHandlesAndEnds e → (s t : State) → IsKeptFramed e s
        → ((n : ℕ) → IsKeptGiving e (iterate (framed_step (elided e)) n t)) → (r : AreElided e s t)
        → IsFine (framed_step (framed e) s).outcome → AreCalled e t → HaveCallers e t → (k : IsKnownStep e s t r)
        → AreElided e (framed_step (framed e) s) (iterate (framed_step (elided e)) (steps_of e s t r k) t)
        → HaveCallers e (iterate (framed_step (elided e)) (steps_of e s t r k) t) }
{}

/// So what is related stays related. The handle of each instance whose frame was given is kept by its caller until a
/// destroy has freed it in the framed run.
pub fn related_states_stay_related()
    ensures { (e : Elision) → KeepsPlaces e → KeepsHandlesAndEnds e → (s t : State) → IsKeptFramed e s
        → ((n : ℕ) → IsKeptGiving e (iterate (framed_step (elided e)) n t)) → (h : AreKept e s t)
        → s.outcome ≡ Outcome.Running → IsFine (framed_step (framed e) s).outcome
        → (k : IsKnownStep e s t h.related.beside)
        → AreElided e (framed_step (framed e) s)
        (iterate (framed_step (elided e)) (steps_of e s t h.related.beside k) t)
        → AreKept e (framed_step (framed e) s)
        (iterate (framed_step (elided e)) (steps_of e s t h.related.beside k) t) }
{}

/// In sound states the instance that a coro.destroy goes on with was freed at coro.end. So `IsKeptFramed.destroyed`
/// holds where functions of shapes free at once, and when they are destroyed.
pub fn destroyed_ends_have_freed()
    ensures { (e : Elision) (s : State) → IsSoundState (framed e) s → HaveReleased e s → DestroysAreToFree e.code s
        → EndsInBlock e s.top.func
        → (HasShape e s.top.func → FreesAtOnce (function_in e s.top.func) (e.shape s.top.func))
        → (HasShape e s.top.func → FreesWhenDestroyed (function_in e s.top.func)) → HasShape e s.top.func
        → EndsDestroyed e s → (number : ℕ) (x : Instance) → s.top.instance ≡ Some number
        → slice_get s.instances number ≡ Some x → x.freed ≡ true }
{}
