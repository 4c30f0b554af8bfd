//! Coro intrinsics that both runs execute.

ghost use Rattle.std.specs.Prelude.{Bool, List, Option, ℕ};
ghost use Rattle.pass_elide_proof.specs.Both.{AreAtCall, AreAtOwn, IsAtAsking, IsAtConstant, standing_at};
ghost use Rattle.pass_elide_proof.specs.Elision.{Elision, elided, framed};
ghost use Rattle.pass_elide_proof.specs.Frees.{IsAtFree};
ghost use Rattle.pass_elide_proof.specs.Invariant.{HaveCallers};
ghost use Rattle.pass_elide_proof.specs.Looking.{IsAtDone, IsAtPromise};
ghost use Rattle.pass_elide_proof.specs.Match.{AreElided};
ghost use Rattle.pass_elide_proof.specs.NullTests.{IsAtNullTest};
ghost use Rattle.pass_elide_proof.specs.Saves.{IsAtSave, IsAtSuspend};
ghost use Rattle.pass_proofs.specs.ir_base.declared.ops.Pred.{Pred};
ghost use Rattle.pass_proofs.specs.ir_model.Ty.{Ty};
ghost use Rattle.pass_proofs.specs.ir_model.declared.operand.Arg.{Arg};
ghost use Rattle.pass_proofs.specs.ir_model.declared.operand.Intrinsic.{Intrinsic};
ghost use Rattle.pass_proofs.specs.ir_model.declared.operand.Operand.{Operand};
ghost use Rattle.pass_proofs.specs.run_agreement.Machines.{IsFine};
ghost use Rattle.pass_proofs.specs.run_framed.Framed.{framed_step};
ghost use Rattle.pass_proofs.specs.run_source.declared.state.State.{State};

/// coro.id, coro.size, coro.align and coro.frame give what stands for each other. coro.alloc is true in the one run and
/// false in the other where a ramp was given its frame, and true in both elsewhere.
pub fn constants_stay_beside()
    ensures constants { (e : Elision) (s t : State) (i : Intrinsic) (result : Option ℕ) (must_tail : Bool)
        (ty : Option Ty) (args : List Arg) → AreElided e s t → IsAtConstant e s t i result must_tail ty args
        → AreElided e (framed_step (framed e) s) (framed_step (elided e) t) }
    ensures asked { (e : Elision) (s t : State) (result : Option ℕ) (must_tail : Bool) (ty : Option Ty)
        (args : List Arg) → AreElided e s t → IsAtAsking e s t result must_tail ty args
        → AreElided e (framed_step (framed e) s) (framed_step (elided e) t) }
{}

/// coro.free gives the frame's address in the framed run, and null in the other one where the frame was given.
/// Elsewhere what it gives stands for each other.
pub fn frees_are_asked()
    ensures { (e : Elision) (s t : State) (result : Option ℕ) (must_tail : Bool) (ty : Option Ty) (args : List Arg)
        → AreElided e s t → IsAtFree e s t result must_tail ty args
        → AreElided e (framed_step (framed e) s) (framed_step (elided e) t) }
{}

/// Where nothing more stands in front of a call, both runs stand at it.
pub fn calls_are_reached()
    ensures { (e : Elision) (s t : State) (r : AreElided e s t) (i : Intrinsic) (result : Option ℕ)
        (must_tail : Bool) (ty : Option Ty) (args : List Arg) → AreAtCall e s t i result must_tail ty args
        → AreAtOwn e s t t.top.at r i result must_tail ty args }
{}

/// coro.done says the same in both runs, and coro.promise gives what stands for each other. A handle leads to the same
/// instance, since nothing begins where one isn't over. The call may stand behind allocas that the other run has made.
pub fn looks_stay_beside()
    ensures done { (e : Elision) (s t : State) (n : ℕ) (r : AreElided e s (standing_at t n)) (result : Option ℕ)
        (must_tail : Bool) (ty : Option Ty) (args : List Arg) → HaveCallers e (standing_at t n)
        → IsFine (framed_step (framed e) s).outcome → IsAtDone e s t n r result must_tail ty args
        → AreElided e (framed_step (framed e) s) (framed_step (elided e) t) }
    ensures promise { (e : Elision) (s t : State) (n : ℕ) (r : AreElided e s (standing_at t n)) (result : Option ℕ)
        (must_tail : Bool) (ty : Option Ty) (args : List Arg) → HaveCallers e (standing_at t n)
        → IsFine (framed_step (framed e) s).outcome → IsAtPromise e s t n r result must_tail ty args
        → AreElided e (framed_step (framed e) s) (framed_step (elided e) t) }
{}

/// A save suspends the instance in both runs, at the same suspend. A suspend without a token does so too.
pub fn saves_stay_beside()
    ensures save { (e : Elision) (s t : State) (result : Option ℕ) (must_tail : Bool) (ty : Option Ty)
        (args : List Arg) → AreElided e s t → IsFine (framed_step (framed e) s).outcome
        → IsAtSave e s t result must_tail ty args
        → AreElided e (framed_step (framed e) s) (framed_step (elided e) t) }
    ensures suspend { (e : Elision) (s t : State) (result : Option ℕ) (must_tail : Bool) (ty : Option Ty)
        (args : List Arg) → AreElided e s t → IsFine (framed_step (framed e) s).outcome
        → IsAtSuspend e s t result must_tail ty args
        → AreElided e (framed_step (framed e) s) (framed_step (elided e) t) }
{}

/// Where the frame was given a comparison with null of what coro.free gave isn't true of it in the framed run, and is in
/// the other one.
pub fn null_tests_stay_beside()
    ensures { (e : Elision) (s t : State) (name : ℕ) (pred : Pred) (a b : Operand) → AreElided e s t
        → IsAtNullTest e s t name pred a b → AreElided e (framed_step (framed e) s) (framed_step (elided e) t) }
{}
