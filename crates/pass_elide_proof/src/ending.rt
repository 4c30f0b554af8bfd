//! Steps that free frames.

ghost use Rattle.std.specs.Prelude.{Bool, List, Option, ℕ};
ghost use Rattle.pass_elide_proof.specs.Elision.{Elision, elided, framed};
ghost use Rattle.pass_elide_proof.specs.Ending.{IsAtFree, IsAtFreeBeside, IsAtFreeOfNull, IsAtPassed};
ghost use Rattle.pass_elide_proof.specs.Ends.{IsAtEarlyEnd, IsAtRampEnd, IsAtResumedEnd};
ghost use Rattle.pass_elide_proof.specs.Match.{AreElided};
ghost use Rattle.pass_proofs.specs.ir_model.Ty.{Ty};
ghost use Rattle.pass_proofs.specs.ir_model.declared.operand.Allocator.{Allocator};
ghost use Rattle.pass_proofs.specs.ir_model.declared.operand.Arg.{Arg};
ghost use Rattle.pass_proofs.specs.run_framed.Framed.{framed_step};
ghost use Rattle.pass_proofs.specs.run_memory.declared.pointer.Value.{Value};
ghost use Rattle.pass_proofs.specs.run_source.declared.state.State.{State};

/// While the framed run frees the frame of an instance to which the other one gave its frame, that one waits at the test
/// for null. The block dies in the framed run alone.
pub fn frees_are_waited_for()
    ensures { (e : Elision) (s t : State) (a : Allocator) (result : Option ℕ) (must_tail : Bool) (ty : Option Ty)
        (args : List Arg) → AreElided e s t → IsAtFree e s t a result must_tail ty args
        → AreElided e (framed_step (framed e) s) t }
{}

/// Where there is no test for null, the other run frees null while the framed one frees the frame.
pub fn frees_of_null_stay_beside()
    ensures { (e : Elision) (s t : State) (a : Allocator) (result : Option ℕ) (must_tail : Bool) (ty : Option Ty)
        (args : List Arg) → AreElided e s t → IsAtFreeOfNull e s t a result must_tail ty args
        → AreElided e (framed_step (framed e) s) (framed_step (elided e) t) }
{}

/// The other run waits too while the framed one sets another name in the block that frees.
pub fn passed_values_are_waited_for()
    ensures { (e : Elision) (s t : State) (result : Option ℕ) (w : Value) → AreElided e s t
        → IsAtPassed e s t result w → AreElided e (framed_step (framed e) s) t }
{}

/// Both runs free the same block, which has no frame that was given, or both free null. What is freed stands at its own
/// home, and dies there too.
pub fn frees_stay_beside()
    ensures { (e : Elision) (s t : State) (a : Allocator) (result : Option ℕ) (must_tail : Bool) (ty : Option Ty)
        (args : List Arg) → AreElided e s t → IsAtFreeBeside e s t a result must_tail ty args
        → AreElided e (framed_step (framed e) s) (framed_step (elided e) t) }
{}

/// At coro.end of a ramp both go on. Where they haven't left, their instances are Finished, and a frame that was given
/// is owned no more.
pub fn ramp_ends_stay_beside()
    ensures { (e : Elision) (s t : State) (r : AreElided e s t) (result : Option ℕ) (must_tail : Bool)
        (ty : Option Ty) (args : List Arg) → IsAtRampEnd e s t r result must_tail ty args
        → AreElided e (framed_step (framed e) s) (framed_step (elided e) t) }
{}

/// At coro.end of a ramp that hasn't begun both go on, and no instance ends.
pub fn early_ends_stay_beside()
    ensures { (e : Elision) (s t : State) (result : Option ℕ) (must_tail : Bool) (ty : Option Ty) (args : List Arg)
        → AreElided e s t → IsAtEarlyEnd e s t result must_tail ty args
        → AreElided e (framed_step (framed e) s) (framed_step (elided e) t) }
{}

/// At coro.end of a resumed activation both return to their callers, and their slots die.
pub fn resumed_ends_stay_beside()
    ensures { (e : Elision) (s t : State) (r : AreElided e s t) (result : Option ℕ) (must_tail : Bool)
        (ty : Option Ty) (args : List Arg) → IsAtResumedEnd e s t r result must_tail ty args
        → AreElided e (framed_step (framed e) s) (framed_step (elided e) t) }
{}
