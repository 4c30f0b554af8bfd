//! Instances that are released, until their frames are freed.

ghost use Rattle.std.specs.Prelude.{Bool, List, Option, Some, false, slice_get, true, ◌≡◌, ℕ};
ghost use Rattle.pass_elide_proof.specs.Elision.{Elision, elided, elided_code, framed};
ghost use Rattle.pass_elide_proof.specs.Match.{AreElided, IsNoGivenFrame, sides};
ghost use Rattle.pass_elide_proof.specs.Releasing.{AreOfCallees, FreesAtOnce, GivenFreeAtOnce, HaveReleased, HoldsOfCallees, HoldsOfRooms, IsAtSameFree, IsFreeing, IsReleasing};
ghost use Rattle.pass_elide_proof.specs.Sound.{IsSoundState, NestsNone};
ghost use Rattle.pass_elide_proof.specs.Worked.{a_coroutine, before, the_elision, the_shape};
ghost use Rattle.pass_proofs.specs.ir_base.declared.outcome.Word.{Word};
ghost use Rattle.pass_proofs.specs.ir_model.Ty.{Ty};
ghost use Rattle.pass_proofs.specs.ir_model.declared.operand.Allocator.{Allocator};
ghost use Rattle.pass_proofs.specs.ir_model.declared.operand.Arg.{Arg};
ghost use Rattle.pass_proofs.specs.run_framed.Framed.{framed_state_at, framed_step};
ghost use Rattle.pass_proofs.specs.run_memory.declared.pointer.Offset.{Offset};
ghost use Rattle.pass_proofs.specs.run_memory.declared.pointer.Pointer.{Pointer};
ghost use Rattle.pass_proofs.specs.run_memory.declared.pointer.Value.{Value};
ghost use Rattle.pass_proofs.specs.run_source.Source.{first_state};
ghost use Rattle.pass_proofs.specs.run_source.declared.state.Instance.{Instance};
ghost use Rattle.pass_proofs.specs.run_source.declared.state.State.{State};
ghost use Rattle.pass_proofs.specs.run_step.Values.{address, arg_values, nth};
ghost use Rattle.run_slots.specs.Slots.{GivesNoFrames, IsSlottedState};

/// A released instance of a coroutine that frees at once has the topmost activation until it is freed. Nothing is
/// released at the start, and each step of a framed run that gives no frames keeps it.
pub fn released_instances_are_freed_at_once()
    ensures start { (e : Elision) (entry : ℕ) (args : List Word) → HaveReleased e (first_state e.code entry args) }
    ensures step { (e : Elision) (s : State) → IsSlottedState s → IsSoundState (framed e) s → HaveReleased e s
        → HaveReleased e (framed_step (framed e) s) }
    ensures runs { (e : Elision) (entry : ℕ) (args : List Word) (n : ℕ) → GivesNoFrames e.code → NestsNone (framed e)
        → HaveReleased e (framed_state_at (framed e) entry args n) }
{}

/// So a block that both runs free holds no frame that was given. The framed run would free that by a name that differs.
pub fn freed_blocks_hold_no_given_frame()
    ensures { (e : Elision) (s t : State) (a : Allocator) (result : Option ℕ) (must_tail : Bool) (ty : Option Ty)
        (args : List Arg) → AreElided e s t → HaveReleased e s → IsSlottedState s → GivenFreeAtOnce e t
        → IsAtSameFree e s t a result must_tail ty args → (block : ℕ) (o : Offset)
        → address (nth (arg_values e.code s.top.values args) 0) ≡ Value.Ptr (Pointer.At block o)
        → IsNoGivenFrame (sides s t) block }
{}

/// Each instance whose frame was given is of a coroutine that a call of the module gives its frame. So if
/// these free at once, so does it, in each state of a run.
pub fn given_frames_are_of_callees()
    ensures step { (e : Elision) (t : State) → HoldsOfCallees (IsFreeing e) (elided_code e)
        → AreOfCallees (IsFreeing e) t → AreOfCallees (IsFreeing e) (framed_step (elided e) t) }
    ensures runs { (e : Elision) (entry : ℕ) (args : List Word) (n : ℕ) → HoldsOfCallees (IsFreeing e) (elided_code e)
        → AreOfCallees (IsFreeing e) (framed_state_at (elided e) entry args n) }
    ensures rooms { (e : Elision) → GivesNoFrames e.code → HoldsOfRooms (IsFreeing e) e
        → HoldsOfCallees (IsFreeing e) (elided_code e) }
    ensures freeing { (e : Elision) (t : State) → AreOfCallees (IsFreeing e) t → GivenFreeAtOnce e t }
{}

/// In a worked run the coroutine frees at once. Its instance is released and about to be freed, and one step on it is
/// freed.
#[tactic(none)]
pub fn a_worked_instance_is_freed_at_once()
    ensures frees { FreesAtOnce a_coroutine the_shape }
    ensures released { (x : Instance) × (slice_get (before 47).instances 0 ≡ Some x) × (x.released ≡ true)
        × (x.freed ≡ false) × IsReleasing the_elision (before 47) 0 x }
    ensures freed { (x : Instance) × (slice_get (before 48).instances 0 ≡ Some x) × (x.freed ≡ true) }
{}
