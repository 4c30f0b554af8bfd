//! What stands at a place says what is asked of the place, by what the framed module keeps.

ghost use Rattle.elide_shape.specs.Calls.{deals};
ghost use Rattle.elide_shape.specs.declared.calls.Dealing.{Dealing};
ghost use Rattle.pass_elide.specs.declared.given.GivenFrame.{GivenFrame};
ghost use Rattle.pass_elide_proof.specs.Again.{IsAtAllocaAgain};
ghost use Rattle.pass_elide_proof.specs.Allocating.{IsAtAllocation};
ghost use Rattle.pass_elide_proof.specs.Asked.{IsAtAsking as IsAtRequest, asks_same};
ghost use Rattle.pass_elide_proof.specs.Beginning.{BeginsInFrameSize, HasRoomAt, IsAtBegin, IsAtGivenBegin};
ghost use Rattle.pass_elide_proof.specs.Both.{IsAtAsking, IsAtConstant, is_constant, standing_at};
ghost use Rattle.pass_elide_proof.specs.Calling.{IsAtCall, IsAtSite, IsBehindFront};
ghost use Rattle.pass_elide_proof.specs.Edges.{IsEntering};
ghost use Rattle.pass_elide_proof.specs.EdgesAsking.{IsAtQuestion, IsAtWayOn};
ghost use Rattle.pass_elide_proof.specs.Elision.{Elision, elided, elided_code, framed, function_in, rooms};
ghost use Rattle.pass_elide_proof.specs.Ending.{FreesGiven};
ghost use Rattle.pass_elide_proof.specs.Ends.{HaveOwn, IsAtRampEnd, IsAtResumedEnd, IsOwnSlot};
ghost use Rattle.pass_elide_proof.specs.Frees.{IsAtFree};
ghost use Rattle.pass_elide_proof.specs.Invariant.{HaveCallers};
ghost use Rattle.pass_elide_proof.specs.Looking.{IsAtDone, IsAtPromise};
ghost use Rattle.pass_elide_proof.specs.Making.{HaveSlots, IsAtAlloca, IsAtAllocator, IsNotEntering};
ghost use Rattle.pass_elide_proof.specs.Marking.{HoldsNoFrame, IsAtDeallocation, IsAtMarker, first_operand, second_operand};
ghost use Rattle.pass_elide_proof.specs.Match.{AreElided, is_given_mode, sides, was_given};
ghost use Rattle.pass_elide_proof.specs.Ordinary.{IsAtOrdinary};
ghost use Rattle.pass_elide_proof.specs.Places.{allocas_ahead, front_at, room_at};
ghost use Rattle.pass_elide_proof.specs.Placing.{HasShape, IsPlain, KeepsPlaces};
ghost use Rattle.pass_elide_proof.specs.PlacingStates.{AreAtInstr, AreAtIntrinsic, AreOfCoroutines, BeginsInCoroutines, HavePassedBy, HaveShapes, IsCalledBy, IsKnownState, IsLeftWaiting, PassesBy};
ghost use Rattle.pass_elide_proof.specs.Returning.{GoesOnBehind, HaveOwnBlocks, HaveOwnSlots, IsAtLeftEnd, IsAtReturn, ReturnsTo};
ghost use Rattle.pass_elide_proof.specs.Rooms.{IsAtRoom};
ghost use Rattle.pass_elide_proof.specs.Saves.{IsAtSave, IsAtSuspend, MaySave};
ghost use Rattle.pass_elide_proof.specs.Sizes.{IsAtSize};
ghost use Rattle.pass_elide_proof.specs.Sound.{IsSoundState};
ghost use Rattle.pass_elide_proof.specs.Statement.{AreRelated};
ghost use Rattle.pass_elide_proof.specs.Waking.{IsAtWaking};
ghost use Rattle.pass_elide_proof.specs.Worked.{the_elision};
ghost use Rattle.pass_proofs.specs.ir_base.declared.name.Name.{Name};
ghost use Rattle.pass_proofs.specs.ir_base.declared.outcome.Outcome.{Outcome};
ghost use Rattle.pass_proofs.specs.ir_base.declared.outcome.Word.{Word};
ghost use Rattle.pass_proofs.specs.ir_model.Names.{function_named};
ghost use Rattle.pass_proofs.specs.ir_model.Ty.{Ty};
ghost use Rattle.pass_proofs.specs.ir_model.declared.instr.Instr.{Instr};
ghost use Rattle.pass_proofs.specs.ir_model.declared.instr.Terminator.{Terminator};
ghost use Rattle.pass_proofs.specs.ir_model.declared.module.Module.{Module};
ghost use Rattle.pass_proofs.specs.ir_model.declared.operand.Allocator.{Allocator};
ghost use Rattle.pass_proofs.specs.ir_model.declared.operand.Arg.{Arg};
ghost use Rattle.pass_proofs.specs.ir_model.declared.operand.Callee.{Callee};
ghost use Rattle.pass_proofs.specs.ir_model.declared.operand.Intrinsic.{Intrinsic};
ghost use Rattle.pass_proofs.specs.ir_model.declared.operand.Operand.{Operand};
ghost use Rattle.pass_proofs.specs.ir_paths.Slots.{is_in_args};
ghost use Rattle.pass_proofs.specs.ir_paths.Windows.{operand_at};
ghost use Rattle.pass_proofs.specs.ir_paths.declared.point.Point.{Point};
ghost use Rattle.pass_proofs.specs.run_agreement.Machines.{IsFine};
ghost use Rattle.pass_proofs.specs.run_framed.Framed.{FramedGiven, alloca_from, framed_context, framed_state_at, framed_step};
ghost use Rattle.pass_proofs.specs.run_laws.changed.Changed.{Each};
ghost use Rattle.pass_proofs.specs.run_laws.embedded.Related.{HasNoSlot};
ghost use Rattle.pass_proofs.specs.run_memory.declared.block.MemoryBlock.{MemoryBlock};
ghost use Rattle.pass_proofs.specs.run_memory.declared.pointer.Pointer.{Pointer};
ghost use Rattle.pass_proofs.specs.run_memory.declared.pointer.Value.{Value};
ghost use Rattle.pass_proofs.specs.run_source.Source.{deallocate, first_state, left_windows};
ghost use Rattle.pass_proofs.specs.run_source.State.{function_of, is_finished, work_of};
ghost use Rattle.pass_proofs.specs.run_source.declared.state.Activation.{Activation};
ghost use Rattle.pass_proofs.specs.run_source.declared.state.Instance.{Instance};
ghost use Rattle.pass_proofs.specs.run_source.declared.state.Mode.{Mode};
ghost use Rattle.pass_proofs.specs.run_source.declared.state.State.{State};
ghost use Rattle.pass_proofs.specs.run_step.Step.{AtInstr, AtTerm, Done, Work, action_of, block_of, deallocated, fetch, fits_function};
ghost use Rattle.pass_proofs.specs.run_step.Values.{address, arg_values, nth, pointer_to, value_in};
ghost use Rattle.run_slots.specs.Slots.{IsSlottedState};
ghost use Rattle.std.specs.Prelude.{[], Bool, List, None, Ok, Option, Some, false, slice_get, true, ◌+◌, ◌<◌, ◌^◌, ◌∷◌, ◌≡◌, ◌⊎◌, ℕ};

/// Both runs execute a plain instruction, by which no call gives a frame.
pub fn ordinary_places_are_known()
    ensures { (e : Elision) (s t : State) (i : Instr) (v : Work) → AreElided e s t → KeepsPlaces e
        → PassesBy e t t.top → AreAtInstr e s t i → IsPlain (e.shape s.top.func) i
        → room_at (rooms e s.top.func) (function_in e s.top.func) s.top.block s.top.at i ≡ None
        → HasNoSlot (AtInstr i) → action_of (framed_context (framed e) s) (work_of s) (AtInstr i) ≡ Done v
        → IsAtOrdinary e s t i v }
{}

/// They make a block by an alloca that isn't executed again, or by an allocator.
pub fn making_places_are_known()
    ensures allocas { (e : Elision) (s t : State) (name : ℕ) (ty : Ty) (align : ℕ) → AreElided e s t
        → KeepsPlaces e → PassesBy e t t.top → AreAtInstr e s t (Instr.Alloca name ty align) → HaveSlots s
        → IsNotEntering s.top.mode → IsAtAlloca e s t name ty align }
    ensures allocators { (e : Elision) (s t : State) (a : Allocator) (result : Option ℕ) (must_tail : Bool)
        (ty : Option Ty) (args : List Arg) (word : Word) → AreElided e s t → KeepsPlaces e → PassesBy e t t.top
        → AreAtInstr e s t (Instr.Call result must_tail ty (Callee.Allocator a) args) → HaveSlots s
        → deals Dealing.Allocates a ≡ true → nth (arg_values e.code s.top.values args) 0 ≡ Value.Int word
        → word.bits < 2 ^ 64 → IsAtAllocator e s t a result must_tail ty args }
{}

/// They ask for what is the same in both.
pub fn requests_are_known()
    ensures { (e : Elision) (s t : State) (j : Intrinsic) (result : Option ℕ) (must_tail : Bool) (ty : Option Ty)
        (args : List Arg) → AreElided e s t → KeepsPlaces e → PassesBy e t t.top
        → AreAtInstr e s t (Instr.Call result must_tail ty (Callee.Intrinsic j) args) → asks_same j ≡ true
        → IsAtRequest e s t j result must_tail ty args }
{}

/// They are at an intrinsic that stands in coroutines alone.
pub fn intrinsic_places_are_known()
    ensures constants { (e : Elision) (s t : State) (j : Intrinsic) (result : Option ℕ) (must_tail : Bool)
        (ty : Option Ty) (args : List Arg) → AreElided e s t → KeepsPlaces e → PassesBy e t t.top
        → AreAtIntrinsic e s t j result must_tail ty args → is_constant j ≡ true
        → IsAtConstant e s t j result must_tail ty args }
    ensures alloc { (e : Elision) (s t : State) (result : Option ℕ) (must_tail : Bool) (ty : Option Ty)
        (args : List Arg) → AreElided e s t → KeepsPlaces e → PassesBy e t t.top → HaveShapes e t
        → AreAtIntrinsic e s t Intrinsic.CoroAlloc result must_tail ty args
        → IsAtAsking e s t result must_tail ty args }
    ensures free { (e : Elision) (s t : State) (result : Option ℕ) (must_tail : Bool) (ty : Option Ty)
        (args : List Arg) → AreElided e s t → KeepsPlaces e → PassesBy e t t.top → HaveShapes e t
        → IsSlottedState s → IsSoundState (elided e) t
        → AreAtIntrinsic e s t Intrinsic.CoroFree result must_tail ty args
        → IsAtFree e s t result must_tail ty args }
    ensures save { (e : Elision) (s t : State) (result : Option ℕ) (must_tail : Bool) (ty : Option Ty)
        (args : List Arg) → AreElided e s t → KeepsPlaces e → PassesBy e t t.top → MaySave e s
        → AreAtIntrinsic e s t Intrinsic.CoroSave result must_tail ty args
        → IsAtSave e s t result must_tail ty args }
    ensures suspend { (e : Elision) (s t : State) (result : Option ℕ) (must_tail : Bool) (ty : Option Ty)
        (args : List Arg) → AreElided e s t → KeepsPlaces e → PassesBy e t t.top
        → (operand_at args 0 ≡ Operand.None → MaySave e s)
        → AreAtIntrinsic e s t Intrinsic.CoroSuspend result must_tail ty args
        → IsAtSuspend e s t result must_tail ty args }
{}

/// The framed run asks for the frame's size, or allocates the frame, while a given ramp waits at its branch.
pub fn waiting_places_are_known()
    ensures sizes { (e : Elision) (s t : State) (j : Intrinsic) (result : Option ℕ) (must_tail : Bool)
        (ty : Option Ty) (args : List Arg) → KeepsPlaces e → IsLeftWaiting e s t
        → (j ≡ Intrinsic.CoroSizeI32) ⊎ (j ≡ Intrinsic.CoroSizeI64)
        → fetch (function_of (framed e).given s) s.top.block s.top.at
        ≡ AtInstr (Instr.Call result must_tail ty (Callee.Intrinsic j) args)
        → IsAtSize e s t j result must_tail ty args }
    ensures allocations { (e : Elision) (s t : State) (a : Allocator) (result : ℕ) (must_tail : Bool) (ty : Option Ty)
        (args : List Arg) (word : Word) → KeepsPlaces e → IsLeftWaiting e s t → IsKnownState e.code s
        → deals Dealing.Allocates a ≡ true
        → fetch (function_of (framed e).given s) s.top.block s.top.at
        ≡ AtInstr (Instr.Call (Some result) must_tail ty (Callee.Allocator a) args)
        → nth (arg_values e.code s.top.values args) 0 ≡ Value.Int word
        → IsAtAllocation e s t a result must_tail ty args }
{}

/// A given ramp comes to the question whether its frame is to be allocated, and passes by the block that allocates.
pub fn questions_are_known()
    ensures asked { (e : Elision) (s t : State) (k : HasShape e s.top.func) (label : ℕ) → KeepsPlaces e
        → IsEntering (framed e) s label → s.top.block ≡ k.asks.asks → is_given_mode t.top.mode ≡ true
        → t.top.block ≡ s.top.block
        → t.top.at ≡ front_at (rooms e s.top.func) (function_in e s.top.func) s.top.block s.top.at
        → IsAtQuestion e s t k.asks label }
    ensures passed { (e : Elision) (s t : State) (k : HasShape e s.top.func) (label : ℕ) → KeepsPlaces e
        → IsEntering (framed e) s label → s.top.block ≡ k.asks.allocates → IsLeftWaiting e s t
        → left_windows (elided e).given t k.asks.other ≡ [] → IsAtWayOn e s t k.asks label }
{}

/// They call a function, which may be given an alloca. No call has an instruction of its own in front of it.
pub fn call_places_are_known()
    ensures named { (e : Elision) (s t : State) (result : Option ℕ) (must_tail : Bool) (ty : Option Ty) (n : Name)
        (args : List Arg) (callee : ℕ) → AreElided e s t → KeepsPlaces e → PassesBy e t t.top
        → AreAtInstr e s t (Instr.Call result must_tail ty (Callee.Named n) args)
        → room_at (rooms e s.top.func) (function_in e s.top.func) s.top.block s.top.at
        (Instr.Call result must_tail ty (Callee.Named n) args) ≡ None
        → function_named e.code n ≡ Some callee → IsAtCall e s t }
    ensures pointed { (e : Elision) (s t : State) (result : Option ℕ) (must_tail : Bool) (ty : Option Ty) (v : ℕ)
        (args : List Arg) (callee : ℕ) → AreElided e s t → KeepsPlaces e → PassesBy e t t.top
        → AreAtInstr e s t (Instr.Call result must_tail ty (Callee.Local v) args)
        → value_in s.top.values v ≡ Value.Ptr (Pointer.Func callee)
        → fits_function ty args (slice_get e.code.functions callee) ≡ true → IsAtCall e s t }
    ensures sites { (e : Elision) (s t : State) (result : Option ℕ) (must_tail : Bool) (ty : Option Ty) (n : Name)
        (args : List Arg) (size align : ℕ) → AreElided e s t → KeepsPlaces e → PassesBy e t t.top
        → AreAtInstr e s t (Instr.Call result must_tail ty (Callee.Named n) args)
        → room_at (rooms e s.top.func) (function_in e s.top.func) s.top.block s.top.at
        (Instr.Call result must_tail ty (Callee.Named n) args) ≡ Some (GivenFrame.Alloca size align)
        → IsAtSite e s t }
    ensures behind { (e : Elision) (s t : State) → KeepsPlaces e → t.top.block ≡ s.top.block
        → t.top.at ≡ front_at (rooms e s.top.func) (function_in e s.top.func) s.top.block s.top.at
        → (s.top.block ≡ 0 → s.top.at ≡ 0 → allocas_ahead (rooms e s.top.func) (function_in e s.top.func) ≡ [])
        → IsBehindFront e s t }
{}

/// They resume or destroy an instance, each of which is one of a coroutine.
pub fn waking_places_are_known()
    ensures { (e : Elision) (s t : State) (j : Intrinsic) (result : Option ℕ) (must_tail : Bool) (ty : Option Ty)
        (arg : Arg) (rest : List Arg) → AreElided e s t → KeepsPlaces e → PassesBy e t t.top
        → (j ≡ Intrinsic.CoroResume) ⊎ (j ≡ Intrinsic.CoroDestroy)
        → AreAtInstr e s t (Instr.Call result must_tail ty (Callee.Intrinsic j) (arg ∷ rest))
        → AreOfCoroutines e s.instances → HaveCallers e t → IsFine (framed_step (framed e) s).outcome
        → IsAtWaking e s t }
{}

/// They return, or come to the end of a coroutine that was suspended.
pub fn return_places_are_known()
    ensures returned { (e : Elision) (s t : State) (value : Option Arg) → AreRelated e s t → KeepsPlaces e
        → s.outcome ≡ Outcome.Running
        → fetch (function_of (framed e).given s) s.top.block s.top.at ≡ AtTerm (Terminator.Ret value)
        → HaveOwnBlocks s → HaveOwnSlots t → IsAtReturn e s t }
    ensures left { (e : Elision) (s t : State) (result : Option ℕ) (must_tail : Bool) (ty : Option Ty)
        (args : List Arg) → KeepsPlaces e → fetch (function_of (framed e).given s) s.top.block s.top.at
        ≡ AtInstr (Instr.Call result must_tail ty (Callee.Intrinsic Intrinsic.CoroEnd) args)
        → s.outcome ≡ Outcome.Running → s.top.has_left ≡ true → IsAtLeftEnd e s t }
    ensures goes { (e : Elision) (s : State) (result : Option ℕ) (must_tail : Bool) (ty : Option Ty)
        (args : List Arg) → KeepsPlaces e → fetch (function_of (framed e).given s) s.top.block s.top.at
        ≡ AtInstr (Instr.Call result must_tail ty (Callee.Intrinsic Intrinsic.CoroEnd) args)
        → s.top.mode ≡ Mode.Ramp → GoesOnBehind e s result }
{}

/// They look at an instance, mark a slot, or free a block that is no frame's.
pub fn looks_and_markers_are_known()
    ensures done { (e : Elision) (s t : State) (n : ℕ) (r : AreElided e s (standing_at t n)) (result : Option ℕ)
        (must_tail : Bool) (ty : Option Ty) (args : List Arg) → KeepsPlaces e → PassesBy e t t.top
        → (s.top.block ≡ 0 → s.top.at ≡ 0 → r.top.own ≡ []
        → allocas_ahead (rooms e s.top.func) (function_in e s.top.func) ≡ [])
        → AreAtInstr e s t (Instr.Call result must_tail ty (Callee.Intrinsic Intrinsic.CoroDone) args)
        → AreOfCoroutines e s.instances → IsAtDone e s t n r result must_tail ty args }
    ensures promise { (e : Elision) (s t : State) (n : ℕ) (r : AreElided e s (standing_at t n)) (result : Option ℕ)
        (must_tail : Bool) (ty : Option Ty) (args : List Arg) → KeepsPlaces e → PassesBy e t t.top
        → (s.top.block ≡ 0 → s.top.at ≡ 0 → r.top.own ≡ []
        → allocas_ahead (rooms e s.top.func) (function_in e s.top.func) ≡ [])
        → AreAtInstr e s t (Instr.Call result must_tail ty (Callee.Intrinsic Intrinsic.CoroPromise) args)
        → IsSoundState (elided e) t → IsAtPromise e s t n r result must_tail ty args }
    ensures markers { (e : Elision) (s t : State) (j : Intrinsic) (result : Option ℕ) (must_tail : Bool)
        (ty : Option Ty) (args : List Arg) → AreElided e s t → KeepsPlaces e → PassesBy e t t.top
        → (j ≡ Intrinsic.LifetimeStart) ⊎ (j ≡ Intrinsic.LifetimeEnd)
        → AreAtInstr e s t (Instr.Call result must_tail ty (Callee.Intrinsic j) args)
        → (block_of (first_operand e s args 1) ≡ None → block_of (second_operand e t args 1) ≡ None)
        → HoldsNoFrame s.instances (first_operand e s args 1)
        → HoldsNoFrame t.instances (second_operand e t args 1) → IsAtMarker e s t j result must_tail ty args }
    ensures deallocations { (e : Elision) (s t : State) (a : Allocator) (result : Option ℕ) (must_tail : Bool)
        (ty : Option Ty) (args : List Arg) (memory : List MemoryBlock) → AreElided e s t → KeepsPlaces e
        → PassesBy e t t.top → deals Dealing.Frees a ≡ true
        → AreAtInstr e s t (Instr.Call result must_tail ty (Callee.Allocator a) args)
        → ((v : ℕ) → is_in_args v args ≡ true → (e.shape s.top.func).freed v ≡ false)
        → HoldsNoFrame s.instances (first_operand e s args 0)
        → HoldsNoFrame t.instances (second_operand e t args 0)
        → deallocated s.world.memory (address (first_operand e s args 0)) ≡ Ok memory
        → IsAtDeallocation e s t a result must_tail ty args memory }
    ensures again { (e : Elision) (s t : State) (name : ℕ) (ty : Ty) (align from label : ℕ) (next : Point)
        → AreElided e s t → KeepsPlaces e → PassesBy e t t.top → IsKnownState e.code s
        → AreAtInstr e s t (Instr.Alloca name ty align) → HaveSlots s → s.top.mode ≡ Mode.Entering from label
        → alloca_from (function_in e s.top.func) (s.top.at + 1) ≡ Some next
        → IsAtAllocaAgain e s t name ty align from label next }
{}

/// An activation returns to a name of the call in front of the one below it.
pub fn callers_are_known()
    ensures { (e : Elision) (s : State) (caller : Activation) (rest : List Activation) → KeepsPlaces e
        → IsKnownState e.code s → s.below ≡ caller ∷ rest → ReturnsTo e s }
{}

/// They begin a coroutine, where the framed run gives no frames.
pub fn begin_places_are_known()
    ensures allocated { (e : Elision) (s t : State) (result : Option ℕ) (must_tail : Bool) (ty : Option Ty)
        (args : List Arg) → AreElided e s t → KeepsPlaces e → IsSlottedState s → IsSoundState (framed e) s
        → IsSoundState (elided e) t → AreAtIntrinsic e s t Intrinsic.CoroBegin result must_tail ty args
        → is_given_mode t.top.mode ≡ false → IsAtBegin e s t result must_tail ty args }
    ensures given { (e : Elision) (s t : State) (r : AreElided e s t) (result : Option ℕ) (must_tail : Bool)
        (ty : Option Ty) (args : List Arg) (block : ℕ) → KeepsPlaces e → IsSlottedState s
        → IsSoundState (framed e) s → IsSoundState (elided e) t → HaveShapes e t
        → AreAtIntrinsic e s t Intrinsic.CoroBegin result must_tail ty args
        → t.top.mode ≡ Mode.GivenRamp (pointer_to block) → HasRoomAt e s t r block → BeginsInFrameSize e s args
        → IsAtGivenBegin e s t r result must_tail ty args }
    ensures rooms { (e : Elision) (s t : State) (block : ℕ) → KeepsPlaces e → IsSlottedState s
        → IsSoundState (elided e) t
        → ((c : Activation) (below : List Activation) → t.below ≡ c ∷ below → IsCalledBy e t.top c)
        → t.top.mode ≡ Mode.GivenRamp (pointer_to block) → t.top.instance ≡ None → IsAtRoom e s t block }
{}

/// A deallocator is handed what coro.free gave, in an activation whose frame was given. Its own instance is one whose
/// frame was given, since the framed run isn't undefined.
pub fn free_places_are_known()
    ensures { (e : Elision) (s t : State) (a : Allocator) (result : Option ℕ) (must_tail : Bool) (ty : Option Ty)
        (args : List Arg) (name : ℕ) (after : State) → AreElided e s t → KeepsPlaces e → IsSoundState (elided e) t
        → s.outcome ≡ Outcome.Running → deals Dealing.Frees a ≡ true
        → fetch (function_of (framed e).given s) s.top.block s.top.at
        ≡ AtInstr (Instr.Call result must_tail ty (Callee.Allocator a) args)
        → was_given (sides s t) t.top ≡ true → operand_at args 0 ≡ Operand.Local name
        → (e.shape s.top.func).freed name ≡ true
        → deallocate s (address (value_in s.top.values name)) ≡ Ok after
        → FreesGiven e s t a result must_tail ty args }
{}

/// They are at the end of a coroutine whose instance isn't Finished. A frame that was given lies in an alloca of its
/// caller, which is on the stack.
pub fn end_places_are_known()
    ensures own { (e : Elision) (s t : State) (r : AreRelated e s t) (number : ℕ) (first : Instance)
        → IsKnownState e.code s → IsSlottedState s → (function_in e s.top.func).coroutine ≡ true
        → s.top.instance ≡ Some number → slice_get s.instances number ≡ Some first
        → is_finished first.status ≡ false → HaveOwn e s t r.beside }
    ensures ramp { (e : Elision) (s t : State) (r : AreRelated e s t) (number : ℕ) (first : Instance)
        (result : Option ℕ) (must_tail : Bool) (ty : Option Ty) (args : List Arg) → KeepsPlaces e
        → IsKnownState e.code s → IsSlottedState s
        → AreAtIntrinsic e s t Intrinsic.CoroEnd result must_tail ty args
        → s.top.instance ≡ Some number → slice_get s.instances number ≡ Some first
        → is_finished first.status ≡ false → s.top.mode ≡ Mode.Ramp
        → IsAtRampEnd e s t r.beside result must_tail ty args }
    ensures resumed { (e : Elision) (s t : State) (r : AreRelated e s t) (number : ℕ) (first : Instance)
        (result : Option ℕ) (must_tail : Bool) (ty : Option Ty) (args : List Arg) → KeepsPlaces e
        → IsKnownState e.code s → IsSlottedState s → IsSoundState (elided e) t
        → AreAtIntrinsic e s t Intrinsic.CoroEnd result must_tail ty args
        → s.top.instance ≡ Some number → slice_get s.instances number ≡ Some first
        → is_finished first.status ≡ false → s.top.mode ≡ Mode.Resumed → Each (IsOwnSlot e s) s.top.slots
        → IsAtResumedEnd e s t r.beside result must_tail ty args }
{}

/// In each state of a framed run instances are of coroutines, and an activation has as many values as its function has
/// names. Only activations of coroutines are ramps or resumed, and the lowest is the entry's.
pub fn framed_states_are_known()
    ensures start { (m : Module) (entry : ℕ) (args : List Word) → IsKnownState m (first_state m entry args) }
    ensures step { (g : FramedGiven) (s : State) → BeginsInCoroutines g.given.code → IsKnownState g.given.code s
        → IsKnownState g.given.code (framed_step g s) }
    ensures runs { (g : FramedGiven) (entry : ℕ) (args : List Word) (n : ℕ) → BeginsInCoroutines g.given.code
        → IsKnownState g.given.code (framed_state_at g entry args n) }
    ensures begins { (e : Elision) → KeepsPlaces e → BeginsInCoroutines e.code }
{}

/// Where both runs start no frame was given.
pub fn runs_start_ungiven()
    ensures passed { (e : Elision) (entry : ℕ) (args : List Word)
        → HavePassedBy e (first_state (elided_code e) entry args) }
    ensures shapes { (e : Elision) (entry : ℕ) (args : List Word)
        → HaveShapes e (first_state (elided_code e) entry args) }
{}

/// The worked module keeps what places ask of it.
#[tactic(none)]
pub fn the_worked_module_keeps_places()
    ensures { KeepsPlaces the_elision }
{}
