//! What is known of each state of the run of an accepted source that makes slots anew.

ghost use Rattle.std.specs.List.{Contains};
ghost use Rattle.std.specs.Prelude.{◌≡◌, ◌≢◌, ℕ, Bool, true, false, List, None, Option, Some, slice_get};
ghost use Rattle.compiler_theorem.specs.known.Counts.{counts, own};
ghost use Rattle.compiler_theorem.specs.known.Frames.{AreMarkersLeft, AreSlotsApart};
ghost use Rattle.compiler_theorem.specs.known.Temporaries.{AreLiveTemporaries, IsLiveTemporary};
ghost use Rattle.compiler_theorem.specs.theorem.Anew.{Anew, IsAnewOf};
ghost use Rattle.compiler_theorem.specs.theorem.Asked.{asking};
ghost use Rattle.compiler_theorem.specs.theorem.Between.{renewing};
ghost use Rattle.compiler_theorem.specs.theorem.Built.{building};
ghost use Rattle.compiler_theorem.specs.theorem.Entries.{IsEntryCall, Run};
ghost use Rattle.compiler_theorem.specs.theorem.Lowered.{HasFewBytes, IsLowered, Lowered, early, edged};
ghost use Rattle.compiler_theorem.specs.theorem.Started.{HasSlotsOnce};
ghost use Rattle.compiler.specs.frame_contents.Held.{position_of};
ghost use Rattle.compiler.specs.ir_base.declared.outcome.Outcome.{Outcome};
ghost use Rattle.compiler.specs.ir_model.Names.{function_at};
ghost use Rattle.compiler.specs.ir_model.Ty.{Ty};
ghost use Rattle.compiler.specs.ir_model.declared.instr.Instr.{Instr};
ghost use Rattle.compiler.specs.ir_model.declared.operand.Arg.{Arg};
ghost use Rattle.compiler.specs.pass_copies.declared.slot.EarlySlot.{EarlySlot};
ghost use Rattle.compiler.specs.pass_frames.Tables.{offset_at};
ghost use Rattle.pass_frames_meaning.specs.Anew.{IsAnewState};
ghost use Rattle.pass_frames_meaning.specs.Coroutines.{MayFollow, MayMark};
ghost use Rattle.pass_frames_meaning.specs.Executed.{KeepAllOwn};
ghost use Rattle.pass_frames_meaning.specs.Kinds.{AreSlotsMade};
ghost use Rattle.pass_frames_meaning.specs.Known.{AreSlotsBehind, IsKnown, KeepsKnown, KeepsMarks};
ghost use Rattle.pass_frames_meaning.specs.Led.{KeepAllNames, KeepsLedTables};
ghost use Rattle.pass_frames_meaning.specs.Marks.{KeepsMarkers};
ghost use Rattle.pass_frames_meaning.specs.Pointers.{IsPointingState};
ghost use Rattle.pass_frames_meaning.specs.Sized.{IsSizedAt, IsSizedState};
ghost use Rattle.pass_frames_meaning.specs.Setting.{MayStep};
ghost use Rattle.pass_frames_meaning.specs.Spared.{AreFieldsApart};
ghost use Rattle.pass_frames_meaning.specs.pass_frames_proof.Marking.{IsTemporaryThere, marking};
ghost use Rattle.pass_frames_meaning.specs.pass_frames_proof.Places.{copies};
ghost use Rattle.pass_frames_meaning.specs.pass_frames_proof.Related.{AreBuiltOf, is_coroutine};
ghost use Rattle.pass_frames_meaning.specs.pass_frames_proof.Stepping.{IsNotEntering};
ghost use Rattle.pass_frames_meaning.specs.pass_frames_proof.Slotted.{HasFrameThere, IsSlotField, IsSlotInFrame};
ghost use Rattle.pass_frames_meaning.specs.pass_renewed_proof.Beside.{IsBeside};
ghost use Rattle.pass_frames_meaning.specs.pass_renewed_proof.Renewed.{renewed_step};
ghost use Rattle.pass_frames_meaning.specs.pass_renewed_proof.Way.{IsResumedAt};
ghost use Rattle.compiler.specs.run_framed.Framed.{framed_state_at, layout_of};
ghost use Rattle.compiler.specs.run_memory.Memory.{is_killed};
ghost use Rattle.compiler.specs.run_memory.declared.block.MemoryBlock.{MemoryBlock};
ghost use Rattle.compiler.specs.run_memory.declared.pointer.Value.{Value};
ghost use Rattle.compiler.specs.run_source.Source.{first_state};
ghost use Rattle.compiler.specs.run_source.State.{function_of};
ghost use Rattle.compiler.specs.run_source.declared.state.Instance.{Instance};
ghost use Rattle.compiler.specs.run_source.declared.state.State.{State};
ghost use Rattle.compiler.specs.run_step.Runs.{iterate};
ghost use Rattle.compiler.specs.run_step.Step.{AtInstr, fetch};
ghost use Rattle.compiler.specs.run_step.Values.{value_in};
ghost use Rattle.compiler.specs.run_step.declared.world.Slot.{Slot};

/// Names of allocas and begin's name are given once (rules N1, F3 and K2), and the tables of what is made anew keep
/// them.
pub fn names_of_sources_are_led()
    ensures names { (l : Lowered) → IsLowered l → HasFewBytes l → (a : Anew) → IsAnewOf (early l) a → (r : Run)
        → IsEntryCall l.source r → KeepAllNames (renewing l a r).given (counts l a r) }
    ensures tables { (l : Lowered) → IsLowered l → HasFewBytes l → (a : Anew) → IsAnewOf (early l) a → (r : Run)
        → IsEntryCall l.source r → KeepsLedTables (renewing l a r) (counts l a r) }
    ensures own { (l : Lowered) → IsLowered l → HasFewBytes l → (a : Anew) → IsAnewOf (early l) a → (r : Run)
        → IsEntryCall l.source r → KeepAllOwn (renewing l a r).given (own l a r) }
{}

/// In each state of the run what is made anew has an address, if its alloca isn't still to come. Where an alloca
/// stands, and the state stands beside one of the run before, its name has no value yet.
pub fn slots_of_sources_are_made()
    ensures anew { (l : Lowered) → IsLowered l → HasFewBytes l → (a : Anew) → IsAnewOf (early l) a → (r : Run)
        → IsEntryCall l.source r → (n : ℕ)
        → IsAnewState (edged l) a.flags
        (iterate (renewed_step (renewing l a r)) n (first_state (edged l) r.entry r.args)) }
    ensures made { (l : Lowered) (low : IsLowered l) → HasFewBytes l → (a : Anew) → IsAnewOf (early l) a → (r : Run)
        → IsEntryCall l.source r → (n : ℕ)
        → (iterate (renewed_step (renewing l a r)) n (first_state (edged l) r.entry r.args)).outcome ≡ Outcome.Running
        → AreSlotsMade (asking l low a r)
        (iterate (renewed_step (renewing l a r)) n (first_state (edged l) r.entry r.args)) }
    ensures poison { (l : Lowered) → IsLowered l → HasFewBytes l → (a : Anew) → IsAnewOf (early l) a → (r : Run)
        → IsEntryCall l.source r → (n : ℕ)
        → (iterate (renewed_step (renewing l a r)) n (first_state (edged l) r.entry r.args)).outcome ≡ Outcome.Running
        → (v : State) → IsBeside (edged l) a.flags a.roots v
        (iterate (renewed_step (renewing l a r)) n (first_state (edged l) r.entry r.args))
        → (name : ℕ) (ty : Ty) (align : ℕ)
        → fetch (function_of (renewing l a r).given
        (iterate (renewed_step (renewing l a r)) n (first_state (edged l) r.entry r.args)))
        (iterate (renewed_step (renewing l a r)) n (first_state (edged l) r.entry r.args)).top.block
        (iterate (renewed_step (renewing l a r)) n (first_state (edged l) r.entry r.args)).top.at
        ≡ AtInstr (Instr.Alloca name ty align)
        → value_in
        (iterate (renewed_step (renewing l a r)) n (first_state (edged l) r.entry r.args)).top.values name
        ≡ Value.Poison }
{}

/// An alloca makes one slot of an instance (rules N1, F1 and F3), in each state of the run. Where an alloca stands no
/// slot of the instance is of it yet. Before begin it makes one slot of the activation.
pub fn slots_of_sources_are_made_once()
    ensures makes { (l : Lowered) (low : IsLowered l) → HasFewBytes l → (a : Anew) → IsAnewOf (early l) a → (r : Run)
        → IsEntryCall l.source r → (n : ℕ)
        → IsNotEntering (iterate (renewed_step (renewing l a r)) n (first_state (edged l) r.entry r.args)).top.mode
        → (name : ℕ) (ty : Ty) (align : ℕ)
        → fetch (function_of (renewing l a r).given
        (iterate (renewed_step (renewing l a r)) n (first_state (edged l) r.entry r.args)))
        (iterate (renewed_step (renewing l a r)) n (first_state (edged l) r.entry r.args)).top.block
        (iterate (renewed_step (renewing l a r)) n (first_state (edged l) r.entry r.args)).top.at
        ≡ AtInstr (Instr.Alloca name ty align) → (i : ℕ) (x : Instance)
        → (iterate (renewed_step (renewing l a r)) n (first_state (edged l) r.entry r.args)).top.instance ≡ Some i
        → slice_get (iterate (renewed_step (renewing l a r)) n (first_state (edged l) r.entry r.args)).instances i
        ≡ Some x → (other : Slot) → Contains x.slots other → other.alloca ≢ name }
    ensures starts { (l : Lowered) (low : IsLowered l) → HasFewBytes l → (a : Anew) → IsAnewOf (early l) a → (r : Run)
        → IsEntryCall l.source r → (n number : ℕ) (x : Instance)
        → slice_get
        (iterate (renewed_step (renewing l a r)) n (first_state (edged l) r.entry r.args)).instances number
        ≡ Some x → HasSlotsOnce x }
    ensures own { (l : Lowered) → IsLowered l → HasFewBytes l → (a : Anew) → IsAnewOf (early l) a → (r : Run)
        → IsEntryCall l.source r → (n : ℕ)
        → (iterate (renewed_step (renewing l a r)) n (first_state (edged l) r.entry r.args)).top.instance ≡ None
        → (one other : Slot)
        → Contains (iterate (renewed_step (renewing l a r)) n (first_state (edged l) r.entry r.args)).top.slots one
        → Contains (iterate (renewed_step (renewing l a r)) n (first_state (edged l) r.entry r.args)).top.slots other
        → one.alloca ≡ other.alloca → one.block ≡ other.block }
{}

/// Slots in a frame are used behind begin, but for accesses that go by the addresses in their cells (rule K9).
pub fn slots_of_sources_are_used_behind_begin()
    ensures { (l : Lowered) (low : IsLowered l) → HasFewBytes l → (a : Anew) → IsAnewOf (early l) a → (r : Run)
        → IsEntryCall l.source r → AreSlotsBehind (asking l low a r) }
{}

/// What is asked so that operands of coroutines and slots of markers are known holds of accepted sources, by the
/// rules N1,
/// F2, F3, K1, K2, K9 and K13.
pub fn sources_are_known()
    ensures known { (l : Lowered) (low : IsLowered l) → HasFewBytes l → (a : Anew) → IsAnewOf (early l) a → (r : Run)
        → IsEntryCall l.source r → KeepsKnown (asking l low a r) (counts l a r) }
    ensures marks { (l : Lowered) (low : IsLowered l) → HasFewBytes l → (a : Anew) → IsAnewOf (early l) a → (r : Run)
        → IsEntryCall l.source r → KeepsMarks (asking l low a r) (own l a r) }
{}

/// Operands of coroutines are known in each state of the run that makes slots anew, and what is kept may be stored.
pub fn coroutines_of_sources_are_known()
    ensures { (l : Lowered) (low : IsLowered l) → HasFewBytes l → (a : Anew) → IsAnewOf (early l) a → (r : Run)
        → IsEntryCall l.source r → (n : ℕ)
        → (iterate (renewed_step (renewing l a r)) n (first_state (edged l) r.entry r.args)).outcome ≡ Outcome.Running
        → is_coroutine (asking l low a r).b
        (iterate (renewed_step (renewing l a r)) n (first_state (edged l) r.entry r.args)).top.func ≡ true
        → MayFollow (asking l low a r)
        (iterate (renewed_step (renewing l a r)) n (first_state (edged l) r.entry r.args)) }
{}

/// What each step asks of such a state is known of it, where its live slots lie in no field that is kept: slots of
/// markers, and what a coroutine below is given.
pub fn steps_of_sources_are_known()
    ensures { (l : Lowered) (low : IsLowered l) → HasFewBytes l → (a : Anew) → IsAnewOf (early l) a → (r : Run)
        → IsEntryCall l.source r → (n : ℕ) (t : State)
        → AreBuiltOf (asking l low a r).b
        (iterate (renewed_step (renewing l a r)) n (first_state (edged l) r.entry r.args)) t
        → (iterate (renewed_step (renewing l a r)) n (first_state (edged l) r.entry r.args)).outcome ≡ Outcome.Running
        → (IsNotEntering (iterate (renewed_step (renewing l a r)) n (first_state (edged l) r.entry r.args)).top.mode
        → AreFieldsApart (asking l low a r).b
        (iterate (renewed_step (renewing l a r)) n (first_state (edged l) r.entry r.args)))
        → MayStep (asking l low a r)
        (iterate (renewed_step (renewing l a r)) n (first_state (edged l) r.entry r.args)) }
{}

/// What is known of each such state: names lead to slots, activations without an instance stand before begin, pointers'
/// types have pointers, and slots have the sizes of their allocas.
pub fn states_of_sources_are_known()
    ensures known { (l : Lowered) (low : IsLowered l) → HasFewBytes l → (a : Anew) → IsAnewOf (early l) a → (r : Run)
        → IsEntryCall l.source r → (n : ℕ) → IsKnown (asking l low a r) (counts l a r) (own l a r)
        (iterate (renewed_step (renewing l a r)) n (first_state (edged l) r.entry r.args)) }
    ensures pointing { (l : Lowered) → IsLowered l → HasFewBytes l → (a : Anew) → IsAnewOf (early l) a → (r : Run)
        → IsEntryCall l.source r → (n : ℕ) → IsPointingState (edged l)
        (iterate (renewed_step (renewing l a r)) n (first_state (edged l) r.entry r.args)) }
    ensures sized { (l : Lowered) → IsLowered l → HasFewBytes l → (a : Anew) → IsAnewOf (early l) a → (r : Run)
        → IsEntryCall l.source r → (n : ℕ) → IsSizedState (edged l)
        (iterate (renewed_step (renewing l a r)) n (first_state (edged l) r.entry r.args)) }
{}

/// By the class of its slot the framed form keeps a marker of a coroutine, or not, and its alloca stands before it.
pub fn markers_of_sources_are_right()
    ensures { (l : Lowered) (low : IsLowered l) → HasFewBytes l → (a : Anew) → IsAnewOf (early l) a → (r : Run)
        → IsEntryCall l.source r → KeepsMarkers (asking l low a r) (counts l a r) (own l a r) }
{}

/// In the layout of an accepted source's coroutine the field of a slot is as large and as aligned as the block of the
/// slot.
pub fn fields_of_slots_of_sources_are_right()
    ensures { (l : Lowered) (low : IsLowered l) → HasFewBytes l → (a : Anew) → IsAnewOf (early l) a → (r : Run)
        → IsEntryCall l.source r → (func : ℕ) → (function_at (early l) func).coroutine ≡ true
        → (sizes : List (ℕ × ℕ)) (slot : Slot) → IsSizedAt (edged l) sizes (function_at (edged l) func) slot
        → (position : ℕ)
        → position_of ((asking l low a r).b.framing func).contents.held slot.alloca ≡ Some position
        → (size align : ℕ) → slice_get sizes slot.block ≡ Some (size, align)
        → IsSlotField (layout_of (asking l low a r).b.given.layouts func)
        (offset_at ((asking l low a r).b.framing func).layout position) size align }
{}

/// So a slot of a coroutine's instance is known in each state of the run where a marker starts or ends it, if the frame
/// of the instance is there, and the field lies apart from those of slots that live where it starts.
pub fn slots_in_frames_of_sources_are_known()
    ensures { (l : Lowered) (low : IsLowered l) → HasFewBytes l → (a : Anew) → IsAnewOf (early l) a → (r : Run)
        → IsEntryCall l.source r → (n number : ℕ) (x : Instance)
        → slice_get
        (iterate (renewed_step (renewing l a r)) n (first_state (edged l) r.entry r.args)).instances number
        ≡ Some x
        → (function_at (early l) x.coroutine).coroutine ≡ true → (slot : Slot) → Contains x.slots slot
        → (starts : Bool)
        → ((y : MemoryBlock) → slice_get
        (iterate (renewed_step (renewing l a r)) n (first_state (edged l) r.entry r.args)).world.memory
        slot.block ≡ Some y
        → is_killed y.life ≡ false → HasFrameThere (asking l low a r).b
        (iterate (renewed_step (renewing l a r)) n (first_state (edged l) r.entry r.args)) x)
        → (starts ≡ true → AreSlotsApart (asking l low a r).b
        (iterate (renewed_step (renewing l a r)) n (first_state (edged l) r.entry r.args)) x slot)
        → IsSlotInFrame (asking l low a r).b
        (iterate (renewed_step (renewing l a r)) n (first_state (edged l) r.entry r.args)) number x slot
        starts }
{}

/// So the slot of a marker of a coroutine is known in each state of the run, but for what is left to know: that frames
/// are there, that fields of slots that live lie apart, temporaries, and that no resumed activation meets a ramp slot's
/// marker.
pub fn slots_of_markers_of_sources_are_known()
    ensures { (l : Lowered) (low : IsLowered l) → HasFewBytes l → (a : Anew) → IsAnewOf (early l) a → (r : Run)
        → IsEntryCall l.source r → (n : ℕ) (t : State)
        → (built : AreBuiltOf (asking l low a r).b
        (iterate (renewed_step (renewing l a r)) n (first_state (edged l) r.entry r.args)) t)
        → (iterate (renewed_step (renewing l a r)) n (first_state (edged l) r.entry r.args)).outcome ≡ Outcome.Running
        → is_coroutine (asking l low a r).b
        (iterate (renewed_step (renewing l a r)) n (first_state (edged l) r.entry r.args)).top.func ≡ true
        → (starts : Bool)
        → ((must_tail : Bool) (ty : Option Ty) (size : Arg) (u : Ty) (name : ℕ)
        → fetch (function_of (renewing l a r).given
        (iterate (renewed_step (renewing l a r)) n (first_state (edged l) r.entry r.args)))
        (iterate (renewed_step (renewing l a r)) n (first_state (edged l) r.entry r.args)).top.block
        (iterate (renewed_step (renewing l a r)) n (first_state (edged l) r.entry r.args)).top.at
        ≡ AtInstr (marking starts must_tail ty size u name)
        → AreMarkersLeft l low a r
        (iterate (renewed_step (renewing l a r)) n (first_state (edged l) r.entry r.args)) t built name starts)
        → MayMark (asking l low a r)
        (iterate (renewed_step (renewing l a r)) n (first_state (edged l) r.entry r.args)) t built starts }
{}

/// Where a resumed activation of a coroutine stands no marker of a ramp slot stands.
pub fn resumed_activations_meet_no_ramp_slots()
    ensures { (l : Lowered) → IsLowered l → HasFewBytes l → (a : Anew) → IsAnewOf (early l) a → (r : Run)
        → IsEntryCall l.source r → (func : ℕ) → (function_at (early l) func).coroutine ≡ true → (block at : ℕ)
        → (starts must_tail : Bool) (ty : Option Ty) (size : Arg) (u : Ty) (name : ℕ)
        → fetch (function_at (edged l) func) block at ≡ AtInstr (marking starts must_tail ty size u name)
        → a.flags func name ≡ false → own l a r func name ≡ true
        → IsResumedAt (function_at (edged l) func) (record { block = block; at = at }) → ⊥ }
{}

/// The frame of each instance that isn't freed is there, live and of its size, in each state of the run.
pub fn frames_of_sources_are_there()
    ensures { (l : Lowered) (low : IsLowered l) → HasFewBytes l → (a : Anew) → IsAnewOf (early l) a → (r : Run)
        → IsEntryCall l.source r → (n i : ℕ) (x : Instance)
        → slice_get (iterate (renewed_step (renewing l a r)) n (first_state (edged l) r.entry r.args)).instances i
        ≡ Some x → x.freed ≡ false → HasFrameThere (asking l low a r).b
        (iterate (renewed_step (renewing l a r)) n (first_state (edged l) r.entry r.args)) x }
{}

/// Before begin a slot that is used there stands in its temporary. If the temporary's block is a live slot of its size,
/// no frame begins there, and nothing else that lives stands there.
pub fn temporaries_of_sources_are_there()
    ensures there { (l : Lowered) (low : IsLowered l) → HasFewBytes l → (a : Anew) → IsAnewOf (early l) a → (r : Run)
        → IsEntryCall l.source r → (n m : ℕ)
        → (built : AreBuiltOf (asking l low a r).b
        (iterate (renewed_step (renewing l a r)) n (first_state (edged l) r.entry r.args))
        (framed_state_at (building l low.is_framed r.answers).given r.entry r.args m))
        → is_coroutine (asking l low a r).b
        (iterate (renewed_step (renewing l a r)) n (first_state (edged l) r.entry r.args)).top.func ≡ true
        → (iterate (renewed_step (renewing l a r)) n (first_state (edged l) r.entry r.args)).top.instance ≡ None
        → (slot : Slot)
        → Contains (iterate (renewed_step (renewing l a r)) n (first_state (edged l) r.entry r.args)).top.slots slot
        → (q : ℕ) (e : EarlySlot)
        → Contains (copies ((asking l low a r).b.framing
        (iterate (renewed_step (renewing l a r)) n (first_state (edged l) r.entry r.args)).top.func)).slots e
        → e.slot ≡ slot.alloca
        → Contains (framed_state_at (building l low.is_framed r.answers).given r.entry r.args m).top.slots
        (record { alloca = e.temporary; block = q })
        → IsLiveTemporary e
        (framed_state_at (building l low.is_framed r.answers).given r.entry r.args m).world.memory q
        → IsTemporaryThere (asking l low a r).b
        (iterate (renewed_step (renewing l a r)) n (first_state (edged l) r.entry r.args))
        (framed_state_at (building l low.is_framed r.answers).given r.entry r.args m) built
        slot.block q }
    ensures marked { (l : Lowered) (low : IsLowered l) → HasFewBytes l → (a : Anew) → IsAnewOf (early l) a → (r : Run)
        → IsEntryCall l.source r → (n m : ℕ)
        → (built : AreBuiltOf (asking l low a r).b
        (iterate (renewed_step (renewing l a r)) n (first_state (edged l) r.entry r.args))
        (framed_state_at (building l low.is_framed r.answers).given r.entry r.args m))
        → is_coroutine (asking l low a r).b
        (iterate (renewed_step (renewing l a r)) n (first_state (edged l) r.entry r.args)).top.func ≡ true
        → AreLiveTemporaries (asking l low a r).b
        (framed_state_at (building l low.is_framed r.answers).given r.entry r.args m)
        → (name : ℕ) (slot : Slot)
        → (iterate (renewed_step (renewing l a r)) n (first_state (edged l) r.entry r.args)).top.instance ≡ None
        → Contains (iterate (renewed_step (renewing l a r)) n (first_state (edged l) r.entry r.args)).top.slots slot
        → slot.alloca ≡ name → (q : ℕ) (e : EarlySlot)
        → Contains (copies ((asking l low a r).b.framing
        (iterate (renewed_step (renewing l a r)) n (first_state (edged l) r.entry r.args)).top.func)).slots e
        → e.slot ≡ name
        → Contains (framed_state_at (building l low.is_framed r.answers).given r.entry r.args m).top.slots
        (record { alloca = e.temporary; block = q })
        → IsTemporaryThere (asking l low a r).b
        (iterate (renewed_step (renewing l a r)) n (first_state (edged l) r.entry r.args))
        (framed_state_at (building l low.is_framed r.answers).given r.entry r.args m) built
        slot.block q }
{}
