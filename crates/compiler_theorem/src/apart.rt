//! In frames live slots lie apart from what crosses.

ghost use Rattle.std.specs.List.{Contains};
ghost use Rattle.std.specs.Prelude.{◌≡◌, ◌≢◌, ℕ, suc, Bool, List, None, Option, Some, false, map, slice_get, true};
ghost use Rattle.compiler_theorem.specs.known.Counts.{counts};
ghost use Rattle.compiler_theorem.specs.known.Frames.{AreSlotsApart};
ghost use Rattle.compiler_theorem.specs.theorem.Started.{HasSlotsOnce};
ghost use Rattle.compiler_theorem.specs.theorem.Anew.{Anew, IsAnewOf, IsSlotOf};
ghost use Rattle.compiler_theorem.specs.theorem.Asked.{asking};
ghost use Rattle.compiler_theorem.specs.theorem.Between.{setting};
ghost use Rattle.compiler_theorem.specs.theorem.Entries.{IsEntryCall, Run};
ghost use Rattle.compiler_theorem.specs.theorem.Lowered.{HasFewBytes, IsLowered, Lowered, early, edged};
ghost use Rattle.compiler.specs.frame_classes.declared.class.SlotClass.{SlotClass};
ghost use Rattle.compiler.specs.frame_conflicts.Conflicts.{Conflict};
ghost use Rattle.compiler.specs.frame_contents.Held.{position_of};
ghost use Rattle.compiler.specs.frame_contents.declared.held.Holding.{Holding};
ghost use Rattle.compiler.specs.ir_laws.paths.woven_rules.Pairs.{AreDifferent};
ghost use Rattle.compiler.specs.ir_model.Layout.{size_of};
ghost use Rattle.compiler.specs.ir_model.Names.{function_at};
ghost use Rattle.compiler.specs.ir_model.Ty.{Ty};
ghost use Rattle.compiler.specs.ir_model.declared.instr.Instr.{Instr};
ghost use Rattle.compiler.specs.ir_model.declared.operand.Arg.{Arg};
ghost use Rattle.compiler.specs.pass_copies.declared.slot.EarlySlot.{EarlySlot};
ghost use Rattle.compiler.specs.pass_frames.Tables.{is_slot_kind, offset_at};
ghost use Rattle.pass_frames_meaning.specs.Sized.{IsSizedState};
ghost use Rattle.pass_frames_meaning.specs.Unbegun.{IsBefore};
ghost use Rattle.pass_frames_meaning.specs.Spared.{AreFieldsApart};
ghost use Rattle.compiler.specs.run_memory.Memory.{is_live};
ghost use Rattle.pass_frames_meaning.specs.pass_frames_proof.Beginning.{is_in_frame};
ghost use Rattle.pass_frames_meaning.specs.pass_frames_proof.Marking.{marking};
ghost use Rattle.pass_frames_meaning.specs.pass_frames_proof.Places.{copies, edged as edged_of};
ghost use Rattle.pass_frames_meaning.specs.pass_frames_proof.Related.{AreBuiltOf};
ghost use Rattle.pass_frames_meaning.specs.pass_frames_proof.Slotted.{AreRangesApart, HasFrameThere};
ghost use Rattle.pass_frames_meaning.specs.pass_renewed_meaning.Offsets.{first_at};
ghost use Rattle.compiler.specs.ir_base.declared.outcome.Outcome.{Outcome};
ghost use Rattle.compiler.specs.ir_model.declared.operand.Callee.{Callee};
ghost use Rattle.compiler.specs.ir_model.declared.operand.Intrinsic.{Intrinsic};
ghost use Rattle.pass_frames_meaning.specs.pass_renewed_meaning.Rules.{KeepsAll, Setting};
ghost use Rattle.pass_frames_meaning.specs.pass_renewed_meaning.Runs.{first_step, second_given};
ghost use Rattle.pass_frames_meaning.specs.pass_renewed_proof.Renewed.{renewed_step};
ghost use Rattle.compiler.specs.run_agreement.Machines.{IsFine};
ghost use Rattle.pass_frames_meaning.specs.pass_renewed_proof.Beside.{IsBeside};
ghost use Rattle.pass_frames_meaning.specs.run_hooks.alive.Alive.{IsAliveState};
ghost use Rattle.compiler.specs.run_memory.declared.block.MemoryBlock.{MemoryBlock};
ghost use Rattle.compiler.specs.run_source.declared.state.Instance.{Instance};
ghost use Rattle.compiler.specs.run_source.declared.state.State.{State as TheState};
ghost use Rattle.compiler.specs.run_states.sound_states.Sound.{IsSound};
ghost use Rattle.compiler.specs.run_step.Step.{AtInstr, fetch, has_markers};
ghost use Rattle.compiler.specs.run_step.declared.world.Slot.{Slot};

/// In each state of the run in which resumes hand values on, slots that live and aren't made anew may be alive.
pub fn slots_of_sources_may_be_alive()
    ensures { (l : Lowered) → IsLowered l → HasFewBytes l → (a : Anew) → IsAnewOf (early l) a → (r : Run)
        → IsEntryCall l.source r → (n : ℕ) → IsAliveState (edged l) (counts l a r) (first_at (setting l a r) n) }
{}

/// So no live slot lies in the field of a value that crosses the suspend at which an instance is, in a state beside one of
/// that run. Blocks of slots have the size of their alloca there, and frames that aren't freed are there.
pub fn fields_of_sources_lie_apart()
    ensures { (l : Lowered) (low : IsLowered l) → HasFewBytes l → (a : Anew) → IsAnewOf (early l) a → (r : Run)
        → IsEntryCall l.source r → (n : ℕ) (s t : TheState) → AreBuiltOf (asking l low a r).b s t
        → IsBeside (edged l) a.flags a.roots (first_at (setting l a r) n) s → IsSizedState (edged l) s
        → ((i : ℕ) (x : Instance) → slice_get s.instances i ≡ Some x → x.freed ≡ false
        → HasFrameThere (asking l low a r).b s x)
        → AreFieldsApart (asking l low a r).b s }
{}

/// Two slots of the frame that conflict have fields that lie apart, of the sizes of their allocas.
pub fn slots_that_conflict_lie_apart()
    ensures { (l : Lowered) (low : IsLowered l) (a : Anew) (r : Run) (func : ℕ)
        → (function_at (early l) func).coroutine ≡ true → (one other : ℕ) → one ≢ other
        → IsSlotOf (function_at (early l) func) SlotClass.Frame one
        → IsSlotOf (function_at (early l) func) SlotClass.Frame other
        → Conflict (function_at (early l) func) one other → (at align : ℕ) (ty : Ty)
        → fetch (function_at (edged l) func) 0 at ≡ AtInstr (Instr.Alloca one ty align)
        → (place alignment : ℕ) (u : Ty)
        → fetch (function_at (edged l) func) 0 place ≡ AtInstr (Instr.Alloca other u alignment) → (p q : ℕ)
        → position_of ((asking l low a r).b.framing func).contents.held one ≡ Some p
        → position_of ((asking l low a r).b.framing func).contents.held other ≡ Some q
        → AreRangesApart (offset_at ((asking l low a r).b.framing func).layout p) (size_of (edged l) ty)
        (offset_at ((asking l low a r).b.framing func).layout q) (size_of (edged l) u) }
{}

/// A slot without markers conflicts with each other one. So where its alloca stands its field lies apart from those of
/// the instance's slots, of which none is of that alloca yet.
pub fn slots_without_markers_lie_apart()
    ensures { (l : Lowered) (low : IsLowered l) → HasFewBytes l → (a : Anew) → IsAnewOf (early l) a → (r : Run)
        → IsEntryCall l.source r → (n : ℕ) (s : TheState)
        → IsBeside (edged l) a.flags a.roots (first_at (setting l a r) n) s → IsSizedState (edged l) s
        → IsSound (edged l) s → (function_at (early l) s.top.func).coroutine ≡ true → (name align : ℕ) (ty : Ty)
        → fetch (function_at (edged l) s.top.func) s.top.block s.top.at ≡ AtInstr (Instr.Alloca name ty align)
        → (i : ℕ) (x : Instance) → s.top.instance ≡ Some i → slice_get s.instances i ≡ Some x
        → ((other : Slot) → Contains x.slots other → other.alloca ≢ name)
        → has_markers (edged_of ((asking l low a r).b.framing s.top.func)) name ≡ false → (position : ℕ)
        → position_of ((asking l low a r).b.framing x.coroutine).contents.held name ≡ Some position → (other : Slot)
        → Contains x.slots other → (z : MemoryBlock) → slice_get s.world.memory other.block ≡ Some z → (p : ℕ)
        → position_of ((asking l low a r).b.framing x.coroutine).contents.held other.alloca ≡ Some p
        → AreRangesApart (offset_at ((asking l low a r).b.framing x.coroutine).layout p) z.size
        (offset_at ((asking l low a r).b.framing x.coroutine).layout position) (size_of (edged l) ty) }
{}

/// Where a marker starts a slot of an instance, a slot of it that lives may be alive right behind the marker, as may the
/// one that starts. So they conflict, and their fields lie apart.
pub fn slots_that_start_lie_apart()
    ensures { (l : Lowered) (low : IsLowered l) → HasFewBytes l → (a : Anew) → IsAnewOf (early l) a → (r : Run)
        → IsEntryCall l.source r → (n : ℕ) (s : TheState)
        → IsBeside (edged l) a.flags a.roots (first_at (setting l a r) n) s → IsSizedState (edged l) s
        → IsSound (edged l) s → (function_at (early l) s.top.func).coroutine ≡ true → (must_tail : Bool)
        → (ty : Option Ty) (size : Arg) (u : Ty) (name : ℕ)
        → fetch (function_at (edged l) s.top.func) s.top.block s.top.at
        ≡ AtInstr (marking true must_tail ty size u name)
        → (i : ℕ) (x : Instance) → s.top.instance ≡ Some i → slice_get s.instances i ≡ Some x → HasSlotsOnce x
        → (slot : Slot) → Contains x.slots slot → slot.alloca ≡ name → AreSlotsApart (asking l low a r).b s x slot }
{}

/// Where begin stands two slots of the activation that live may be alive there, and no path leads there from the end. So
/// they conflict, and those that will lie in the frame have fields that lie apart, if an alloca has one slot.
pub fn slots_lie_apart_where_begin_stands()
    ensures { (l : Lowered) (low : IsLowered l) → HasFewBytes l → (a : Anew) → IsAnewOf (early l) a → (r : Run)
        → IsEntryCall l.source r → (n : ℕ) (s : TheState)
        → IsBeside (edged l) a.flags a.roots (first_at (setting l a r) n) s → IsSizedState (edged l) s
        → (function_at (early l) s.top.func).coroutine ≡ true → s.top.instance ≡ None → (result : Option ℕ)
        → (must_tail : Bool) (ty : Option Ty) (args : List Arg)
        → fetch (function_at (edged l) s.top.func) s.top.block s.top.at
        ≡ AtInstr (Instr.Call result must_tail ty (Callee.Intrinsic Intrinsic.CoroBegin) args)
        → ((one other : Slot) → Contains s.top.slots one → Contains s.top.slots other → one.alloca ≡ other.alloca
        → one.block ≡ other.block)
        → (one other : Slot) → Contains s.top.slots one → Contains s.top.slots other
        → is_in_frame ((asking l low a r).b.framing s.top.func) one ≡ true
        → is_in_frame ((asking l low a r).b.framing s.top.func) other ≡ true → one.block ≢ other.block
        → (x y : MemoryBlock) → slice_get s.world.memory one.block ≡ Some x
        → slice_get s.world.memory other.block ≡ Some y → is_live x.life ≡ true → is_live y.life ≡ true → (p q : ℕ)
        → position_of ((asking l low a r).b.framing s.top.func).contents.held one.alloca ≡ Some p
        → position_of ((asking l low a r).b.framing s.top.func).contents.held other.alloca ≡ Some q
        → AreRangesApart (offset_at ((asking l low a r).b.framing s.top.func).layout p) x.size
        (offset_at ((asking l low a r).b.framing s.top.func).layout q) y.size }
{}

/// A slot that is copied at begin is used before it, where a path leads to begin. So its field lies apart from those of
/// all other slots of the frame, dead or alive.
pub fn slots_copied_at_begin_lie_apart()
    ensures { (l : Lowered) (low : IsLowered l) → HasFewBytes l → (a : Anew) → IsAnewOf (early l) a → (r : Run)
        → IsEntryCall l.source r → (func block at : ℕ) → (function_at (early l) func).coroutine ≡ true
        → (result : Option ℕ) (must_tail : Bool) (ty : Option Ty) (args : List Arg)
        → fetch (function_at (edged l) func) block at
        ≡ AtInstr (Instr.Call result must_tail ty (Callee.Intrinsic Intrinsic.CoroBegin) args)
        → IsBefore (function_at (edged l) func) block at → (e : EarlySlot)
        → Contains (copies ((asking l low a r).b.framing func)).slots e → (other : ℕ) → e.slot ≢ other
        → IsSlotOf (function_at (early l) func) SlotClass.Frame e.slot
        → IsSlotOf (function_at (early l) func) SlotClass.Frame other → (own align : ℕ) (t : Ty)
        → fetch (function_at (edged l) func) 0 own ≡ AtInstr (Instr.Alloca e.slot t align)
        → (place alignment : ℕ) (u : Ty)
        → fetch (function_at (edged l) func) 0 place ≡ AtInstr (Instr.Alloca other u alignment) → (p q : ℕ)
        → position_of ((asking l low a r).b.framing func).contents.held e.slot ≡ Some p
        → position_of ((asking l low a r).b.framing func).contents.held other ≡ Some q
        → AreRangesApart (offset_at ((asking l low a r).b.framing func).layout p) (size_of (edged l) t)
        (offset_at ((asking l low a r).b.framing func).layout q) (size_of (edged l) u) }
{}

/// The same of what the frame holds: the field of a slot that is copied at begin shares no byte with the field of
/// another slot or with that of the promise (clause all). So the copies don't write over each other (clause copied). An
/// alloca makes one such slot (clause once).
pub fn fields_copied_at_begin_lie_apart()
    ensures all { (l : Lowered) (low : IsLowered l) → HasFewBytes l → (a : Anew) → IsAnewOf (early l) a → (r : Run)
        → IsEntryCall l.source r → (func block at : ℕ) → (function_at (early l) func).coroutine ≡ true
        → (result : Option ℕ) (must_tail : Bool) (ty : Option Ty) (args : List Arg)
        → fetch (function_at (edged l) func) block at
        ≡ AtInstr (Instr.Call result must_tail ty (Callee.Intrinsic Intrinsic.CoroBegin) args)
        → IsBefore (function_at (edged l) func) block at → (e : EarlySlot)
        → Contains (copies ((asking l low a r).b.framing func)).slots e → (p q : ℕ) (h : Holding)
        → position_of ((asking l low a r).b.framing func).contents.held e.slot ≡ Some p
        → slice_get ((asking l low a r).b.framing func).contents.held q ≡ Some h → is_slot_kind h.kind ≡ true → p ≢ q
        → AreRangesApart (offset_at ((asking l low a r).b.framing func).layout p) e.size
        (offset_at ((asking l low a r).b.framing func).layout q) h.size }
    ensures copied { (l : Lowered) (low : IsLowered l) → HasFewBytes l → (a : Anew) → IsAnewOf (early l) a → (r : Run)
        → IsEntryCall l.source r → (func block at : ℕ) → (function_at (early l) func).coroutine ≡ true
        → (result : Option ℕ) (must_tail : Bool) (ty : Option Ty) (args : List Arg)
        → fetch (function_at (edged l) func) block at
        ≡ AtInstr (Instr.Call result must_tail ty (Callee.Intrinsic Intrinsic.CoroBegin) args)
        → IsBefore (function_at (edged l) func) block at → (e d : EarlySlot)
        → Contains (copies ((asking l low a r).b.framing func)).slots e
        → Contains (copies ((asking l low a r).b.framing func)).slots d → e.slot ≢ d.slot → (p q : ℕ)
        → position_of ((asking l low a r).b.framing func).contents.held e.slot ≡ Some p
        → position_of ((asking l low a r).b.framing func).contents.held d.slot ≡ Some q
        → AreRangesApart (offset_at ((asking l low a r).b.framing func).layout p) e.size
        (offset_at ((asking l low a r).b.framing func).layout q) d.size }
    ensures once { (l : Lowered) (low : IsLowered l) → HasFewBytes l → (a : Anew) → IsAnewOf (early l) a → (r : Run)
        → IsEntryCall l.source r → (func : ℕ) → (function_at (early l) func).coroutine ≡ true
        → AreDifferent (map (λ (e : EarlySlot). e.slot) (copies ((asking l low a r).b.framing func)).slots) }
{}

/// Behind a save the state stands beside the next one of the run before.
pub fn states_behind_saves_stand_beside()
    ensures { (c : Setting) → KeepsAll c → (n : ℕ) (t : TheState) → IsBeside c.code c.flags c.roots (first_at c n) t
        → (first_at c n).outcome ≡ Outcome.Running → IsFine (first_step c (first_at c n)).outcome
        → (result : Option ℕ) (must_tail : Bool) (ty : Option Ty) (args : List Arg)
        → fetch (function_at c.code (first_at c n).top.func) (first_at c n).top.block (first_at c n).top.at
        ≡ AtInstr (Instr.Call result must_tail ty (Callee.Intrinsic Intrinsic.CoroSave) args)
        → IsBeside c.code c.flags c.roots (first_at c (suc n)) (renewed_step (second_given c) t) }
{}
