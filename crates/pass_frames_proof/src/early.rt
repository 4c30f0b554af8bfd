//! Slots that are used before begin: what stands right behind it is executed.

ghost use Rattle.std.specs.Prelude.{◌≡◌, ◌≢◌, ◌+◌, ◌<◌, ◌^◌, ℕ, List, None, false, set};
ghost use Rattle.pass_frames_steps.specs.flow_solver.Paths.{IsListed};
ghost use Rattle.pass_frames_steps.specs.ir_model.declared.instr.Instr.{Instr};
ghost use Rattle.pass_frames_steps.specs.ir_model.declared.operand.Operand.{Operand};
ghost use Rattle.pass_frames_steps.specs.ir_parts.Contents.{instr_operands};
ghost use Rattle.pass_frames_steps.specs.pass_copies.Uses.{is_access};
ghost use Rattle.pass_frames_steps.specs.pass_copies.declared.slot.EarlySlot.{EarlySlot};
ghost use Rattle.pass_frames_steps.specs.pass_fetch.Fetching.{fetch_of};
ghost use Rattle.pass_frames_steps.specs.pass_frames.Tables.{offset_at};
ghost use Rattle.pass_frames_steps.specs.Code.{is_ahead, loaded, slot_table};
ghost use Rattle.pass_frames_steps.specs.Early.{AreCopied, IsCopiedSlot, IsOfField, MayComeThere, MayCopyAll};
ghost use Rattle.pass_frames_steps.specs.Framings.{IsFraming};
ghost use Rattle.pass_frames_steps.specs.FromEdges.{IsEarlyInFrame};
ghost use Rattle.pass_frames_steps.specs.Offsets.{AreHeldOnce};
ghost use Rattle.pass_frames_steps.specs.Places.{Framing, Placed, copies};
ghost use Rattle.pass_frames_steps.specs.Stepping.{IsUnlocated};
ghost use Rattle.pass_frames_steps.specs.pass_proofs.fetch.rules.Fetches.{AreUnfetched};
ghost use Rattle.pass_frames_steps.specs.run_laws.changed.Changed.{Each};
ghost use Rattle.pass_frames_steps.specs.run_laws.memory.Pointers.{Home};
ghost use Rattle.pass_frames_steps.specs.run_laws.memory.Standing.{AreByteRights};
ghost use Rattle.pass_frames_steps.specs.run_laws.transfer.Places.{AreStanding};
ghost use Rattle.pass_frames_steps.specs.run_laws.transfer.Ready.{Place, home_at};
ghost use Rattle.pass_frames_steps.specs.run_memory.Memory.{Rights};
ghost use Rattle.pass_frames_steps.specs.run_memory.declared.block.MemoryBlock.{MemoryBlock};
ghost use Rattle.pass_frames_steps.specs.run_source.declared.state.Activation.{Activation};
ghost use Rattle.pass_frames_steps.specs.run_step.Step.{Context, Work};

/// Each slot that is used before begin lies in the frame, where it has its place among what is held, and is as large as
/// its field. No address is made of its temporary or of its cell, and no cell has the name of a temporary.
pub fn early_slots_lie_in_frames()
    ensures slots { (x : Framing) → IsFraming x → AreHeldOnce x.contents.held → (start : ℕ)
        → ((n : ℕ) → start + offset_at x.layout n < 2 ^ 64) → Each (IsEarlyInFrame x start) (copies x).slots }
    ensures sizes { (x : Framing) → AreHeldOnce x.contents.held → Each (IsOfField x) (copies x).slots }
    ensures temporaries { (x : Framing) → IsFraming x
        → Each (λ (s : EarlySlot). fetch_of (slot_table x) (Operand.Local s.temporary) ≡ None) (copies x).slots }
    ensures cells { (x : Framing) (s z : EarlySlot) → IsListed s (copies x).slots → IsListed z (copies x).slots
        → s.cell ≢ z.temporary }
{}

/// Right behind begin the bytes of each slot that is used before it are copied from its temporary to its place in the
/// frame. The address of that place goes to the slot's cell.
pub fn early_slots_are_copied()
    ensures { (x : Framing) (c : Context) → AreByteRights c.rights → (a : Activation) (k block start : ℕ)
        (ss : List EarlySlot) (ps : Each (IsCopiedSlot x start) ss) (m : ℕ) (w : Work)
        → MayCopyAll x c a block start m w ss ps → AreCopied x c a k block start m w ss ps }
{}

/// Accesses before begin alone go by the cells of addresses, and of these the ones whose operand is such a slot.
pub fn other_instructions_are_unlocated()
    ensures others { (x : Framing) (n : Placed) (i : Instr) → is_access i ≡ false → IsUnlocated x n i }
    ensures behind { (x : Framing) (n : Placed) (i : Instr) → is_ahead n ≡ false → IsUnlocated x n i }
    ensures unused { (x : Framing) (n : Placed) (i : Instr)
        → AreUnfetched (copies x).fetches (instr_operands (loaded x n i)) → IsUnlocated x n i }
{}

/// A block into which no pointer is about comes to stand where its bytes were copied to. Pointers may be about there.
pub fn copied_blocks_come_there()
    ensures { (rights target : Rights) (homes : List Home) (m n : List MemoryBlock) (p : Place)
        → MayComeThere rights target homes m n p → AreStanding rights target homes m n
        → AreStanding rights target (set homes p.block (home_at p)) m n }
{}
