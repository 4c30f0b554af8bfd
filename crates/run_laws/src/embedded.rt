//! Ordinary steps over a source memory and over a target memory in which it stands.
//!
//! An ordinary step of a source that isn't undefined is made in the same way over such a target, with what stands for
//! its values (`step_is_carried`). So are the steps that make blocks, mark them or kill them
//! (`new_blocks_are_carried`, `markers_are_carried`, `deallocations_are_carried`, `slot_deaths_are_carried`). There a
//! block that is started stands alone in its home, and one that ends or is killed is the only one that lives there
//! (`blocks_stay_alone`).

ghost use Rattle.std.specs.Prelude.{ℕ, List, length, ◌≡◌, map, Some, slice_get, true, false};
ghost use Rattle.run_laws.specs.memory.Pointers.{Home, IsValue, home_of};
ghost use Rattle.run_laws.specs.memory.Standing.{AreByteRights};
ghost use Rattle.run_step.specs.Step.{Context, Fetched, Work, action_of, deallocated, set_memory, without_slots};
ghost use Rattle.run_laws.specs.embedded.Related.{AreAlike, AreWorks, GoesAlike, IsCarried, IsOperand, HasNoSlot};
ghost use Rattle.run_laws.specs.embedded.Making.{GoesAnew, MakesBlock, AreNewRights};
ghost use Rattle.run_laws.specs.changed.Changed.{Each, operands_at};
ghost use Rattle.run_laws.specs.embedded.Marks.{MarksBlock, LivesAlone, IsTwin, MayStart, IsAlone};
ghost use Rattle.run_memory.specs.Memory.{Rights, owner_rights, is_live, with_block};
ghost use Rattle.run_memory.specs.declared.pointer.Value.{Value as TheValue};
ghost use Rattle.run_laws.specs.embedded.Deaths.{IsDeallocated, MayDie, moved_slot};
ghost use Rattle.run_step.specs.declared.world.Slot.{Slot as TheSlot};
ghost use Rattle.run_memory.specs.declared.block.Kind.{Kind as TheKind};
ghost use Rattle.run_memory.specs.declared.block.MemoryBlock.{MemoryBlock as Block};
ghost use Rattle.run_laws.specs.embedded.Refilled.{OnlyRefills, AreRefilled};
ghost use Rattle.run_memory.specs.declared.block.Byte.{Byte as TheByte};

/// An ordinary step of the source that isn't undefined is made by the target in the same way, with what stands for the
/// source's values, and the source's memory stands in the target's afterwards: of every instruction but those that make,
/// mark or allocate blocks.
pub fn step_is_carried()
    ensures { (homes : List Home) (moves : ℕ → ℕ) (c d : Context) (w x : Work) (here : Fetched) → AreByteRights c.rights → AreByteRights d.rights → AreAlike c d → AreWorks c.rights d.rights homes moves w x → IsCarried homes moves c d w.values x.values here → GoesAlike c.rights d.rights homes moves (action_of c w here) (action_of d x here) }
{}

/// An alloca or a call of an allocator that isn't undefined in the source makes a block in both: the new one of the target is
/// the home of the source's, which stands alone there, pointers to it may be about, and the source's memory stands in the
/// target's afterwards.
pub fn new_blocks_are_carried()
    ensures { (homes : List Home) (moves : ℕ → ℕ) (c d : Context) (w x : Work) (here : Fetched) → AreAlike c d → AreWorks c.rights d.rights homes moves w x → length homes ≡ length w.world.memory → Each (IsOperand homes c d w.values x.values) (operands_at here) → MakesBlock c d w x here → GoesAnew c.rights d.rights homes moves w.world.memory (length x.world.memory) (action_of c w here) (action_of d x here) }
{}

/// A lifetime marker of a block marks its home too, and the source's memory stands in the target's afterwards: a block that
/// is started stands alone in its home, and one that ends is the only one that lives there.
pub fn markers_are_carried()
    ensures { (homes : List Home) (moves : ℕ → ℕ) (c d : Context) (w x : Work) (here : Fetched) → AreByteRights c.rights → AreByteRights d.rights → AreWorks c.rights d.rights homes moves w x → Each (IsOperand homes c d w.values x.values) (operands_at here) → MarksBlock homes c d w x here → GoesAlike c.rights d.rights homes moves (action_of c w here) (action_of d x here) }
{}

/// A deallocation that isn't undefined in the source, of a block that stands from the start of its home on and is the only
/// one that lives there, kills the home too, and the source's memory stands in the target's afterwards.
pub fn deallocations_are_carried()
    ensures { (rights target : Rights) (homes : List Home) (moves : ℕ → ℕ) (w x : Work) (p q : TheValue) → AreByteRights rights → AreByteRights target → AreWorks rights target homes moves w x → IsValue homes p q → MayDie homes w.world.memory x.world.memory p → IsDeallocated rights target homes moves w x (deallocated w.world.memory p) (deallocated x.world.memory q) }
{}

/// The slots of an activation die, each of which is the only block that lives in its home, and their homes do.
pub fn slot_deaths_are_carried()
    ensures { (rights target : Rights) (homes : List Home) (moves : ℕ → ℕ) (w x : Work) (slots : List TheSlot) → AreByteRights rights → AreByteRights target → AreWorks rights target homes moves w x → Each (λ (s : TheSlot). LivesAlone homes w.world.memory s.block) slots → AreWorks rights target homes moves (set_memory w (without_slots w.world.memory slots)) (set_memory x (without_slots x.world.memory (map (moved_slot homes) slots))) }
{}

/// The rights of owners serve new blocks of any kinds.
#[tactic(auto, using(crate::proofs::embedded::Owners::owners_serve))]
pub fn owner_rights_serve_new_blocks()
    ensures { (b c : ℕ) (kind other : TheKind) → AreNewRights owner_rights owner_rights b c kind other }
{}

/// The rights of owners serve slots that live again: a block that nobody owns may be started where the source's is.
pub fn owner_rights_serve_markers()
    ensures { (homes : List Home) (m n : List Block) (b : ℕ) (x : Block) → slice_get m b ≡ Some x → IsTwin n (home_of homes b) x → MayStart owner_rights owner_rights homes m n b }
{}

/// An ordinary step that makes, marks and allocates no block changes no more of the memory than what bytes hold.
pub fn other_steps_refill()
    ensures { (c : Context) (w : Work) (here : Fetched) → HasNoSlot here → OnlyRefills w.world.memory (action_of c w here) }
{}

/// A block stays alone in its home where bytes are written, and where blocks into which pointers may be about are marked or
/// die; it stays the only one that lives there where bytes are written, and where any block dies; and its home stays as it is
/// where bytes are written.
pub fn blocks_stay_alone()
    ensures refilled { (homes : List Home) (m k : List Block) (b : ℕ) → AreRefilled m k → IsAlone homes m b → IsAlone homes k b }
    ensures changed { (homes : List Home) (m : List Block) (b k : ℕ) (f : Block → Block) → (home_of homes k).is_seen ≡ true → IsAlone homes m b → IsAlone homes (with_block m k f) b }
    ensures lives { (homes : List Home) (m k : List Block) (b : ℕ) → AreRefilled m k → LivesAlone homes m b → LivesAlone homes k b }
    ensures deaths { (homes : List Home) (m : List Block) (b k : ℕ) (f : Block → Block) → ((y : Block) → is_live (f y).life ≡ false) → LivesAlone homes m b → LivesAlone homes (with_block m k f) b }
    ensures twins { (n k : List Block) (h : Home) (x : Block) (bytes : List TheByte) → AreRefilled n k → IsTwin n h x → IsTwin k h (record x { bytes = bytes }) }
{}
