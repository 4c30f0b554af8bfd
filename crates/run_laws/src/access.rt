//! What an ordinary step accesses and leaves as it is, rights that change, and straight lines.

ghost use Rattle.std.specs.Prelude.{List, [], length, map, ◌∷◌, ◌++◌, ◌+◌, ◌≡◌, ℕ, Bool, true, ◌<◌, slice_get, Some, Option, ◌≤◌, false, replicate};
ghost use Rattle.run_memory.specs.declared.block.MemoryBlock.{MemoryBlock as Block};
ghost use Rattle.run_step.specs.Step.{Context, Fetched, Work, action_of, without_slots, set_memory, Done, instr_action, is_alignment, set_value, value_at};
ghost use Rattle.run_step.specs.declared.world.Slot.{Slot as TheSlot};
ghost use Rattle.run_laws.specs.access.Accessed.{accessed, slot_blocks, Span as TheSpan, writes};
ghost use Rattle.run_laws.specs.access.Changed.{ChangesOnly, LeavesOthers, IsFull, LeavesBytes, IsDefined, home_block, LeavesFree, IsFree, KeepsFree, IsNoneOf};
ghost use Rattle.run_laws.specs.memory.Standing.{AreByteRights, Embeds, AreNullsKept, IsAway, IsAlignment, Stands, blank_block};
ghost use Rattle.run_laws.specs.access.Reading.{DifferBut, DoesSame};
ghost use Rattle.run_laws.specs.embedded.Related.{HasNoSlot, IsOperand, AreWorlds};
ghost use Rattle.run_laws.specs.changed.Changed.{Each, operands_at};
ghost use Rattle.run_laws.specs.memory.Pointers.{Home, home_of};
ghost use Rattle.run_laws.specs.embedded.Deaths.{moved_slot};
ghost use Rattle.run_laws.specs.embedded.Making.{MakesBlock, whole_home};
ghost use Rattle.run_laws.specs.embedded.Marks.{MarksBlock};
ghost use Rattle.run_memory.specs.Memory.{Rights, disown, owned_to, with_block, access_bytes, decode, encode, is_live, fresh, same_kind};
ghost use Rattle.run_step.specs.declared.world.World.{World as TheWorld};
ghost use Rattle.run_laws.specs.access.Rights.{AreReowned, MayTurn, with_blocks};
ghost use Rattle.ir_model.specs.declared.instr.Instr.{Instr};
ghost use Rattle.run_step.specs.Runs.{iterate};
ghost use Rattle.run_laws.specs.access.Lines.{GoesOn, Runs, StandAt, AreDisjoint, Holds, IsCopyOf, is_memcpy, pointer_at, refilled_at, StandsAs};
ghost use Rattle.run_memory.specs.Pointers.{moved};
ghost use Rattle.run_memory.specs.declared.block.Byte.{Byte as TheByte};
ghost use Rattle.run_memory.specs.declared.pointer.Offset.{Offset as TheOffset};
ghost use Rattle.run_memory.specs.declared.pointer.Pointer.{Pointer as ThePointer};
ghost use Rattle.run_memory.specs.declared.pointer.Value.{Value as TheValue};
ghost use Rattle.ir_model.specs.Ty.{Ty as TheType, ptr};
ghost use Rattle.ir_model.specs.declared.operand.Arg.{Arg as TheArg};
ghost use Rattle.ir_model.specs.declared.operand.Callee.{Callee as TheCallee};
ghost use Rattle.ir_model.specs.declared.operand.Intrinsic.{Intrinsic as TheIntrinsic};
ghost use Rattle.ir_model.specs.declared.operand.Operand.{Operand as TheOperand};
ghost use Rattle.run_step.specs.Values.{access_of, arg_value, arg_values, distance, indices_of, is_in_bounds, stored};
ghost use Rattle.run_memory.specs.declared.pointer.Access.{Access as TheAccess};
ghost use Rattle.run_laws.specs.access.Touched.{AreTouches, touch_of};
ghost use Rattle.run_memory.specs.declared.block.Kind.{Kind as TheKind};

/// An ordinary step changes no block but those that it accesses. A return changes none but the slots that it kills.
pub fn other_blocks_stay()
    ensures step { (c : Context) (w : Work) (here : Fetched) → LeavesOthers (accessed c w here) w.world.memory (action_of c w here) }
    ensures slots { (m : List Block) (slots : List TheSlot) → ChangesOnly (slot_blocks slots) m (without_slots m slots) }
{}

/// An ordinary step reads no bytes but of blocks that it accesses. Where bytes of others differ it does the same, and
/// leaves those that it accesses the same.
#[tactic(auto, using(crate::proofs::access::ReadSteps::step_reads))]
pub fn other_blocks_are_not_read()
    ensures { (c : Context) (w : Work) (k : List Block) (here : Fetched) → AreByteRights c.rights → DifferBut (accessed c w here) w.world.memory k → DoesSame (accessed c w here) (action_of c w here) (action_of c (set_memory w k) here) }
{}

/// An ordinary step that makes, marks and allocates no block changes no bytes but those that it writes. The blocks
/// that it writes into have all their bytes.
#[tactic(auto, using(crate::proofs::access::Bytes::bytes_left))]
pub fn other_bytes_stay()
    ensures { (c : Context) (w : Work) (here : Fetched) → HasNoSlot here → Each (λ (s : TheSpan). IsFull w.world.memory s.block) (writes c w here) → LeavesBytes (writes c w here) w.world.memory (action_of c w here) }
{}

/// Of two steps with related operands the target's accesses just the homes of the blocks that the source's does,
/// which isn't undefined. Steps that mark blocks, that make them, and returns have clauses of their own.
pub fn homes_are_accessed()
    ensures step { (homes : List Home) (c d : Context) (w x : Work) (here : Fetched) → AreByteRights c.rights → Embeds c.rights d.rights homes w.world.memory x.world.memory → HasNoSlot here → Each (IsOperand homes c d w.values x.values) (operands_at here) → IsDefined (action_of c w here) → accessed d x here ≡ map (home_block homes) (accessed c w here) }
    ensures marks { (homes : List Home) (c d : Context) (w x : Work) (here : Fetched) → Each (IsOperand homes c d w.values x.values) (operands_at here) → MarksBlock homes c d w x here → accessed d x here ≡ map (home_block homes) (accessed c w here) }
    ensures makes { (homes : List Home) (c d : Context) (w x : Work) (here : Fetched) → length homes ≡ length w.world.memory → MakesBlock c d w x here → accessed d x here ≡ map (home_block (homes ++ whole_home (length x.world.memory) ∷ [])) (accessed c w here) }
    ensures slots { (homes : List Home) (slots : List TheSlot) → slot_blocks (map (moved_slot homes) slots) ≡ map (home_block homes) (slot_blocks slots) }
{}

/// Such a step leaves what is free in the target as it is. A byte is free that is the home of no byte which the
/// source's program may touch.
pub fn free_bytes_stay()
    ensures { (homes : List Home) (c d : Context) (w x : Work) (here : Fetched) → AreByteRights c.rights → Embeds c.rights d.rights homes w.world.memory x.world.memory → HasNoSlot here → Each (IsOperand homes c d w.values x.values) (operands_at here) → IsDefined (action_of c w here) → LeavesFree c.rights homes w.world.memory x.world.memory (action_of d x here) }
{}

/// A source stands in a target still where rights and owners change. What may be touched or compared in the source
/// from now on might be before, or is blank and lies apart; and the target's rights allow it.
pub fn rights_may_change()
    ensures memory { (before target after later : Rights) (homes : List Home) (m n k l : List Block) → AreReowned m k → AreReowned n l → MayTurn before after later homes m k l → Embeds before target homes m n → Embeds after later homes k l }
    ensures worlds { (before target after later : Rights) (homes : List Home) (moves : ℕ → ℕ) (s t : TheWorld) (k l : List Block) → AreReowned s.memory k → AreReowned t.memory l → MayTurn before after later homes s.memory k l → AreNullsKept after later homes k l → AreWorlds before target homes moves s t → AreWorlds after later homes moves (with_blocks s k) (with_blocks t l) }
{}

/// Where a block gets an owner or loses it, the memory differs in who owns blocks.
pub fn owners_change()
    ensures own { (m : List Block) (b size : ℕ) → AreReowned m (with_block m b (owned_to size)) }
    ensures disown { (m : List Block) (b : ℕ) → AreReowned m (disown m b) }
    ensures same { (m : List Block) → AreReowned m m }
{}

/// A machine executes a straight line. Where it goes on behind each instruction that is done, n steps take it n
/// instructions further on.
pub fn lines_are_executed<S>()
    ensures { (step : S → S) (ahead : ℕ → Work → S) (c : Context) (block at : ℕ) (test : Instr → Bool) (line : List Instr) (w x : Work) → GoesOn step ahead c block at test → StandAt c.function block at line → Each (λ (i : Instr). test i ≡ true) line → Runs c line w x → iterate step (length line) (ahead 0 w) ≡ ahead (length line) x }
{}

/// A line and another behind it are a line.
#[tactic(auto, using(crate::proofs::access::Lines::runs_append))]
pub fn lines_are_joined()
    ensures { (c : Context) (line more : List Instr) (w v x : Work) → Runs c line w v → Runs c more v x → Runs c (line ++ more) w x }
{}

/// A range that holds bytes can be loaded, stored into, and copied to another range. An address is moved by the
/// distance of a getelementptr.
pub fn ranges_are_accessed()
    ensures load { (c : Context) (w : Work) (name align b o most : ℕ) (ty : TheType) (p : TheOperand) (bytes : List TheByte) → value_at c w ptr p ≡ pointer_at b o → Holds c.rights w.world.memory b o most bytes → length bytes ≡ access_bytes (access_of ty) → is_alignment align ≡ true → align ≤ most → instr_action c w (Instr.Load name ty p align) ≡ Done (set_value w name (decode (access_of ty) bytes)) }
    ensures store { (c : Context) (w : Work) (align b o most : ℕ) (arg : TheArg) (p : TheOperand) (bytes : List TheByte) → value_at c w ptr p ≡ pointer_at b o → Holds c.rights w.world.memory b o most bytes → length bytes ≡ access_bytes (access_of arg.ty) → is_alignment align ≡ true → align ≤ most → instr_action c w (Instr.Store arg p align) ≡ Done (set_memory w (refilled_at w.world.memory b o (encode (access_bytes (access_of arg.ty)) (stored (access_of arg.ty) (arg_value c.code w.values arg))))) }
    ensures copy { (c : Context) (w : Work) (i : TheIntrinsic) (result : Option ℕ) (must_tail : Bool) (ty : Option TheType) (args : List TheArg) (b o most a p much len : ℕ) (old bytes : List TheByte) → is_memcpy i ≡ true → IsCopyOf (arg_values c.code w.values args) b o a p len → Holds c.rights w.world.memory b o most old → Holds c.rights w.world.memory a p much bytes → length old ≡ len → length bytes ≡ len → 1 ≤ most → 1 ≤ much → AreDisjoint b o len a p len → instr_action c w (Instr.Call result must_tail ty (TheCallee.Intrinsic i) args) ≡ Done (set_memory w (refilled_at w.world.memory b o bytes)) }
    ensures address { (c : Context) (w : Work) (name b d : ℕ) (o : TheOffset) (inbounds : Bool) (ty : TheType) (base : TheOperand) (indices : List TheArg) → value_at c w ptr base ≡ TheValue.Ptr (ThePointer.At b o) → distance c.code ty (indices_of c.code w.values indices) ≡ Some d → (inbounds ≡ true → is_in_bounds (slice_get w.world.memory b) (moved o d) ≡ true) → instr_action c w (Instr.Gep name inbounds ty base indices) ≡ Done (set_value w name (TheValue.Ptr (ThePointer.At b (moved o d)))) }
{}

/// A range holds what is written into it, and keeps that where another one is written. So it does over a step of
/// which nothing stands there. The source stands still where a range is written in which nothing of it stands.
pub fn ranges_are_kept()
    ensures written { (rights : Rights) (m : List Block) (b o most : ℕ) (bytes new : List TheByte) → AreByteRights rights → Holds rights m b o most bytes → length new ≡ length bytes → Holds rights (refilled_at m b o new) b o most new }
    ensures others { (rights : Rights) (m : List Block) (b o most c p much : ℕ) (bytes old new : List TheByte) → AreByteRights rights → Holds rights m b o most bytes → Holds rights m c p much old → length new ≡ length old → AreDisjoint c p (length new) b o (length bytes) → Holds rights (refilled_at m c p new) b o most bytes }
    ensures free { (rights target : Rights) (homes : List Home) (m n k : List Block) (b o most : ℕ) (bytes : List TheByte) → AreByteRights target → KeepsFree rights homes m n k → Holds target n b o most bytes → ((i : ℕ) → i < length bytes → IsFree rights homes m b (o + i)) → Holds target k b o most bytes }
    ensures source { (rights target : Rights) (homes : List Home) (m n : List Block) (b o most : ℕ) (bytes new : List TheByte) → AreByteRights rights → AreByteRights target → Embeds rights target homes m n → Holds target n b o most bytes → length new ≡ length bytes → ((a : ℕ) (z : Block) → slice_get m a ≡ Some z → is_live z.life ≡ true → IsAway rights homes a z b o (length bytes)) → Embeds rights target homes m (refilled_at n b o new) }
{}

/// What is stored in at least one byte is loaded again.
#[tactic(auto, using(crate::proofs::access::Loaded::stored_back))]
pub fn stored_values_are_loaded()
    ensures { (what : TheAccess) (v : TheValue) → 0 < access_bytes what → decode what (encode (access_bytes what) (stored what v)) ≡ stored what v }
{}

/// Steps of different instructions in different contexts are compared by how they touch the memory. The target's
/// accesses just the homes of the blocks that the source's does, and leaves what is free as it is. The same
/// instruction with related operands touches alike.
pub fn touched_homes_are_accessed()
    ensures blocks { (homes : List Home) (c d : Context) (w x : Work) (here there : Fetched) → AreByteRights c.rights → Embeds c.rights d.rights homes w.world.memory x.world.memory → HasNoSlot here → HasNoSlot there → AreTouches homes (touch_of c w here) (touch_of d x there) → IsDefined (action_of c w here) → accessed d x there ≡ map (home_block homes) (accessed c w here) }
    ensures free { (homes : List Home) (c d : Context) (w x : Work) (here there : Fetched) → AreByteRights c.rights → Embeds c.rights d.rights homes w.world.memory x.world.memory → HasNoSlot here → HasNoSlot there → AreTouches homes (touch_of c w here) (touch_of d x there) → IsDefined (action_of c w here) → LeavesFree c.rights homes w.world.memory x.world.memory (action_of d x there) }
    ensures operands { (homes : List Home) (c d : Context) (w x : Work) (here : Fetched) → Each (IsOperand homes c d w.values x.values) (operands_at here) → AreTouches homes (touch_of c w here) (touch_of d x here) }
{}

/// A new block is a range that holds nothing yet. The home of a block that may be touched as a whole holds what
/// stands for its bytes. A range stays where other blocks change, where the memory grows, and where new rights
/// allow it.
pub fn ranges_come_about()
    ensures fresh { (rights : Rights) (m : List Block) (size align most : ℕ) (kind : TheKind) → same_kind kind TheKind.Constant ≡ false → rights.is_closed (length m) (blank_block size align kind) 0 size ≡ false → ((a : ℕ) → IsAlignment a → a ≤ most → rights.is_aligned (length m) (blank_block size align kind) 0 a ≡ true) → Holds rights (fresh m size align kind) (length m) 0 most (replicate size TheByte.Undefined) }
    ensures home { (rights target : Rights) (homes : List Home) (n : List Block) (b most : ℕ) (x : Block) → AreByteRights rights → Stands rights target homes n b x → same_kind x.kind TheKind.Constant ≡ false → 0 < x.size → rights.is_closed b x 0 x.size ≡ false → ((align : ℕ) → IsAlignment align → align ≤ most → rights.is_aligned b x 0 align ≡ true) → StandsAs target homes n (home_block homes b) (home_of homes b).offset most x.bytes }
    ensures others { (rights : Rights) (blocks : List ℕ) (m k : List Block) (b o most : ℕ) (bytes : List TheByte) → ChangesOnly blocks m k → IsNoneOf b blocks → Holds rights m b o most bytes → Holds rights k b o most bytes }
    ensures grown { (rights : Rights) (m more : List Block) (b o most : ℕ) (bytes : List TheByte) → Holds rights m b o most bytes → Holds rights (m ++ more) b o most bytes }
    ensures turned { (rights later : Rights) (n l : List Block) (b o most : ℕ) (bytes : List TheByte) → AreReowned n l → ((y : Block) → slice_get l b ≡ Some y → later.is_closed b y o (length bytes) ≡ false) → ((y : Block) (align : ℕ) → slice_get l b ≡ Some y → IsAlignment align → align ≤ most → later.is_aligned b y o align ≡ true) → Holds rights n b o most bytes → Holds later l b o most bytes }
{}
