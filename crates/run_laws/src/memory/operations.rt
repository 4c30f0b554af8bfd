//! The operations on memory, made on a source and on the target in which it stands.

ghost use Rattle.std.specs.Prelude.{ℕ, List, Ok, ◌≡◌, ◌<◌, Bool, true, Some, length, slice_get, ◌+◌, ◌≤◌};
ghost use Rattle.run_memory.specs.Memory.{Rights, access_bytes, load, store, copy, compare, is_live, with_block, with_bytes};
ghost use Rattle.run_memory.specs.declared.block.MemoryBlock.{MemoryBlock as Block};
ghost use Rattle.run_memory.specs.declared.pointer.Access.{Access as TheAccess};
ghost use Rattle.run_memory.specs.declared.pointer.Value.{Value as TheValue};
ghost use Rattle.run_laws.specs.memory.Kept.{IsLoaded, IsStored, IsCopied};
ghost use Rattle.run_laws.specs.memory.Pointers.{Home, IsValue};
ghost use Rattle.run_laws.specs.memory.Standing.{AreByteRights, Embeds, IsAlignment, AreNullsKept, IsAway};
ghost use Rattle.run_memory.specs.declared.block.Byte.{Byte as TheByte};

/// A load of at least one byte that isn't refused in the source isn't refused in the target, and gives what stands for the value.
pub fn load_is_kept()
    ensures { (rights target : Rights) (homes : List Home) (m n : List Block) (p q : TheValue) (what : TheAccess) (align : ℕ) (v : TheValue) → AreByteRights rights → Embeds rights target homes m n → 0 < access_bytes what → IsAlignment align → IsValue homes p q → load rights m p what align ≡ Ok v → IsLoaded target homes n q what align v }
{}

/// A store of at least one byte that isn't refused in the source isn't refused in the target, and the source stands there afterwards.
pub fn store_is_kept()
    ensures { (rights target : Rights) (homes : List Home) (m n after : List Block) (p q v w : TheValue) (what : TheAccess) (align : ℕ) → AreByteRights rights → AreByteRights target → Embeds rights target homes m n → 0 < access_bytes what → IsAlignment align → IsValue homes p q → IsValue homes v w → store rights m p v what align ≡ Ok after → IsStored rights target homes after n q w what align }
{}

/// A copy that isn't refused in the source isn't refused in the target, and the source stands there afterwards.
#[tactic(auto, using(crate::proofs::memory::Copies::copies_kept))]
pub fn copy_is_kept()
    ensures { (rights target : Rights) (homes : List Home) (m n after : List Block) (to from there back : TheValue) (len : ℕ) → AreByteRights rights → AreByteRights target → Embeds rights target homes m n → IsValue homes to there → IsValue homes from back → copy rights m to from len ≡ Ok after → IsCopied rights target homes after n there back len }
{}

/// A comparison that isn't refused in the source has the same answer in the target.
pub fn comparison_is_kept()
    ensures { (rights target : Rights) (homes : List Home) (m n : List Block) (v x w y : TheValue) (t : Bool) → Embeds rights target homes m n → AreNullsKept rights target homes m n → IsValue homes v x → IsValue homes w y → compare rights m v w ≡ Ok t → compare target n x y ≡ Ok t }
{}

/// The target may write where no byte of the source stands that its program may touch.
pub fn private_write_is_kept()
    ensures { (rights target : Rights) (homes : List Home) (m n : List Block) (block at : ℕ) (y : Block) (ys : List TheByte) → AreByteRights rights → AreByteRights target → Embeds rights target homes m n → slice_get n block ≡ Some y → at + length ys ≤ y.size → ((c : ℕ) (z : Block) → slice_get m c ≡ Some z → is_live z.life ≡ true → IsAway rights homes c z block at (length ys)) → Embeds rights target homes m (with_block n block (with_bytes at ys)) }
{}
