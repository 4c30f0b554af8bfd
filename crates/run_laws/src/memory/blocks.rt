//! Blocks that come, move and die.

ghost use Rattle.std.specs.Prelude.{List, ◌++◌, ℕ, false, ◌≡◌, true, Some, length, slice_get, ◌≢◌, ◌≤◌, ◌<◌, ◌^◌, [], ◌∷◌};
ghost use Rattle.run_memory.specs.Memory.{Rights, is_live, with_block, owner_rights, fresh};
ghost use Rattle.run_memory.specs.declared.block.MemoryBlock.{MemoryBlock as Block};
ghost use Rattle.run_laws.specs.memory.Pointers.{Home, Extends, home_of};
ghost use Rattle.run_laws.specs.memory.Standing.{Embeds, AreApart, Stands, AreByteRights, AreOffsets, byte_of, own_homes, HasFreshRights};
ghost use Rattle.run_memory.specs.Whole.{AreWhole};
ghost use Rattle.run_memory.specs.declared.block.Kind.{Kind as TheKind};

/// The target may have more blocks.
#[tactic(auto, using(crate::proofs::memory::Changes::target_grows))]
pub fn growth_is_kept()
    ensures { (rights target : Rights) (homes : List Home) (m n more : List Block) → Embeds rights target homes m n → Embeds rights target homes m (n ++ more) }
{}

/// A block of the source may die.
#[tactic(auto, using(crate::proofs::memory::Changes::source_dies))]
pub fn death_is_kept()
    ensures { (rights target : Rights) (homes : List Home) (m n : List Block) (b : ℕ) (f : Block → Block) → ((y : Block) → is_live (f y).life ≡ false) → Embeds rights target homes m n → Embeds rights target homes (with_block m b f) n }
{}

/// A block of the source may come, stand elsewhere, live again or have other rights, where it stands apart from all others
/// and pointers that were about lead to where they led.
pub fn new_home_is_kept()
    ensures { (rights target : Rights) (homes more : List Home) (m after n : List Block) (b : ℕ) → Extends homes more → length homes ≤ length more → ((c : ℕ) → c ≢ b → home_of more c ≡ home_of homes c) → Embeds rights target homes m n → ((c : ℕ) → c ≢ b → slice_get after c ≡ slice_get m c) → ((x : Block) → slice_get after b ≡ Some x → is_live x.life ≡ true → Stands rights target more n b x) → ((c : ℕ) (x y : Block) → c ≢ b → slice_get m c ≡ Some x → is_live x.life ≡ true → slice_get after b ≡ Some y → is_live y.life ≡ true → (home_of homes c).block ≡ (home_of more b).block → AreApart rights (home_of homes c) (home_of more b) c b x y) → Embeds rights target more after n }
{}

/// A memory stands in itself, with the rights of owners, which are rights of bytes.
#[tactic(auto, using(crate::proofs::memory::Itself::stands_in_itself, crate::proofs::memory::Itself::owner_rights_fit))]
pub fn memory_stands_in_itself()
    ensures rights { AreByteRights owner_rights }
    ensures stands { (m : List Block) → AreWhole m → ((b : ℕ) (x : Block) → slice_get m b ≡ Some x → x.size < 2 ^ 64) → ((b i : ℕ) (x : Block) → slice_get m b ≡ Some x → AreOffsets (length m) (byte_of x i)) → Embeds owner_rights owner_rights (own_homes 0 (length m)) m m }
{}

/// Both may make a fresh block, whose rights are asked for at the numbers that it gets.
pub fn fresh_is_kept()
    ensures { (rights target : Rights) (homes : List Home) (m n : List Block) → HasFreshRights rights target (length m) (length n) → (size align : ℕ) (kind : TheKind) → length homes ≡ length m → size < 2 ^ 64 → Embeds rights target homes m n → Embeds rights target (homes ++ record { block = length n; offset = 0; is_seen = true } ∷ []) (fresh m size align kind) (fresh n size align kind) }
{}

/// Both may change a block that stands alone in its home, where it stands afterwards too: it lives again, ends, is killed,
/// owned, disowned or sealed.
pub fn mirrored_change_is_kept()
    ensures { (rights target : Rights) → AreByteRights rights → AreByteRights target → (homes : List Home) (m n : List Block) (b : ℕ) (f g : Block → Block) → Embeds rights target homes m n → ((c : ℕ) (z : Block) → c ≢ b → slice_get m c ≡ Some z → is_live z.life ≡ true → (home_of homes c).block ≢ (home_of homes b).block) → ((x : Block) → slice_get (with_block m b f) b ≡ Some x → is_live x.life ≡ true → Stands rights target homes (with_block n (home_of homes b).block g) b x) → Embeds rights target homes (with_block m b f) (with_block n (home_of homes b).block g) }
{}
