//! What an access may do with a block.

ghost use Rattle.std.specs.Prelude.{◌≡◌, ◌<◌};
ghost use Rattle.run_memory.specs.Memory.{is_below};

use crate::block::MemoryBlock;
use crate::pointer::BlockId;

/// What an access may do with a block, which each meaning of a module says in its own way.
pub trait AccessRights {
    ghost use Rattle.run_memory.specs.Memory.{Rights};

    ghost rights: { Self → Rights };

    /// Whether a part of the range from an offset on may not be touched.
    fn is_closed(&self, block: BlockId, x: &MemoryBlock, offset: u64, len: u64) -> bool
        ensures { result ≡ (rights self.now).is_closed block x.now offset len };

    /// Whether an alignment is met at an offset.
    fn is_aligned(&self, block: BlockId, x: &MemoryBlock, offset: u64, align: u64) -> bool
        requires { 0 < align }
        ensures { result ≡ (rights self.now).is_aligned block x.now offset align };

    /// Whether a pointer to an offset may be compared.
    fn is_comparable(&self, block: BlockId, x: &MemoryBlock, offset: u64) -> bool
        ensures { result ≡ (rights self.now).is_comparable block x.now offset };
}

/// The rights of a program itself: owned bytes are closed, and an alignment is met where it divides the offset and is at
/// most the block's.
#[derive(Clone, Copy, Debug, Drop)]
pub struct OwnerRights;

/// Whether an offset is below what is owned.
fn is_below(offset: u64, owned: Option<u64>) -> bool
    ensures { result ≡ is_below offset owned }
{
    match owned {
        None => false,
        Some(n) => offset < n,
    }
}

impl AccessRights for OwnerRights {
    ghost use Rattle.run_memory.specs.Memory.{owner_rights};

    ghost rights = { λ _. owner_rights };

    fn is_closed(&self, _block: BlockId, x: &MemoryBlock, offset: u64, _len: u64) -> bool {
        is_below(offset, x.owned)
    }

    fn is_aligned(&self, _block: BlockId, x: &MemoryBlock, offset: u64, align: u64) -> bool {
        offset % align == 0 && align <= x.align
    }

    fn is_comparable(&self, _block: BlockId, x: &MemoryBlock, offset: u64) -> bool {
        offset == 0 || !is_below(offset, x.owned)
    }
}
