//! Copies between two blocks.

ghost use Rattle.std.specs.Prelude.{◌≡◌, ◌<◌, length, slice_get};
ghost use Rattle.run_memory.specs.Memory.{bytes_at, write};
ghost use Rattle.run_memory.specs.Whole.{AreWhole, IsWithin};

use crate::block::MemoryBlock;
use crate::pointer::Spot;

/// Copies bytes to a block from one behind it.
pub fn copy_down(blocks: &mut [MemoryBlock], to: Spot, from: Spot, len: usize)
    requires whole { AreWhole blocks.old }
    requires below { to.block < from.block }
    requires to_within { IsWithin (slice_get blocks.old to.block) to.offset len }
    requires from_within { IsWithin (slice_get blocks.old from.block) from.offset len }
    ensures value { blocks.new ≡ write blocks.old to (bytes_at blocks.old from len) }
    ensures whole { AreWhole blocks.new }
{
    let (low, high) = blocks.split_at_mut(from.block);
    let bytes = high[0].bytes.part(from.offset as usize, len);
    low[to.block].write(to.offset as usize, bytes);
}

/// Copies bytes to a block from one before it.
pub fn copy_up(blocks: &mut [MemoryBlock], to: Spot, from: Spot, len: usize)
    requires whole { AreWhole blocks.old }
    requires below { from.block < to.block }
    requires to_within { IsWithin (slice_get blocks.old to.block) to.offset len }
    requires from_within { IsWithin (slice_get blocks.old from.block) from.offset len }
    ensures value { blocks.new ≡ write blocks.old to (bytes_at blocks.old from len) }
    ensures whole { AreWhole blocks.new }
{
    let (low, high) = blocks.split_at_mut(to.block);
    let bytes = low[from.block].bytes.part(from.offset as usize, len);
    high[0].write(to.offset as usize, bytes);
}
