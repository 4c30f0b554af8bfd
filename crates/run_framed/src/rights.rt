//! What an access may do with a block in which frames lie.

ghost use Rattle.std.specs.Prelude.{◌≡◌, option_map};
ghost use Rattle.std.specs.Option.{option_copied};
ghost use Rattle.run_framed.specs.Framed.{frame_rights, is_open, is_open_byte, judge_of};
ghost use Rattle.run_framed.specs.FramedEffects.{framed_of};

use crate::judging::{Wanted, is_open_in, last_wanted};
use crate::program::FramedProgram;
use run_memory::{AccessRights, BlockId, MemoryBlock};
use run_source::{Instance, Instances};

/// The rights of a framed program: only the promise, the values and the slots of a frame are open, and an alignment in it is
/// met by the frame's.
#[derive(Clone, Copy, Drop)]
pub struct FrameRights<'a> {
    pub program: &'a FramedProgram,
    pub instances: &'a Instances,
}

/// The instance by whose frame a byte of a block is judged.
fn judge<'a>(
    program: &FramedProgram,
    instances: &'a Instances,
    block: BlockId,
    byte: u128,
) -> Option<&'a Instance>
    ensures { option_copied result ≡ option_map (λ (i, x). x) (judge_of (framed_of program.now) instances.now block byte) }
{
    match last_wanted(program, instances, block, Wanted::Byte(byte)) {
        None => None,
        Some(i) => instances.get(i),
    }
}

/// Whether a byte of a block may be touched.
fn is_byte_open(program: &FramedProgram, instances: &Instances, block: BlockId, byte: u128) -> bool
    ensures { let g = framed_of program.now in result ≡ is_open_byte g byte (judge_of g instances.now block byte) }
{
    match judge(program, instances, block, byte) {
        None => true,
        Some(instance) => is_open_in(program, byte, instance),
    }
}

/// Whether so many bytes from an offset on may be touched.
fn are_bytes_open(
    program: &FramedProgram,
    instances: &Instances,
    block: BlockId,
    offset: u64,
    len: u64,
) -> bool
    ensures { result ≡ is_open (framed_of program.now) instances.now block offset len }
{
    let mut byte = u128::from(offset);
    let mut left = len;
    while left > 0 {
        if !is_byte_open(program, instances, block, byte) {
            return false;
        }
        byte += 1;
        left -= 1;
    }
    true
}

impl AccessRights for FrameRights<'_> {
    ghost rights = { λ r. frame_rights (framed_of r.program.now) r.instances.now };

    fn is_closed(&self, block: BlockId, _x: &MemoryBlock, offset: u64, len: u64) -> bool {
        !are_bytes_open(self.program, self.instances, block, offset, len)
    }

    fn is_aligned(&self, block: BlockId, x: &MemoryBlock, offset: u64, align: u64) -> bool {
        match judge(self.program, self.instances, block, u128::from(offset)) {
            None => offset % align == 0 && align <= x.align,
            Some(instance) => {
                offset.saturating_sub(instance.start) % align == 0
                    && align <= self.program.frame_align(instance.coroutine)
            }
        }
    }

    fn is_comparable(&self, _block: BlockId, _x: &MemoryBlock, _offset: u64) -> bool {
        true
    }
}
