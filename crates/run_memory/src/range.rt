//! Ranges of blocks that accesses ask for.

ghost use Rattle.std.specs.Prelude.{◌≡◌, ◌<◌, Some};
ghost use Rattle.run_memory.specs.Memory.{range_at};

use crate::block::MemoryBlock;
use crate::pointer::{BlockId, Spot};
use crate::rights::AccessRights;
use run_ints::ir_base_library::Cause;

/// A range of a block, or the first cause against an access to it.
pub fn range_at<R: AccessRights>(
    rights: &R,
    block: BlockId,
    x: &MemoryBlock,
    offset: u64,
    len: u64,
    align: u64,
) -> Result<Spot, Cause>
    requires { 0 < align }
    ensures { result ≡ range_at (R.rights rights.now) block (Some x.now) offset len align }
{
    if offset > x.size || len > x.size - offset {
        Err(Cause::Bounds)
    } else if !x.life.is_live() {
        Err(Cause::Dead)
    } else if rights.is_closed(block, x, offset, len) {
        Err(Cause::Owned)
    } else if rights.is_aligned(block, x, offset, align) {
        Ok(Spot { block, offset })
    } else {
        Err(Cause::Align)
    }
}
