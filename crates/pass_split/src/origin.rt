//! From where the edges of blocks come.

use ir_base::{SuspendId, ValueId};

/// From where the edges come that leave a block of the source, in a part.
#[derive(Clone, Copy, Debug, PartialEq, Eq, Drop)]
pub enum Origin {
    /// From the last piece of the block.
    Piece(ValueId),
    /// From where the part goes on behind a suspend.
    Suspend(SuspendId),
    /// There are none.
    Nowhere,
}
