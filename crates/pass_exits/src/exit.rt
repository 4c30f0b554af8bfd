//! Edges that leave a window.

use ir_base::{SuspendId, ValueId};

/// An edge that leaves a window: the label of the block from which it comes, that to which it leads, and the number of the
/// window's suspend in order of the text.
#[derive(Clone, Copy, Debug, PartialEq, Eq, Drop)]
pub struct Exit {
    pub from: ValueId,
    pub target: ValueId,
    pub suspend: SuspendId,
}
