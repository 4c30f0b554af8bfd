//! Edges that get a block of their own.

use ir_base::ValueId;

/// An edge that gets a block: the label of the block from which it comes, that to which it leads, and the new block's.
#[derive(Clone, Copy, Debug, PartialEq, Eq, Drop)]
pub struct Edge {
    pub from: ValueId,
    pub target: ValueId,
    pub label: ValueId,
}
