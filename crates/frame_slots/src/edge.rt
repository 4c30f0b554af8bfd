//! What stands on edges.

use ir_base::{BlockId, ValueId};

/// What a phi takes: the value of a name, on the edge between two blocks.
#[derive(Clone, Copy, Debug, Drop)]
pub struct PhiUse {
    /// The block of the label.
    pub from: BlockId,
    /// The phi's block.
    pub to: BlockId,
    /// The name.
    pub value: ValueId,
}

/// The questions of what phis take on the edge between two blocks.
#[derive(Clone, Copy, Debug, Drop)]
pub struct EdgeWord {
    /// The block that the edge leaves.
    pub from: BlockId,
    /// The block to which it leads.
    pub to: BlockId,
    /// A bit for each question.
    pub word: u64,
}
