//! What the points of a function do to the paths of questions.

use ir_base::{BlockId, Items};

/// What a point does to up to 64 questions, a bit for each: the questions whose paths end there, and those whose paths begin
/// behind it.
#[derive(Clone, Copy, Debug, Drop)]
pub struct Pass {
    pub stops: u64,
    pub begins: u64,
}

/// The questions about a function: a row for each block, with a pass for each instruction and one more for the terminator;
/// words of questions whose paths begin in front of a block; and a block from whose points no path goes on, though paths may
/// come to it and begin in it (one past the last block for none).
#[derive(Drop)]
pub struct Passes {
    pub rows: Items<Items<Pass>>,
    pub fronts: Items<(BlockId, u64)>,
    pub closed: BlockId,
}
