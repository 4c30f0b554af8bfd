//! The words of 64 questions.

use ir_base::{BlockId, Items};

/// What is known of 64 questions, each of which asks for one value: for each block those whose values it makes, those whose
/// paths lead to it, and those whose values are made in the window of a suspend of the block.
#[derive(Drop)]
pub struct Chunk {
    pub number: usize,
    pub end: BlockId,
    pub made: Items<u64>,
    pub words: Items<u64>,
    pub own: Items<u64>,
}
