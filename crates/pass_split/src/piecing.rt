//! Blocks that are cut into pieces.

use ir_base::{Items, ValueId};
use ir_model::{Block, Instr, Phi};

/// A block of the source on its way into the pieces of a part: the pieces that are whole, the label, the phis and the
/// instructions of the next one, whether the block has ended, and the next new name.
#[derive(Drop)]
pub struct Piecing {
    pub whole: Items<Block>,
    pub label: ValueId,
    pub phis: Items<Phi>,
    pub instrs: Items<Instr>,
    pub ended: bool,
    pub next: ValueId,
}
