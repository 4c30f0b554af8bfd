//! The uses of phis.

use ir_base::{BlockId, ValueId};

/// A phi of the block `to` uses the value where `to` is entered from the block `from`.
#[derive(Clone, Copy, Debug, Drop)]
pub struct EdgeUse {
    pub from: BlockId,
    pub to: BlockId,
    pub value: ValueId,
}
