//! Uses whose values may not be defined.

use ir_base::{BlockId, Place, ValueId};

/// A use of a value that isn't made before it in its block, so that all hangs on the paths to that block. The use of a phi
/// stands at the end of the block that its label names.
#[derive(Clone, Copy, Debug, Drop)]
pub struct OpenUse {
    pub place: Place,
    pub block: BlockId,
    pub value: ValueId,
    pub at_end: bool,
}
