//! Slots that are used before begin.

use ir_base::ValueId;
use ir_model::IrType;

/// A slot that is used before begin: its type, its alignment and its size in bytes, its temporary, and the cell that holds the
/// address of whichever is used.
#[derive(Drop)]
pub struct EarlySlot {
    pub slot: ValueId,
    pub ty: IrType,
    pub align: u64,
    pub size: u64,
    pub temporary: ValueId,
    pub cell: ValueId,
}
