//! What a program looks up of each function.

ghost use Rattle.std.specs.Prelude.{◌≡◌, IfOk};
ghost use Rattle.run_step.specs.Tables.{HaveTables, IsTableOf};

use crate::labels::positions_of;
use crate::markers::markers_of;
use ir_paths::ir_base_library::{BlockId, Items};
use ir_paths::ir_model_library::Function;
use std::alloc::{AllocError, Global};

/// For each name of a function the position of the block with that label, and whether the name is that of an alloca with
/// markers.
#[derive(Drop)]
pub struct FunctionTable {
    pub labels: Items<BlockId>,
    pub markers: Items<bool>,
}

/// The table of a function.
fn table_of_function(alloc: Global, function: &Function) -> Result<FunctionTable, AllocError>
    ensures { IfOk result (λ table. IsTableOf function.now table) }
{
    let labels = positions_of(alloc, function)?;
    let markers = markers_of(alloc, function)?;
    Ok(FunctionTable { labels, markers })
}

/// The tables of all functions.
pub fn all_tables(alloc: Global, functions: &[Function]) -> Result<Items<FunctionTable>, AllocError>
    ensures { IfOk result (λ tables. HaveTables functions.now tables) }
{
    let mut all = Items::new(alloc);
    for function in functions {
        all.push(table_of_function(alloc, function)?)?;
    }
    Ok(all)
}
