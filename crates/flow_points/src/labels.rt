//! Where the blocks of labels stand.

ghost use Rattle.std.specs.Prelude.{◌≡◌, IfOk, length, nat_eq, replicate};
ghost use Rattle.std.specs.Option.{unwrap_or};
ghost use Rattle.ir_paths.specs.ir_model.Names.{position_of, first_where};
ghost use Rattle.flow_points.specs.Edges.{HasPositions};

use ir_paths::ir_base_library::{BlockId, Items, ValueId};
use ir_paths::ir_model_library::{Block, Function};
use std::alloc::{AllocError, Global};

/// The position of the first of the blocks that has a label, or, where none has it, the position behind the last.
pub fn search(blocks: &[Block], label: ValueId) -> BlockId
    ensures { result ≡ unwrap_or (first_where (λ b. nat_eq b.label label) blocks.now) (length blocks.now) }
{
    for at in 0..blocks.len() {
        if blocks[at].label == label {
            return at;
        }
    }
    blocks.len()
}

/// So many times the same number.
fn filled(alloc: Global, count: usize, number: usize) -> Result<Items<usize>, AllocError>
    ensures { IfOk result (λ all. all ≡ replicate count number) }
{
    Ok(Items::from_vec(vec![in alloc; number; count]?))
}

/// For each name of a function the position of the block with that label.
pub fn positions_of(alloc: Global, function: &Function) -> Result<Items<BlockId>, AllocError>
    ensures { IfOk result (λ table. HasPositions function.now table) }
{
    let blocks = function.blocks.as_slice();
    let mut at = blocks.len();
    let mut table = filled(alloc, function.names.len(), at)?;
    while at > 0 {
        at -= 1;
        table.set(blocks[at].label, at);
    }
    Ok(table)
}

/// The position of the block of a label, by the function's table.
pub fn position(function: &Function, table: &Items<BlockId>, label: ValueId) -> BlockId
    requires { HasPositions function.now table.now }
    ensures { result ≡ position_of function.now label }
{
    match table.get(label) {
        Some(block) => *block,
        None => search(function.blocks.as_slice(), label),
    }
}
