//! For each block a row of words: one for each instruction, and one for the terminator.

ghost use Rattle.std.specs.Prelude.{◌≡◌, IfOk};
ghost use Rattle.frame_slots.specs.Words.{use_row as row_of_uses, use_rows as rows_of_uses};

use crate::words::{used, with_term};
use ir_base::Items;
use ir_model::{Block, Function};
use std::alloc::{AllocError, Global};

fn use_row(alloc: Global, words: &[u64], block: &Block) -> Result<Items<u64>, AllocError>
    ensures { IfOk result (λ row. row ≡ row_of_uses words.now block.now) }
{
    let instrs = block.instrs.as_slice();
    let mut row = Vec::with_capacity(alloc, instrs.len() + 1)?;
    for instr in instrs {
        row.push(used(words, instr))?;
    }
    row.push(with_term(words, 0, &block.term))?;
    Ok(Items::from_vec(row))
}

/// For each block, and for each of its instructions and its terminator, the word of the names that are used there. A marker
/// and coro.id use nothing; what phis take stands on edges.
pub fn use_rows(
    alloc: Global,
    function: &Function,
    words: &[u64],
) -> Result<Items<Items<u64>>, AllocError>
    ensures { IfOk result (λ rows. rows ≡ rows_of_uses words.now function.now) }
{
    let blocks = function.blocks.as_slice();
    let mut rows = Vec::with_capacity(alloc, blocks.len())?;
    for block in blocks {
        rows.push(use_row(alloc, words, block)?)?;
    }
    Ok(Items::from_vec(rows))
}
