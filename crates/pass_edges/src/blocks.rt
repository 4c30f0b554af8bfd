//! The blocks of a function, with those on edges.

ghost use Rattle.std.specs.Prelude.{◌≡◌, ◌+◌, ◌∷◌, ◌++◌, IfOk, OnOk, map, length};
ghost use Rattle.pass_edges.specs.EdgeBlocks.{split_block, edge_block, split_blocks};

use crate::edge::Edge;
use crate::edges::{block_edges, ends_in_suspend, later};
use crate::phis::split_phis;
use crate::table::{EdgeTable, edges_at};
use crate::terms::split_term;
use ir_base::{Data, Items, ValueId};
use ir_model::{Block, Terminator};
use std::alloc::{AllocError, Global};

fn split_block(
    alloc: Global,
    flags: &Items<bool>,
    table: &EdgeTable,
    next: ValueId,
    block: &Block,
) -> Result<Block, AllocError>
    ensures { IfOk result (λ b. b ≡ split_block flags.now table.now.items next block.now) }
{
    let resumes = ends_in_suspend(block.instrs.as_slice());
    Ok(Block {
        label: block.label,
        phis: split_phis(alloc, edges_at(table, block.label), block.phis.as_slice())?,
        instrs: block.instrs.copied(alloc)?,
        term: split_term(alloc, flags, resumes, next, &block.term)?,
    })
}

/// The block on an edge.
fn edge_block(alloc: Global, edge: Edge) -> Block
    ensures { result ≡ edge_block edge }
{
    Block {
        label: edge.label,
        phis: Items::new(alloc),
        instrs: Items::new(alloc),
        term: Terminator::Jump(edge.target),
    }
}

fn push_edge_blocks(alloc: Global, all: &mut Items<Block>, edges: &[Edge]) -> Result<(), AllocError>
    ensures { OnOk result (all.new ≡ all.old ++ map edge_block edges.now) }
{
    for edge in edges {
        all.push(edge_block(alloc, *edge))?;
    }
    Ok(())
}

/// Each block, and behind it those on its edges.
pub fn split_blocks(
    alloc: Global,
    flags: &Items<bool>,
    table: &EdgeTable,
    first: ValueId,
    blocks: &[Block],
) -> Result<Items<Block>, AllocError>
    ensures { IfOk result (λ x. x ≡ split_blocks flags.now table.now.items first blocks.now) }
{
    let mut all = Items::new(alloc);
    let mut next = first;
    for block in blocks {
        let edges = block_edges(alloc, flags, next, block)?;
        all.push(split_block(alloc, flags, table, next, block)?)?;
        push_edge_blocks(alloc, &mut all, edges.as_slice())?;
        next = later(next, edges.len())?;
    }
    Ok(all)
}
