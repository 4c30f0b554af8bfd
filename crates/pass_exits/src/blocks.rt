//! The blocks of a function, with those on edges that leave a window.

ghost use Rattle.std.specs.Prelude.{◌≡◌, ◌++◌, IfOk, OnOk, length};
ghost use Rattle.pass_exits.specs.ExitBlocks.{blocks_by, exit_block, exit_blocks, with_exits};
ghost use Rattle.pass_exits.specs.Leaving.{AreLeaving};

use crate::exit::Exit;
use crate::exits::block_exits;
use crate::leaving::Leaving;
use crate::terms::exit_term;
use ir_base::{BlockId, Data, Items, ValueId};
use ir_model::{Block, Function, Terminator};
use pass_intrinsics::later;
use std::alloc::{AllocError, Global};

/// The block on an edge.
fn exit_block(alloc: Global, label: ValueId, exit: Exit) -> Block
    ensures { result ≡ exit_block label exit }
{
    Block {
        label,
        phis: Items::new(alloc),
        instrs: Items::new(alloc),
        term: Terminator::Jump(exit.target),
    }
}

fn push_exit_blocks(
    alloc: Global,
    all: &mut Items<Block>,
    first: ValueId,
    exits: &[Exit],
) -> Result<(), AllocError>
    ensures { OnOk result (all.new ≡ all.old ++ exit_blocks first exits.now) }
{
    let mut label = first;
    for exit in exits {
        all.push(exit_block(alloc, label, *exit))?;
        label = later(label, 1)?;
    }
    Ok(())
}

/// The block at a position, whose edges lead to the blocks on them.
fn with_exits(
    alloc: Global,
    function: &Function,
    leaving: &Leaving,
    at: BlockId,
    next: ValueId,
    block: &Block,
) -> Result<Block, AllocError>
    requires { AreLeaving function.now leaving.now }
    ensures { IfOk result (λ b. b ≡ with_exits function.now at next block.now) }
{
    Ok(Block {
        label: block.label,
        phis: block.phis.copied(alloc)?,
        instrs: block.instrs.copied(alloc)?,
        term: exit_term(alloc, function, leaving, at, next, &block.term)?,
    })
}

/// Each block, and behind it those on its edges.
pub fn exit_blocks_of(
    alloc: Global,
    function: &Function,
    leaving: &Leaving,
) -> Result<Items<Block>, AllocError>
    requires { AreLeaving function.now leaving.now }
    ensures { IfOk result (λ x. x ≡ blocks_by function.now 0 (length function.now.names) function.now.blocks) }
{
    let mut all = Items::new(alloc);
    let mut next = function.names.len();
    for (at, block) in function.blocks.as_slice().iter().enumerate() {
        let exits = block_exits(alloc, function, leaving, at, block)?;
        all.push(with_exits(alloc, function, leaving, at, next, block)?)?;
        push_exit_blocks(alloc, &mut all, next, exits.as_slice())?;
        next = later(next, exits.len())?;
    }
    Ok(all)
}
