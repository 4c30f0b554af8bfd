//! Blocks and functions whose operands are fetched anew.

ghost use Rattle.std.specs.Prelude.{◌≡◌, ◌++◌, IfOk, OnOk};
ghost use Rattle.pass_fetch.specs.Blocks.{fetched_block, fetched_blocks, next_after_block, next_after_blocks, next_after_phis, next_after_phis_by, with_fetches};

use crate::ends::{Ends, ends_of};
use crate::fetch::Fetch;
use crate::instrs::{push_all_fetched, push_term};
use crate::names::with_numbered_names;
use crate::phis::fetched_phis;
use ir_base::{Data, Items, ValueId};
use ir_model::{Block, Function, Instr};
use std::alloc::{AllocError, Global};

fn push_copies(alloc: Global, all: &mut Items<Instr>, instrs: &[Instr]) -> Result<(), AllocError>
    ensures { OnOk result (all.new ≡ all.old ++ instrs.now) }
{
    for instr in instrs {
        all.push(instr.copied(alloc)?)?;
    }
    Ok(())
}

/// A block of the result; the next new names are those of phis' operands, and those of the others.
fn fetched_block(
    alloc: Global,
    fetches: &[Option<Fetch>],
    ends: &Ends,
    phi_next: &mut ValueId,
    next: &mut ValueId,
    block: &Block,
) -> Result<Block, AllocError>
    ensures value { IfOk result (λ b. b ≡ fetched_block fetches.now ends.now.lists.items phi_next.old next.old block.now) }
    ensures phi_next { OnOk result (phi_next.new ≡ next_after_phis fetches.now phi_next.old block.now.phis) }
    ensures next { OnOk result (next.new ≡ next_after_block fetches.now next.old block.now) }
{
    let phis = fetched_phis(alloc, fetches, phi_next, block.phis.as_slice())?;
    let mut instrs = Items::new(alloc);
    *next = push_all_fetched(alloc, &mut instrs, fetches, *next, block.instrs.as_slice())?;
    push_copies(alloc, &mut instrs, ends.at(block.label))?;
    let term = push_term(alloc, &mut instrs, fetches, next, &block.term)?;
    Ok(Block {
        label: block.label,
        phis,
        instrs,
        term,
    })
}

fn fetched_blocks(
    alloc: Global,
    fetches: &[Option<Fetch>],
    ends: &Ends,
    first: ValueId,
    second: ValueId,
    blocks: &[Block],
) -> Result<(Items<Block>, ValueId), AllocError>
    ensures blocks { IfOk result (λ x. x.0 ≡ fetched_blocks fetches.now ends.now.lists.items first second blocks.now) }
    ensures next { IfOk result (λ x. x.1 ≡ next_after_blocks fetches.now second blocks.now) }
{
    let mut all = Items::new(alloc);
    let mut phi_next = first;
    let mut next = second;
    for block in blocks {
        all.push(fetched_block(alloc, fetches, ends, &mut phi_next, &mut next, block)?)?;
    }
    Ok((all, next))
}

/// The function with each use of a value of the table (by name) fetched anew right before it, a phi's operand at the end of
/// the block from which it comes. The new names are those of the word and a number, first those of phis' operands.
pub fn with_fetches(
    alloc: Global,
    function: &Function,
    fetches: &[Option<Fetch>],
    word: &[u8],
) -> Result<Function, AllocError>
    ensures { IfOk result (λ f. f ≡ with_fetches function.now fetches.now word.now) }
{
    let first = function.names.len();
    let blocks = function.blocks.as_slice();
    let (ends, second) = ends_of(alloc, fetches, first, blocks)?;
    let (blocks, next) = fetched_blocks(alloc, fetches, &ends, first, second, blocks)?;
    Ok(Function {
        name: function.name.copied(alloc)?,
        result: Data::copied(&function.result, alloc)?,
        params: function.params.copied(alloc)?,
        coroutine: function.coroutine,
        blocks,
        names: with_numbered_names(alloc, &function.names, word, next.saturating_sub(first))?,
    })
}
