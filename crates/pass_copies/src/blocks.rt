//! Blocks in which slots are fetched before begin and copied behind it.

ghost use Rattle.std.specs.Prelude.{◌≡◌, ◌++◌, ◌∷◌, [], IfOk, OnOk, if◌then◌else◌};
ghost use Rattle.pass_fetch.specs.Instrs.{fetched_instr};
ghost use Rattle.pass_copies.specs.Uses.{flag_at};
ghost use Rattle.pass_copies.specs.BeginCopies.{is_fetched, behind, copied_instr, after_instr, copied_instrs, after_instrs, block_front, copied_block, after_block, copied_blocks, after_blocks};

use crate::copying::Copying;
use crate::uses::{flag_at, is_access, is_begin, still_before};
use crate::written::{push_begin_copies, push_puts};
use ir_base::{Data, Items, ValueId};
use ir_model::{Block, Instr};
use pass_fetch::push_fetched;
use std::alloc::{AllocError, Global};

fn is_fetched(is_before: bool, instr: &Instr) -> bool
    ensures { result ≡ is_fetched is_before instr.now }
{
    is_before && is_access(instr)
}

fn push_behind(
    alloc: Global,
    all: &mut Items<Instr>,
    copying: &Copying,
    instr: &Instr,
) -> Result<(), AllocError>
    ensures { OnOk result (all.new ≡ all.old ++ behind copying.now instr.now) }
{
    if is_begin(instr) {
        push_begin_copies(alloc, all, copying.slots.as_slice())?;
    }
    Ok(())
}

/// Adds an instruction with what is fetched for it, and gives the next new name.
fn push_one(
    alloc: Global,
    all: &mut Items<Instr>,
    copying: &Copying,
    is_before: bool,
    next: ValueId,
    instr: &Instr,
) -> Result<ValueId, AllocError>
    ensures instrs { OnOk result (all.new ≡ all.old ++ (if is_fetched is_before instr.now then fetched_instr copying.now.fetches next instr.now else instr.now ∷ [])) }
    ensures next { IfOk result (λ n. n ≡ after_instr copying.now is_before next instr.now) }
{
    if is_fetched(is_before, instr) {
        push_fetched(alloc, all, copying.fetches.as_slice(), next, instr)
    } else {
        all.push(instr.copied(alloc)?)?;
        Ok(next)
    }
}

/// Adds an instruction with what stands before and behind it, and gives the next new name.
fn push_instr(
    alloc: Global,
    all: &mut Items<Instr>,
    copying: &Copying,
    is_before: bool,
    next: ValueId,
    instr: &Instr,
) -> Result<ValueId, AllocError>
    ensures instrs { OnOk result (all.new ≡ all.old ++ copied_instr copying.now is_before next instr.now) }
    ensures next { IfOk result (λ n. n ≡ after_instr copying.now is_before next instr.now) }
{
    let next = push_one(alloc, all, copying, is_before, next, instr)?;
    push_behind(alloc, all, copying, instr)?;
    Ok(next)
}

/// Adds the instructions of a block, and gives the next new name.
fn push_instrs(
    alloc: Global,
    all: &mut Items<Instr>,
    copying: &Copying,
    first_before: bool,
    first: ValueId,
    instrs: &[Instr],
) -> Result<ValueId, AllocError>
    ensures instrs { OnOk result (all.new ≡ all.old ++ copied_instrs copying.now first_before first instrs.now) }
    ensures next { IfOk result (λ n. n ≡ after_instrs copying.now first_before first instrs.now) }
{
    let mut is_before = first_before;
    let mut next = first;
    for instr in instrs {
        next = push_instr(alloc, all, copying, is_before, next, instr)?;
        is_before = still_before(is_before, instr);
    }
    Ok(next)
}

fn push_front(all: &mut Items<Instr>, copying: &Copying, label: ValueId) -> Result<(), AllocError>
    ensures { OnOk result (all.new ≡ all.old ++ block_front copying.now label) }
{
    if flag_at(copying.resumed.as_slice(), label) {
        push_puts(all, copying.slots.as_slice())?;
    }
    Ok(())
}

/// A block behind what stands at its front, and the next new name.
fn copied_block(
    alloc: Global,
    copying: &Copying,
    before: &[bool],
    front: Items<Instr>,
    next: ValueId,
    block: &Block,
) -> Result<(Block, ValueId), AllocError>
    ensures block { IfOk result (λ x. x.0 ≡ copied_block copying.now before.now front next block.now) }
    ensures next { IfOk result (λ x. x.1 ≡ after_block copying.now before.now next block.now) }
{
    let is_before = flag_at(before, block.label);
    let mut instrs = front;
    push_front(&mut instrs, copying, block.label)?;
    let after = push_instrs(
        alloc,
        &mut instrs,
        copying,
        is_before,
        next,
        block.instrs.as_slice(),
    )?;
    let copied = Block {
        label: block.label,
        phis: block.phis.copied(alloc)?,
        instrs,
        term: block.term.copied(alloc)?,
    };
    Ok((copied, after))
}

/// The blocks, of which the first has something at its front, and the next new name.
pub fn copied_blocks(
    alloc: Global,
    copying: &Copying,
    before: &[bool],
    entry_front: Items<Instr>,
    first: ValueId,
    blocks: &[Block],
) -> Result<(Items<Block>, ValueId), AllocError>
    ensures blocks { IfOk result (λ x. x.0 ≡ copied_blocks copying.now before.now entry_front first blocks.now) }
    ensures next { IfOk result (λ x. x.1 ≡ after_blocks copying.now before.now first blocks.now) }
{
    let mut all = Items::new(alloc);
    let mut front = entry_front;
    let mut next = first;
    for block in blocks {
        let (copied, after) = copied_block(alloc, copying, before, front, next, block)?;
        all.push(copied)?;
        front = Items::new(alloc);
        next = after;
    }
    Ok((all, next))
}
