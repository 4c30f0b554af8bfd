//! The allocas of slots that lie in the frame go.

ghost use Rattle.std.specs.Prelude.{◌≡◌, IfOk, filter, map};
ghost use Rattle.pass_addresses.specs.Placing.{lies_outside, turned_block, without_slots};

use ir_base::Items;
use ir_model::{Block, Function, Instr};
use std::alloc::{AllocError, Global};

fn lies_outside(offsets: &[Option<u64>], instr: &Instr) -> bool
    ensures { result ≡ lies_outside offsets.now instr.now }
{
    match instr {
        Instr::Alloca { result: slot, .. } => !matches!(offsets.get(*slot), Some(Some(_))),
        _ => true,
    }
}

fn instrs_without_slots(
    alloc: Global,
    offsets: &[Option<u64>],
    instrs: Items<Instr>,
) -> Result<Items<Instr>, AllocError>
    ensures { IfOk result (λ x. x ≡ filter (lies_outside offsets.now) instrs) }
{
    let mut all = Items::new(alloc);
    for instr in instrs.into_vec() {
        if lies_outside(offsets, &instr) {
            all.push(instr)?;
        }
    }
    Ok(all)
}

fn block_without_slots(
    alloc: Global,
    offsets: &[Option<u64>],
    block: Block,
) -> Result<Block, AllocError>
    ensures { IfOk result (λ x. x ≡ turned_block (filter (lies_outside offsets.now)) block) }
{
    let Block {
        label,
        phis,
        instrs,
        term,
    } = block;
    Ok(Block {
        label,
        phis,
        instrs: instrs_without_slots(alloc, offsets, instrs)?,
        term,
    })
}

fn blocks_without_slots(
    alloc: Global,
    offsets: &[Option<u64>],
    blocks: Items<Block>,
) -> Result<Items<Block>, AllocError>
    ensures { IfOk result (λ x. x ≡ map (turned_block (filter (lies_outside offsets.now))) blocks) }
{
    let mut all = Items::new(alloc);
    for block in blocks.into_vec() {
        all.push(block_without_slots(alloc, offsets, block)?)?;
    }
    Ok(all)
}

/// The function without the allocas of slots that lie in the frame.
pub fn without_slots(
    alloc: Global,
    function: Function,
    offsets: &[Option<u64>],
) -> Result<Function, AllocError>
    ensures { IfOk result (λ f. f ≡ without_slots offsets.now function) }
{
    let Function {
        name,
        result,
        params,
        coroutine,
        blocks,
        names,
    } = function;
    Ok(Function {
        name,
        result,
        params,
        coroutine,
        blocks: blocks_without_slots(alloc, offsets, blocks)?,
        names,
    })
}
