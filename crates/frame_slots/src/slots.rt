//! The slots of a function, and chunks of them.

ghost use Rattle.std.specs.Prelude.{◌≡◌, ◌++◌, ◌*◌, IfOk, OnOk, drop, take};
ghost use Rattle.ir_paths.specs.Slots.{allocas_in, allocas_of};

use ir_base::{Items, ValueId};
use ir_model::{Function, Instr};
use std::alloc::{AllocError, Global};

fn push_allocas(instrs: &[Instr], all: &mut Items<ValueId>) -> Result<(), AllocError>
    ensures { OnOk result (all.new ≡ all.old ++ allocas_in instrs.now) }
{
    for instr in instrs {
        if let Instr::Alloca { result, .. } = instr {
            all.push(*result)?;
        }
    }
    Ok(())
}

/// The slots of a function, the results of its allocas in order of the text.
pub fn slots_of(alloc: Global, function: &Function) -> Result<Items<ValueId>, AllocError>
    ensures { IfOk result (λ all. all ≡ allocas_of function.now) }
{
    let mut all = Items::new(alloc);
    for block in function.blocks.as_slice() {
        push_allocas(block.instrs.as_slice(), &mut all)?;
    }
    Ok(all)
}

/// A list without its first so many.
fn after(slots: &[ValueId], count: usize) -> &[ValueId]
    ensures { result.now ≡ drop count slots.now }
{
    if count < slots.len() {
        &slots[count..]
    } else {
        &[]
    }
}

/// At most so many of a list, the first ones.
fn at_most(slots: &[ValueId], count: usize) -> &[ValueId]
    ensures { result.now ≡ take count slots.now }
{
    if count < slots.len() {
        &slots[..count]
    } else {
        slots
    }
}

/// The chunk of a number of these slots, which are taken 64 at a time. Past the last one it is empty.
pub fn chunk_of(slots: &[ValueId], chunk: usize) -> &[ValueId]
    ensures { result.now ≡ take 64 (drop (64 * chunk) slots.now) }
{
    match chunk.checked_mul(64) {
        None => &[],
        Some(first) => at_most(after(slots, first), 64),
    }
}
