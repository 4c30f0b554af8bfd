//! Allocas go to the front of the entry block.

ghost use Rattle.std.specs.Prelude.{◌≡◌, ◌++◌, IfOk, OnOk, filter};
ghost use Rattle.pass_front.specs.Front.{allocas_first, allocas_of as allocas_of_blocks, is_alloca, is_no_alloca, with_allocas_first, with_front_allocas};

use ir_base::{Data, Items};
use ir_model::{Block, Function, Instr};
use std::alloc::{AllocError, Global};

fn is_alloca(instr: &Instr) -> bool
    ensures { result ≡ is_alloca instr.now }
{
    matches!(instr, Instr::Alloca { .. })
}

fn push_allocas(alloc: Global, all: &mut Items<Instr>, instrs: &[Instr]) -> Result<(), AllocError>
    ensures { OnOk result (all.new ≡ all.old ++ filter is_alloca instrs.now) }
{
    for instr in instrs {
        if is_alloca(instr) {
            all.push(instr.copied(alloc)?)?;
        }
    }
    Ok(())
}

/// The allocas of the first of these blocks.
pub fn allocas_of(alloc: Global, blocks: &[Block]) -> Result<Items<Instr>, AllocError>
    ensures { IfOk result (λ x. x ≡ allocas_of_blocks blocks.now) }
{
    let mut all = Items::new(alloc);
    if let [entry, ..] = blocks {
        push_allocas(alloc, &mut all, entry.instrs.as_slice())?;
    }
    Ok(all)
}

fn push_others(alloc: Global, all: &mut Items<Instr>, instrs: &[Instr]) -> Result<(), AllocError>
    ensures { OnOk result (all.new ≡ all.old ++ filter is_no_alloca instrs.now) }
{
    for instr in instrs {
        if !is_alloca(instr) {
            all.push(instr.copied(alloc)?)?;
        }
    }
    Ok(())
}

/// The block with its allocas in front.
fn allocas_first(alloc: Global, block: &Block) -> Result<Block, AllocError>
    ensures { IfOk result (λ b. b ≡ allocas_first block.now) }
{
    let mut instrs = Items::new(alloc);
    push_allocas(alloc, &mut instrs, block.instrs.as_slice())?;
    push_others(alloc, &mut instrs, block.instrs.as_slice())?;
    Ok(Block {
        label: block.label,
        phis: block.phis.copied(alloc)?,
        instrs,
        term: block.term.copied(alloc)?,
    })
}

fn first_set(alloc: Global, blocks: &mut Items<Block>) -> Result<(), AllocError>
    ensures { OnOk result (blocks.new ≡ with_allocas_first blocks.old) }
{
    if let Some(entry) = blocks.get(0) {
        let first = allocas_first(alloc, entry)?;
        blocks.set(0, first);
    }
    Ok(())
}

/// The function with the allocas of its entry block in front, in their order.
pub fn with_front_allocas(alloc: Global, function: Function) -> Result<Function, AllocError>
    ensures { IfOk result (λ f. f ≡ with_front_allocas function) }
{
    let mut function = function;
    first_set(alloc, &mut function.blocks)?;
    Ok(function)
}
