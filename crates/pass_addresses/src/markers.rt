//! Markers of slots go where they say nothing any more.

ghost use Rattle.std.specs.Prelude.{◌≡◌, IfOk, filter, map};
ghost use Rattle.pass_addresses.specs.Placing.{is_flagged, marks_flagged, stays, turned_block, without_markers};

use ir_base::{Data, Items};
use ir_model::{Arg, Block, Callee, Function, Instr, Intrinsic, Operand};
use std::alloc::{AllocError, Global};

fn is_flagged(marked: &[bool], operand: &Operand) -> bool
    ensures { result ≡ is_flagged marked.now operand.now }
{
    match operand {
        Operand::Local(id) => marked.get(*id).copied().unwrap_or(false),
        _ => false,
    }
}

fn marks_flagged(marked: &[bool], args: &[Arg]) -> bool
    ensures { result ≡ marks_flagged marked.now args.now }
{
    match args {
        [_, slot, ..] => is_flagged(marked, &slot.value),
        _ => false,
    }
}

fn stays(marked: &[bool], instr: &Instr) -> bool
    ensures { result ≡ stays marked.now instr.now }
{
    match instr {
        Instr::Call {
            callee: Callee::Intrinsic(Intrinsic::LifetimeStart | Intrinsic::LifetimeEnd),
            args,
            ..
        } => marks_flagged(marked, args.as_slice()),
        _ => true,
    }
}

fn marked_instrs(
    alloc: Global,
    marked: &[bool],
    instrs: &[Instr],
) -> Result<Items<Instr>, AllocError>
    ensures { IfOk result (λ x. x ≡ filter (stays marked.now) instrs.now) }
{
    let mut all = Items::new(alloc);
    for instr in instrs {
        if stays(marked, instr) {
            all.push(instr.copied(alloc)?)?;
        }
    }
    Ok(all)
}

fn marked_blocks(
    alloc: Global,
    marked: &[bool],
    blocks: &[Block],
) -> Result<Items<Block>, AllocError>
    ensures { IfOk result (λ x. x ≡ map (turned_block (filter (stays marked.now))) blocks.now) }
{
    let mut all = Items::new(alloc);
    for block in blocks {
        all.push(Block {
            label: block.label,
            phis: block.phis.copied(alloc)?,
            instrs: marked_instrs(alloc, marked, block.instrs.as_slice())?,
            term: block.term.copied(alloc)?,
        })?;
    }
    Ok(all)
}

/// The function without the markers of names that aren't flagged.
pub fn without_markers(
    alloc: Global,
    function: &Function,
    marked: &[bool],
) -> Result<Function, AllocError>
    ensures { IfOk result (λ f. f ≡ without_markers marked.now function.now) }
{
    Ok(Function {
        name: function.name.copied(alloc)?,
        result: Data::copied(&function.result, alloc)?,
        params: function.params.copied(alloc)?,
        coroutine: function.coroutine,
        blocks: marked_blocks(alloc, marked, function.blocks.as_slice())?,
        names: function.names.copied(alloc)?,
    })
}
