//! `coro.id` names no promise any more.

ghost use Rattle.std.specs.Prelude.{◌≡◌, ◌++◌, IfOk, OnOk, map};
ghost use Rattle.pass_addresses.specs.Placing.{turned_block, with_null, without_promise, without_promise_of};

use ir_base::{Data, Items, Short};
use ir_model::{Arg, Block, Callee, Function, Instr, Intrinsic, Operand};
use std::alloc::{AllocError, Global};

/// The operands with null in place of the second.
fn with_null(alloc: Global, args: &[Arg]) -> Result<Short<Arg>, AllocError>
    ensures { IfOk result (λ x. x ≡ with_null args.now) }
{
    let mut all = Short::new(alloc);
    let mut others = args;
    if let [align, promise, rest @ ..] = args {
        all.push(align.copied(alloc)?)?;
        all.push(Arg {
            ty: promise.ty.copied(alloc)?,
            value: Operand::Null,
        })?;
        others = rest;
    }
    push_copies(alloc, &mut all, others)?;
    Ok(all)
}

fn push_copies(alloc: Global, all: &mut Short<Arg>, args: &[Arg]) -> Result<(), AllocError>
    ensures { OnOk result (all.new ≡ all.old ++ args.now) }
{
    for arg in args {
        all.push(arg.copied(alloc)?)?;
    }
    Ok(())
}

fn without_promise_of(alloc: Global, instr: Instr) -> Result<Instr, AllocError>
    ensures { IfOk result (λ x. x ≡ without_promise_of instr) }
{
    match instr {
        Instr::Call {
            result,
            must_tail,
            ty,
            callee: Callee::Intrinsic(Intrinsic::CoroId),
            args,
        } => Ok(Instr::Call {
            result,
            must_tail,
            ty,
            callee: Callee::Intrinsic(Intrinsic::CoroId),
            args: with_null(alloc, args.as_slice())?,
        }),
        other => Ok(other),
    }
}

fn instrs_without_promise(alloc: Global, instrs: Items<Instr>) -> Result<Items<Instr>, AllocError>
    ensures { IfOk result (λ x. x ≡ map without_promise_of instrs) }
{
    let mut all = Items::new(alloc);
    for instr in instrs.into_vec() {
        all.push(without_promise_of(alloc, instr)?)?;
    }
    Ok(all)
}

fn block_without_promise(alloc: Global, block: Block) -> Result<Block, AllocError>
    ensures { IfOk result (λ x. x ≡ turned_block (map without_promise_of) block) }
{
    let Block {
        label,
        phis,
        instrs,
        term,
    } = block;
    Ok(Block {
        label,
        phis,
        instrs: instrs_without_promise(alloc, instrs)?,
        term,
    })
}

fn blocks_without_promise(alloc: Global, blocks: Items<Block>) -> Result<Items<Block>, AllocError>
    ensures { IfOk result (λ x. x ≡ map (turned_block (map without_promise_of)) blocks) }
{
    let mut all = Items::new(alloc);
    for block in blocks.into_vec() {
        all.push(block_without_promise(alloc, block)?)?;
    }
    Ok(all)
}

/// The function whose `coro.id` names no promise.
pub fn without_promise(alloc: Global, function: Function) -> Result<Function, AllocError>
    ensures { IfOk result (λ f. f ≡ without_promise function) }
{
    let Function {
        name,
        result,
        params,
        coroutine,
        blocks,
        names,
    } = function;
    Ok(Function {
        name,
        result,
        params,
        coroutine,
        blocks: blocks_without_promise(alloc, blocks)?,
        names,
    })
}
