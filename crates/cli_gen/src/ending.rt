//! The last blocks of a generated coroutine.

ghost use Rattle.std.specs.Prelude.{◌≡◌, IfOk};
ghost use Rattle.cli_gen.specs.Suspending.{clean_block, end_block, free_call, freed_call, end_call, never_block};

use crate::coroutine::Coroutine;
use crate::pieces::{block_of, call, flag_arg, intrinsic_call, pointer_arg, token_arg};
use ir_base::Items;
use ir_model::{Allocator, Block, Callee, Instr, IntWidth, Intrinsic, IrType, Operand, Terminator};
use std::alloc::{AllocError, Global};

/// The block that a final suspend would be resumed at.
pub fn never_block(alloc: Global, coroutine: Coroutine) -> Block
    ensures { result ≡ never_block coroutine }
{
    block_of(
        alloc,
        coroutine.never_label(),
        Items::new(alloc),
        Terminator::Unreachable,
    )
}

fn freed_call(alloc: Global, coroutine: Coroutine) -> Result<Instr, AllocError>
    ensures { IfOk result (λ i. i ≡ freed_call coroutine) }
{
    let args = vec![in alloc;
        token_arg(Operand::Local(coroutine.id_value())),
        pointer_arg(Operand::Local(coroutine.begin_value())),
    ]?;
    intrinsic_call(
        alloc,
        Some(coroutine.freed_value()),
        Some(IrType::pointer()),
        Intrinsic::CoroFree,
        args,
    )
}

fn free_call(alloc: Global, coroutine: Coroutine) -> Result<Instr, AllocError>
    ensures { IfOk result (λ i. i ≡ free_call coroutine) }
{
    let args = vec![in alloc; pointer_arg(Operand::Local(coroutine.freed_value()))]?;
    call(alloc, None, None, Callee::Allocator(Allocator::Free), args)
}

/// The block that frees the frame.
pub fn clean_block(alloc: Global, coroutine: Coroutine) -> Result<Block, AllocError>
    ensures { IfOk result (λ b. b ≡ clean_block coroutine) }
{
    let mut instrs = Items::new(alloc);
    instrs.push(freed_call(alloc, coroutine)?)?;
    instrs.push(free_call(alloc, coroutine)?)?;
    Ok(block_of(
        alloc,
        coroutine.clean_label(),
        instrs,
        Terminator::Jump(coroutine.end_label()),
    ))
}

fn end_call(alloc: Global, coroutine: Coroutine) -> Result<Instr, AllocError>
    ensures { IfOk result (λ i. i ≡ end_call coroutine) }
{
    let args = vec![in alloc;
        pointer_arg(Operand::Local(coroutine.begin_value())),
        flag_arg(Operand::False),
        token_arg(Operand::None),
    ]?;
    intrinsic_call(
        alloc,
        Some(coroutine.end_value()),
        Some(IrType::int(IntWidth::I1)),
        Intrinsic::CoroEnd,
        args,
    )
}

pub fn end_block(alloc: Global, coroutine: Coroutine) -> Result<Block, AllocError>
    ensures { IfOk result (λ b. b ≡ end_block coroutine) }
{
    let mut instrs = Items::new(alloc);
    instrs.push(end_call(alloc, coroutine)?)?;
    let given = pointer_arg(Operand::Local(coroutine.begin_value()));
    Ok(block_of(
        alloc,
        coroutine.end_label(),
        instrs,
        Terminator::Ret(Some(given)),
    ))
}
