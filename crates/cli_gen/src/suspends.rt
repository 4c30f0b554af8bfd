//! The blocks with suspends, and those where their coroutine is destroyed.

ghost use Rattle.std.specs.Prelude.{◌≡◌, ◌++◌, ◌∷◌, ◌≤◌, ◌<◌, [], IfOk, OnOk};
ghost use Rattle.cli_gen.specs.Suspending.{beginning, destroy_block, going_on, is_final, keeping, marker, no_flags, print_call, shown, sum, suspend_block, suspend_call, suspend_switch};

use crate::coroutine::Coroutine;
use crate::pieces::{
    block_of, call, flag_arg, intrinsic_call, number_arg, pointer_arg, token_arg, word,
};
use crate::places::{PARAMETER, slot};
use ir_base::{BinOp, Flags, Items};
use ir_model::{Arg, Block, Callee, Case, Instr, IntWidth, Intrinsic, IrType, Operand, Terminator};
use std::alloc::{AllocError, Global};

fn marker(alloc: Global, intrinsic: Intrinsic, j: u8) -> Result<Instr, AllocError>
    ensures { IfOk result (λ i. i ≡ marker intrinsic j) }
{
    let args = vec![in alloc;
        number_arg(IntWidth::I64, 24),
        pointer_arg(Operand::Local(slot(j))),
    ]?;
    intrinsic_call(alloc, None, None, intrinsic, args)
}

/// The number that is shown.
fn shown(coroutine: Coroutine, j: u8) -> Arg
    ensures { result ≡ shown coroutine j }
{
    Arg {
        ty: IrType::int(IntWidth::I32),
        value: Operand::Local(if j == 0 {
            PARAMETER
        } else {
            coroutine.summed_value(j)
        }),
    }
}

fn sum(coroutine: Coroutine, j: u8) -> Instr
    ensures { result ≡ sum coroutine j }
{
    Instr::Binary {
        result: coroutine.summed_value(j),
        op: BinOp::Add,
        flags: Flags {
            nuw: false,
            nsw: false,
            exact: false,
            disjoint: false,
        },
        ty: IrType::int(IntWidth::I32),
        left: Operand::Local(coroutine.loaded_value(j)),
        right: Operand::Number(i128::from(coroutine.number) + 1),
    }
}

/// What the block of a suspend but the first begins with.
fn going_on(alloc: Global, coroutine: Coroutine, j: u8) -> Result<Items<Instr>, AllocError>
    ensures { IfOk result (λ x. x ≡ going_on coroutine j) }
{
    let before = j.saturating_sub(1);
    let mut all = Items::new(alloc);
    all.push(Instr::Load {
        result: coroutine.loaded_value(j),
        ty: IrType::int(IntWidth::I32),
        address: Operand::Local(slot(before)),
        align: 8,
    })?;
    all.push(marker(alloc, Intrinsic::LifetimeEnd, before)?)?;
    all.push(sum(coroutine, j))?;
    Ok(all)
}

fn print_call(alloc: Global, arg: Arg) -> Result<Instr, AllocError>
    ensures { IfOk result (λ i. i ≡ print_call arg) }
{
    let callee = Callee::Named(word(alloc, b"print")?);
    call(alloc, None, None, callee, vec![in alloc; arg]?)
}

fn is_final(coroutine: Coroutine, j: u8) -> Operand
    ensures { result ≡ is_final coroutine j }
{
    if u32::from(j) + 1 == u32::from(coroutine.suspends) {
        Operand::True
    } else {
        Operand::False
    }
}

fn suspend_call(alloc: Global, coroutine: Coroutine, j: u8) -> Result<Instr, AllocError>
    ensures { IfOk result (λ i. i ≡ suspend_call coroutine j) }
{
    let args = vec![in alloc; token_arg(Operand::None), flag_arg(is_final(coroutine, j))]?;
    intrinsic_call(
        alloc,
        Some(coroutine.suspend_value(j)),
        Some(IrType::int(IntWidth::I8)),
        Intrinsic::CoroSuspend,
        args,
    )
}

/// Adds what every block with a suspend ends with.
fn push_keeping(
    alloc: Global,
    all: &mut Items<Instr>,
    coroutine: Coroutine,
    j: u8,
) -> Result<(), AllocError>
    ensures { OnOk result (all.new ≡ all.old ++ keeping coroutine j) }
{
    all.push(print_call(alloc, shown(coroutine, j))?)?;
    all.push(marker(alloc, Intrinsic::LifetimeStart, j)?)?;
    all.push(Instr::Store {
        arg: shown(coroutine, j),
        address: Operand::Local(slot(j)),
        align: 8,
    })?;
    all.push(suspend_call(alloc, coroutine, j)?)?;
    Ok(())
}

fn suspend_switch(alloc: Global, coroutine: Coroutine, j: u8) -> Result<Terminator, AllocError>
    ensures { IfOk result (λ t. t ≡ suspend_switch coroutine j) }
{
    let cases = vec![in alloc;
        Case {
            arg: number_arg(IntWidth::I8, 0),
            target: coroutine.resume_label(j),
        },
        Case {
            arg: number_arg(IntWidth::I8, 1),
            target: coroutine.destroy_label(j),
        },
    ]?;
    Ok(Terminator::Switch {
        arg: Arg {
            ty: IrType::int(IntWidth::I8),
            value: Operand::Local(coroutine.suspend_value(j)),
        },
        default: coroutine.end_label(),
        cases: Items::from_vec(cases),
    })
}

/// What the block of a suspend begins with.
fn beginning(alloc: Global, coroutine: Coroutine, j: u8) -> Result<Items<Instr>, AllocError>
    ensures { IfOk result (λ x. x ≡ beginning coroutine j) }
{
    if j == 0 {
        Ok(Items::new(alloc))
    } else {
        going_on(alloc, coroutine, j)
    }
}

/// The block that ends with a suspend.
pub fn suspend_block(alloc: Global, coroutine: Coroutine, j: u8) -> Result<Block, AllocError>
    ensures { IfOk result (λ b. b ≡ suspend_block coroutine j) }
{
    let mut instrs = beginning(alloc, coroutine, j)?;
    push_keeping(alloc, &mut instrs, coroutine, j)?;
    let term = suspend_switch(alloc, coroutine, j)?;
    Ok(block_of(alloc, coroutine.suspend_label(j), instrs, term))
}

/// The block where a coroutine that stands at a suspend is destroyed.
pub fn destroy_block(alloc: Global, coroutine: Coroutine, j: u8) -> Result<Block, AllocError>
    ensures { IfOk result (λ b. b ≡ destroy_block coroutine j) }
{
    let mut instrs = Items::new(alloc);
    instrs.push(marker(alloc, Intrinsic::LifetimeEnd, j)?)?;
    Ok(block_of(
        alloc,
        coroutine.destroy_label(j),
        instrs,
        Terminator::Jump(coroutine.clean_label()),
    ))
}
