//! Small pieces of the generated module.

ghost use Rattle.std.specs.Prelude.{◌≡◌, ◌++◌, IfOk, Some};
ghost use Rattle.ir_model.specs.TypeView.{bits_of};
ghost use Rattle.cli_gen.specs.Pieces.{block_of, call, flag_arg, intrinsic_call, number_arg, pointer_arg, token_arg};
ghost use Rattle.cli_gen.specs.Suspending.{word};

use ir_base::{Items, Name, Short, Text, ValueId};
use ir_model::{Arg, Block, Callee, Instr, IntWidth, Intrinsic, IrType, Operand, Terminator};
use std::alloc::{AllocError, Global};

pub fn number_arg(width: IntWidth, number: u64) -> Arg
    ensures { result ≡ number_arg (bits_of width) number }
{
    Arg {
        ty: IrType::int(width),
        value: Operand::Number(i128::from(number)),
    }
}

pub fn pointer_arg(value: Operand) -> Arg
    ensures { result ≡ pointer_arg value }
{
    Arg {
        ty: IrType::pointer(),
        value,
    }
}

pub fn token_arg(value: Operand) -> Arg
    ensures { result ≡ token_arg value }
{
    Arg {
        ty: IrType::token(),
        value,
    }
}

pub fn flag_arg(value: Operand) -> Arg
    ensures { result ≡ flag_arg value }
{
    Arg {
        ty: IrType::int(IntWidth::I1),
        value,
    }
}

fn short(alloc: Global, args: Vec<Arg>) -> Result<Short<Arg>, AllocError>
    ensures { IfOk result (λ x. x ≡ args.items) }
{
    let mut all = Short::new(alloc);
    for arg in args {
        all.push(arg)?;
    }
    Ok(all)
}

pub fn call(
    alloc: Global,
    id: Option<ValueId>,
    ty: Option<IrType>,
    callee: Callee,
    args: Vec<Arg>,
) -> Result<Instr, AllocError>
    ensures { IfOk result (λ i. i ≡ call id ty callee args.items) }
{
    Ok(Instr::Call {
        result: id,
        must_tail: false,
        ty,
        callee,
        args: short(alloc, args)?,
    })
}

pub fn intrinsic_call(
    alloc: Global,
    id: Option<ValueId>,
    ty: Option<IrType>,
    intrinsic: Intrinsic,
    args: Vec<Arg>,
) -> Result<Instr, AllocError>
    ensures { IfOk result (λ i. i ≡ intrinsic_call id ty intrinsic args.items) }
{
    call(alloc, id, ty, Callee::Intrinsic(intrinsic), args)
}

/// A block without phis.
pub fn block_of(alloc: Global, label: ValueId, instrs: Items<Instr>, term: Terminator) -> Block
    ensures { result ≡ block_of label instrs term }
{
    Block {
        label,
        phis: Items::new(alloc),
        instrs,
        term,
    }
}

/// A name that is this text.
pub fn word(alloc: Global, text: &[u8]) -> Result<Name, AllocError>
    ensures { IfOk result (λ n. n ≡ word text.now) }
{
    Ok(Name::Text(Text::from_bytes(alloc, text)?))
}
