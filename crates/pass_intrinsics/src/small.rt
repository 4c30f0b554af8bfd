//! Small instructions and new names.

ghost use Rattle.std.specs.Prelude.{◌≡◌, ◌+◌, ◌*◌, IfOk, OnOk, [], ◌∷◌, ◌++◌};
ghost use Rattle.ir_model.specs.TypeView.{bits_of};
ghost use Rattle.ir_model.specs.Ty.{int};
ghost use Rattle.pass_intrinsics.specs.Lowered.{no_flags, truth_of, number_arg, pointer_arg, set_number, set_truth, address, set_address, store_pointer, load_pointer, call_pointer, operand_at};

use ir_base::{BinOp, Data, Flags, Items, Short, ValueId};
use ir_model::{Arg, Callee, Instr, IntWidth, IrType, Operand};
use std::alloc::{AllocError, Global};

/// The name so many behind another.
pub fn later(id: ValueId, count: usize) -> Result<ValueId, AllocError>
    ensures { IfOk result (λ n. n ≡ id + count) }
{
    match id.checked_add(count) {
        Some(next) => Ok(next),
        None => Err(AllocError),
    }
}

/// The name three times so many behind another.
pub fn thrice_later(id: ValueId, count: usize) -> Result<ValueId, AllocError>
    ensures { IfOk result (λ n. n ≡ id + 3 * count) }
{
    match count.checked_mul(3) {
        Some(distance) => later(id, distance),
        None => Err(AllocError),
    }
}

/// An operand that is a number of a width.
pub fn number_arg(width: IntWidth, number: i128) -> Arg
    ensures { result ≡ number_arg (bits_of width) number }
{
    Arg {
        ty: IrType::int(width),
        value: Operand::Number(number),
    }
}

/// An operand that is a pointer.
pub fn pointer_arg(value: Operand) -> Arg
    ensures { result ≡ pointer_arg value }
{
    Arg {
        ty: IrType::pointer(),
        value,
    }
}

fn one_arg(alloc: Global, arg: Arg) -> Result<Short<Arg>, AllocError>
    ensures { IfOk result (λ x. x ≡ arg ∷ []) }
{
    let mut args = Short::new(alloc);
    args.push(arg)?;
    Ok(args)
}

/// An operation without flags.
fn binary(id: ValueId, op: BinOp, width: IntWidth, left: Operand, right: Operand) -> Instr
    ensures { result ≡ Instr.Binary id op no_flags (int (bits_of width)) left right }
{
    Instr::Binary {
        result: id,
        op,
        flags: Flags {
            nuw: false,
            nsw: false,
            exact: false,
            disjoint: false,
        },
        ty: IrType::int(width),
        left,
        right,
    }
}

/// Adds an instruction that gives a number to a name, where there is one.
pub fn push_number(
    all: &mut Items<Instr>,
    name: Option<ValueId>,
    width: IntWidth,
    number: u64,
) -> Result<(), AllocError>
    ensures { OnOk result (all.new ≡ all.old ++ set_number name (bits_of width) number) }
{
    match name {
        None => Ok(()),
        Some(id) => {
            let number = Operand::Number(i128::from(number));
            all.push(binary(id, BinOp::Add, width, number, Operand::Number(0)))?;
            Ok(())
        }
    }
}

/// Adds an instruction that gives a truth to a name, where there is one.
pub fn push_truth(
    all: &mut Items<Instr>,
    name: Option<ValueId>,
    truth: bool,
) -> Result<(), AllocError>
    ensures { OnOk result (all.new ≡ all.old ++ set_truth name (truth_of truth)) }
{
    match name {
        None => Ok(()),
        Some(id) => {
            all.push(binary(
                id,
                BinOp::And,
                IntWidth::I1,
                truth_of(truth),
                truth_of(truth),
            ))?;
            Ok(())
        }
    }
}

fn truth_of(truth: bool) -> Operand
    ensures { result ≡ truth_of truth }
{
    if truth { Operand::True } else { Operand::False }
}

/// An address so many bytes behind another.
pub fn address(
    alloc: Global,
    id: ValueId,
    base: Operand,
    distance: i128,
) -> Result<Instr, AllocError>
    ensures { IfOk result (λ x. x ≡ address id base distance) }
{
    Ok(Instr::Gep {
        result: id,
        inbounds: false,
        ty: IrType::int(IntWidth::I8),
        base,
        indices: one_arg(alloc, number_arg(IntWidth::I64, distance))?,
    })
}

/// Adds an instruction that gives an address to a name, where there is one.
pub fn push_address(
    alloc: Global,
    all: &mut Items<Instr>,
    name: Option<ValueId>,
    base: Operand,
    distance: i128,
) -> Result<(), AllocError>
    ensures { OnOk result (all.new ≡ all.old ++ set_address name base distance) }
{
    match name {
        None => Ok(()),
        Some(id) => {
            all.push(address(alloc, id, base, distance)?)?;
            Ok(())
        }
    }
}

pub fn store_pointer(value: Operand, to: Operand) -> Instr
    ensures { result ≡ store_pointer value to }
{
    Instr::Store {
        arg: pointer_arg(value),
        address: to,
        align: 8,
    }
}

pub fn load_pointer(id: ValueId, from: Operand) -> Instr
    ensures { result ≡ load_pointer id from }
{
    Instr::Load {
        result: id,
        ty: IrType::pointer(),
        address: from,
        align: 8,
    }
}

/// A call of the function that a name points to, with a pointer.
pub fn call_pointer(alloc: Global, function: ValueId, arg: Operand) -> Result<Instr, AllocError>
    ensures { IfOk result (λ x. x ≡ call_pointer function arg) }
{
    Ok(Instr::Call {
        result: None,
        must_tail: false,
        ty: None,
        callee: Callee::Local(function),
        args: one_arg(alloc, pointer_arg(arg))?,
    })
}

/// The operand at a position of a call, null where there is none.
pub fn operand_at(alloc: Global, args: &[Arg], at: usize) -> Result<Operand, AllocError>
    ensures { IfOk result (λ x. x ≡ operand_at args.now at) }
{
    match args.get(at) {
        Some(arg) => arg.value.copied(alloc),
        None => Ok(Operand::Null),
    }
}
