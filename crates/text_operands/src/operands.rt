//! The text of operands.

ghost use Rattle.std.specs.Prelude.{◌≡◌, ◌++◌, OnOk, codes};
ghost use Rattle.std.specs.Fmt.{signed_decimal};
ghost use Rattle.text_canonical.specs.canonical.Operands.{arg_text, args_text, callee_text, global_text, label_text, local_text, more_args_text, name_text, operand_text, result_text};

use crate::types::push_type;
use ir_base::{Name, ValueId};
use ir_model::{Arg, Callee, IrType, Operand};
use itoa::Buffer;
use std::alloc::AllocError;
use text_names::print_name;

/// Writes the name at a position, and nothing where there is none.
pub fn push_name(names: &[Name], id: ValueId, out: &mut Vec<u8>) -> Result<(), AllocError>
    ensures { OnOk result (out.new.items ≡ out.old.items ++ name_text names.now id) }
{
    match names.get(id) {
        Some(name) => print_name(name, out),
        None => Ok(()),
    }
}

pub fn push_local(names: &[Name], id: ValueId, out: &mut Vec<u8>) -> Result<(), AllocError>
    ensures { OnOk result (out.new.items ≡ out.old.items ++ local_text names.now id) }
{
    out.push(b'%')?;
    push_name(names, id, out)
}

pub fn push_label(names: &[Name], id: ValueId, out: &mut Vec<u8>) -> Result<(), AllocError>
    ensures { OnOk result (out.new.items ≡ out.old.items ++ label_text names.now id) }
{
    out.extend_from_slice(b"label ")?;
    push_local(names, id, out)
}

pub fn push_global(name: &Name, out: &mut Vec<u8>) -> Result<(), AllocError>
    ensures { OnOk result (out.new.items ≡ out.old.items ++ global_text name.now) }
{
    out.push(b'@')?;
    print_name(name, out)
}

fn push_literal(number: i128, out: &mut Vec<u8>) -> Result<(), AllocError>
    ensures { OnOk result (out.new.items ≡ out.old.items ++ signed_decimal number) }
{
    let mut buffer = Buffer::new();
    out.extend_from_slice(buffer.format(number).as_bytes())
}

pub fn push_operand(names: &[Name], operand: &Operand, out: &mut Vec<u8>) -> Result<(), AllocError>
    ensures { OnOk result (out.new.items ≡ out.old.items ++ operand_text names.now operand.now) }
{
    match operand {
        Operand::Local(id) => push_local(names, *id, out),
        Operand::Global(name) => push_global(name, out),
        Operand::Number(number) => push_literal(*number, out),
        Operand::True => out.extend_from_slice(b"true"),
        Operand::False => out.extend_from_slice(b"false"),
        Operand::Null => out.extend_from_slice(b"null"),
        Operand::None => out.extend_from_slice(b"none"),
        Operand::Poison => out.extend_from_slice(b"poison"),
    }
}

/// Writes an operand behind its type.
pub fn push_arg(names: &[Name], arg: &Arg, out: &mut Vec<u8>) -> Result<(), AllocError>
    ensures { OnOk result (out.new.items ≡ out.old.items ++ arg_text names.now arg.now) }
{
    push_type(&arg.ty, out)?;
    out.push(b' ')?;
    push_operand(names, &arg.value, out)
}

/// Writes operands, each behind a comma.
pub fn push_more_args(names: &[Name], args: &[Arg], out: &mut Vec<u8>) -> Result<(), AllocError>
    ensures { OnOk result (out.new.items ≡ out.old.items ++ more_args_text names.now args.now) }
{
    for arg in args {
        out.extend_from_slice(b", ")?;
        push_arg(names, arg, out)?;
    }
    Ok(())
}

/// Writes operands with commas between them.
pub fn push_args(names: &[Name], args: &[Arg], out: &mut Vec<u8>) -> Result<(), AllocError>
    ensures { OnOk result (out.new.items ≡ out.old.items ++ args_text names.now args.now) }
{
    let [first, others @ ..] = args else {
        return Ok(());
    };
    push_arg(names, first, out)?;
    push_more_args(names, others, out)
}

/// Writes the name of a function of the table.
fn push_word(word: &[u8], out: &mut Vec<u8>) -> Result<(), AllocError>
    ensures { OnOk result (out.new.items ≡ out.old.items ++ (codes "@" ++ word.now)) }
{
    out.push(b'@')?;
    out.extend_from_slice(word)
}

pub fn push_callee(names: &[Name], callee: &Callee, out: &mut Vec<u8>) -> Result<(), AllocError>
    ensures { OnOk result (out.new.items ≡ out.old.items ++ callee_text names.now callee.now) }
{
    match callee {
        Callee::Named(name) => push_global(name, out),
        Callee::Allocator(allocator) => push_word(allocator.word(), out),
        Callee::Intrinsic(intrinsic) => push_word(intrinsic.word(), out),
        Callee::Local(id) => push_local(names, *id, out),
    }
}

/// Writes a type, or `void`.
pub fn push_result(ty: &Option<IrType>, out: &mut Vec<u8>) -> Result<(), AllocError>
    ensures { OnOk result (out.new.items ≡ out.old.items ++ result_text ty.now) }
{
    match ty {
        Some(ty) => push_type(ty, out),
        None => out.extend_from_slice(b"void"),
    }
}
