//! The text of instructions.

ghost use Rattle.std.specs.Prelude.{◌≡◌, ◌++◌, OnOk, codes};
ghost use Rattle.text_canonical.specs.canonical.Instrs.{action_text, address_text, align_text, instr_text, musttail_text, pair_text, set_by, set_text};
ghost use Rattle.text_canonical.specs.canonical.Operands.{arg_text, args_text, callee_text, more_args_text, operand_text, result_text};
ghost use Rattle.text_canonical.specs.canonical.Types.{type_text};
ghost use Rattle.text_canonical.specs.canonical.Words.{flag_text};

use ir_base::{Name, ValueId};
use ir_model::{Arg, Callee, Instr, IrType, Operand};
use std::alloc::AllocError;
use text_operands::{
    binary_word, cast_word, pred_word, push_arg, push_args, push_callee, push_flag, push_flags,
    push_local, push_more_args, push_number, push_operand, push_result, push_type,
};

/// The name that an instruction sets.
fn set_by(instr: &Instr) -> Option<ValueId>
    ensures { result ≡ set_by instr.now }
{
    match instr {
        Instr::Binary { result, .. }
        | Instr::Icmp { result, .. }
        | Instr::Select { result, .. }
        | Instr::Cast { result, .. }
        | Instr::Alloca { result, .. }
        | Instr::Load { result, .. }
        | Instr::Gep { result, .. } => Some(*result),
        Instr::Store { .. } => None,
        Instr::Call { result, .. } => *result,
    }
}

/// Writes the name that is set and the sign behind it.
fn push_set(names: &[Name], set: Option<ValueId>, out: &mut Vec<u8>) -> Result<(), AllocError>
    ensures { OnOk result (out.new.items ≡ out.old.items ++ set_text names.now set) }
{
    let Some(id) = set else {
        return Ok(());
    };
    push_local(names, id, out)?;
    out.extend_from_slice(b" = ")
}

/// Writes a type and two operands of it.
fn push_pair(
    names: &[Name],
    ty: &IrType,
    left: &Operand,
    right: &Operand,
    out: &mut Vec<u8>,
) -> Result<(), AllocError>
    ensures { OnOk result (out.new.items ≡ out.old.items ++ pair_text names.now ty.now left.now right.now) }
{
    out.push(b' ')?;
    push_type(ty, out)?;
    out.push(b' ')?;
    push_operand(names, left, out)?;
    out.extend_from_slice(b", ")?;
    push_operand(names, right, out)
}

fn push_select(
    names: &[Name],
    cond: &Operand,
    yes: &Arg,
    no: &Arg,
    out: &mut Vec<u8>,
) -> Result<(), AllocError>
    ensures { OnOk result (out.new.items ≡ out.old.items
        ++ (codes "select i1 " ++ operand_text names.now cond.now ++ codes ", " ++ arg_text names.now yes.now ++ codes ", " ++ arg_text names.now no.now)) }
{
    out.extend_from_slice(b"select i1 ")?;
    push_operand(names, cond, out)?;
    out.extend_from_slice(b", ")?;
    push_arg(names, yes, out)?;
    out.extend_from_slice(b", ")?;
    push_arg(names, no, out)
}

/// Writes what is cast, and to which type.
fn push_cast(names: &[Name], arg: &Arg, to: &IrType, out: &mut Vec<u8>) -> Result<(), AllocError>
    ensures { OnOk result (out.new.items ≡ out.old.items
        ++ (codes " " ++ arg_text names.now arg.now ++ codes " to " ++ type_text to.now)) }
{
    out.push(b' ')?;
    push_arg(names, arg, out)?;
    out.extend_from_slice(b" to ")?;
    push_type(to, out)
}

/// Writes the address of an access.
fn push_address(names: &[Name], address: &Operand, out: &mut Vec<u8>) -> Result<(), AllocError>
    ensures { OnOk result (out.new.items ≡ out.old.items ++ address_text names.now address.now) }
{
    out.extend_from_slice(b", ptr ")?;
    push_operand(names, address, out)
}

/// Writes an alignment.
pub fn push_align(align: u64, out: &mut Vec<u8>) -> Result<(), AllocError>
    ensures { OnOk result (out.new.items ≡ out.old.items ++ align_text align) }
{
    out.extend_from_slice(b", align ")?;
    push_number(align, out)
}

fn push_alloca(ty: &IrType, align: u64, out: &mut Vec<u8>) -> Result<(), AllocError>
    ensures { OnOk result (out.new.items ≡ out.old.items ++ (codes "alloca " ++ type_text ty.now ++ align_text align)) }
{
    out.extend_from_slice(b"alloca ")?;
    push_type(ty, out)?;
    push_align(align, out)
}

fn push_load(
    names: &[Name],
    ty: &IrType,
    address: &Operand,
    align: u64,
    out: &mut Vec<u8>,
) -> Result<(), AllocError>
    ensures { OnOk result (out.new.items ≡ out.old.items
        ++ (codes "load " ++ type_text ty.now ++ address_text names.now address.now ++ align_text align)) }
{
    out.extend_from_slice(b"load ")?;
    push_type(ty, out)?;
    push_address(names, address, out)?;
    push_align(align, out)
}

fn push_store(
    names: &[Name],
    arg: &Arg,
    address: &Operand,
    align: u64,
    out: &mut Vec<u8>,
) -> Result<(), AllocError>
    ensures { OnOk result (out.new.items ≡ out.old.items
        ++ (codes "store " ++ arg_text names.now arg.now ++ address_text names.now address.now ++ align_text align)) }
{
    out.extend_from_slice(b"store ")?;
    push_arg(names, arg, out)?;
    push_address(names, address, out)?;
    push_align(align, out)
}

/// Writes a `getelementptr` behind its flag.
fn push_gep(
    names: &[Name],
    ty: &IrType,
    base: &Operand,
    indices: &[Arg],
    out: &mut Vec<u8>,
) -> Result<(), AllocError>
    ensures { OnOk result (out.new.items ≡ out.old.items
        ++ (codes " " ++ type_text ty.now ++ address_text names.now base.now ++ more_args_text names.now indices.now)) }
{
    out.push(b' ')?;
    push_type(ty, out)?;
    push_address(names, base, out)?;
    push_more_args(names, indices, out)
}

fn push_musttail(must_tail: bool, out: &mut Vec<u8>) -> Result<(), AllocError>
    ensures { OnOk result (out.new.items ≡ out.old.items ++ musttail_text must_tail) }
{
    if must_tail {
        out.extend_from_slice(b"musttail ")
    } else {
        Ok(())
    }
}

/// Writes a call behind the word `musttail`.
fn push_call(
    names: &[Name],
    ty: &Option<IrType>,
    callee: &Callee,
    args: &[Arg],
    out: &mut Vec<u8>,
) -> Result<(), AllocError>
    ensures { OnOk result (out.new.items ≡ out.old.items
        ++ (codes "call " ++ result_text ty.now ++ codes " " ++ callee_text names.now callee.now ++ codes "(" ++ args_text names.now args.now ++ codes ")")) }
{
    out.extend_from_slice(b"call ")?;
    push_result(ty, out)?;
    out.push(b' ')?;
    push_callee(names, callee, out)?;
    out.push(b'(')?;
    push_args(names, args, out)?;
    out.push(b')')?;
    Ok(())
}

/// Writes what an instruction does, without the name that it sets.
fn push_action(names: &[Name], instr: &Instr, out: &mut Vec<u8>) -> Result<(), AllocError>
    ensures { OnOk result (out.new.items ≡ out.old.items ++ action_text names.now instr.now) }
{
    match instr {
        Instr::Binary {
            op,
            flags,
            ty,
            left,
            right,
            ..
        } => {
            out.extend_from_slice(binary_word(*op))?;
            push_flags(*flags, out)?;
            push_pair(names, ty, left, right, out)
        }
        Instr::Icmp {
            pred,
            ty,
            left,
            right,
            ..
        } => {
            out.extend_from_slice(b"icmp ")?;
            out.extend_from_slice(pred_word(*pred))?;
            push_pair(names, ty, left, right, out)
        }
        Instr::Select { cond, yes, no, .. } => push_select(names, cond, yes, no, out),
        Instr::Cast {
            op,
            nneg,
            arg,
            to,
            ..
        } => {
            out.extend_from_slice(cast_word(*op))?;
            push_flag(*nneg, b"nneg", out)?;
            push_cast(names, arg, to, out)
        }
        Instr::Alloca { ty, align, .. } => push_alloca(ty, *align, out),
        Instr::Load {
            ty,
            address,
            align,
            ..
        } => push_load(names, ty, address, *align, out),
        Instr::Store {
            arg,
            address,
            align,
        } => push_store(names, arg, address, *align, out),
        Instr::Gep {
            inbounds,
            ty,
            base,
            indices,
            ..
        } => {
            out.extend_from_slice(b"getelementptr")?;
            push_flag(*inbounds, b"inbounds", out)?;
            push_gep(names, ty, base, indices.as_slice(), out)
        }
        Instr::Call {
            must_tail,
            ty,
            callee,
            args,
            ..
        } => {
            push_musttail(*must_tail, out)?;
            push_call(names, ty, callee, args.as_slice(), out)
        }
    }
}

/// Writes an instruction.
pub fn push_instr(names: &[Name], instr: &Instr, out: &mut Vec<u8>) -> Result<(), AllocError>
    ensures { OnOk result (out.new.items ≡ out.old.items ++ instr_text names.now instr.now) }
{
    push_set(names, set_by(instr), out)?;
    push_action(names, instr, out)
}
