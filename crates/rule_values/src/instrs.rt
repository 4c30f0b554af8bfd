//! What each instruction asks of its types and operands.

ghost use Rattle.std.specs.Prelude.{◌≡◌};
ghost use Rattle.std.specs.List.{list_all};
ghost use Rattle.ir_locals.specs.Tables.{noted};
ghost use Rattle.rule_values.specs.Fits.{fits_integer};
ghost use Rattle.rule_values.specs.Instrs.{is_equality, compares, both_fit, fits_select, is_narrower, casts, is_intrinsic, is_passed, passes, fits_result, is_saved, is_save_or_none, suspends_on, fits_called, fits_call, fits_gep, fits_instr};

use crate::fits::{
    fits, fits_arg, fits_i1, fits_integer, fits_pointer, fits_scalar, is_integer, is_pointer,
    is_same_type, is_scalar, is_token, is_tokenless,
};
use crate::geps::indices_fit;
use crate::kinds::{Kind, width_bits};
use ir_base::{CastOp, Pred, ValueId};
use ir_locals::LocalTable;
use ir_model::{Arg, Callee, Instr, Intrinsic, IrType, Node, Operand};
use ir_tables::Names;

/// The kinds of the values of a function.
pub type Kinds = LocalTable<Kind>;

fn is_equality(pred: Pred) -> bool
    ensures { result ≡ is_equality pred }
{
    match pred {
        Pred::Eq => true,
        Pred::Ne => true,
        _ => false,
    }
}

fn compares(pred: Pred, ty: &IrType) -> bool
    ensures { result ≡ compares pred ty.now }
{
    is_integer(ty) || (is_pointer(ty) && is_equality(pred))
}

fn both_fit(kinds: &Kinds, ty: &IrType, left: &Operand, right: &Operand) -> bool
    ensures { result ≡ both_fit (noted kinds.now) ty.now left.now right.now }
{
    fits(kinds, ty, left) && fits(kinds, ty, right)
}

fn fits_select(kinds: &Kinds, cond: &Operand, yes: &Arg, no: &Arg) -> bool
    ensures { result ≡ fits_select (noted kinds.now) cond.now yes.now no.now }
{
    fits_i1(kinds, cond)
        && (is_same_type(&yes.ty, &no.ty) && (fits_scalar(kinds, yes) && fits_scalar(kinds, no)))
}

fn is_narrower(ty: &IrType, other: &IrType) -> bool
    ensures { result ≡ is_narrower ty.now other.now }
{
    match (ty.node(), other.node()) {
        (Node::Int(narrow), Node::Int(wide)) => width_bits(*narrow) < width_bits(*wide),
        _ => false,
    }
}

fn casts(op: CastOp, from: &IrType, to: &IrType) -> bool
    ensures { result ≡ casts op from.now to.now }
{
    match op {
        CastOp::Trunc => is_narrower(to, from),
        CastOp::Zext => is_narrower(from, to),
        CastOp::Sext => is_narrower(from, to),
    }
}

fn are_integers(kinds: &Kinds, args: &[Arg]) -> bool
    ensures { result ≡ list_all (fits_integer (noted kinds.now)) args.now }
{
    for arg in args {
        if !fits_integer(kinds, arg) {
            return false;
        }
    }
    true
}

// ---- calls

fn is_intrinsic(callee: &Callee) -> bool
    ensures { result ≡ is_intrinsic callee.now }
{
    matches!(callee, Callee::Intrinsic(_))
}

fn is_passed(callee: &Callee, ty: &IrType) -> bool
    ensures { result ≡ is_passed callee.now ty.now }
{
    is_scalar(ty) || (is_intrinsic(callee) && is_token(ty))
}

fn all_pass(kinds: &Kinds, callee: &Callee, args: &[Arg]) -> bool
    ensures { result ≡ list_all (passes (noted kinds.now) callee.now) args.now }
{
    for arg in args {
        if !(is_passed(callee, &arg.ty) && fits_arg(kinds, arg)) {
            return false;
        }
    }
    true
}

fn fits_result(callee: &Callee, ty: &Option<IrType>, result_name: Option<ValueId>) -> bool
    ensures { result ≡ fits_result callee.now ty.now result_name }
{
    match (ty, result_name) {
        (None, None) => true,
        (None, Some(_)) => false,
        (Some(ty), _) => is_passed(callee, ty),
    }
}

fn is_saved(kind: Option<Kind>) -> bool
    ensures { result ≡ is_saved kind }
{
    matches!(kind, Some(Kind::Saved))
}

fn is_save_or_none(kinds: &Kinds, operand: &Operand) -> bool
    ensures { result ≡ is_save_or_none (noted kinds.now) operand.now }
{
    match operand {
        Operand::None => true,
        Operand::Local(local) => is_saved(kinds.get(*local)),
        _ => false,
    }
}

fn suspends_on(kinds: &Kinds, args: &[Arg]) -> bool
    ensures { result ≡ suspends_on (noted kinds.now) args.now }
{
    match args {
        [] => true,
        [token, ..] => is_save_or_none(kinds, &token.value),
    }
}

fn fits_called(kinds: &Kinds, callee: &Callee, args: &[Arg]) -> bool
    ensures { result ≡ fits_called (noted kinds.now) callee.now args.now }
{
    match callee {
        Callee::Local(local) => fits_pointer(kinds, &Operand::Local(*local)),
        Callee::Intrinsic(Intrinsic::CoroSuspend) => suspends_on(kinds, args),
        _ => true,
    }
}

fn fits_call(
    kinds: &Kinds,
    result_name: Option<ValueId>,
    ty: &Option<IrType>,
    callee: &Callee,
    args: &[Arg],
) -> bool
    ensures { result ≡ fits_call (noted kinds.now) result_name ty.now callee.now args.now }
{
    fits_result(callee, ty, result_name)
        && (fits_called(kinds, callee, args) && all_pass(kinds, callee, args))
}

// ---- all instructions

fn fits_gep(names: &Names<'_>, kinds: &Kinds, ty: &IrType, base: &Operand, indices: &[Arg]) -> bool
    ensures { result ≡ fits_gep names.now.source.now (noted kinds.now) ty.now base.now indices.now }
{
    (is_tokenless(ty) && fits_pointer(kinds, base))
        && (are_integers(kinds, indices) && indices_fit(names, ty, indices))
}

/// Whether the types and operands of an instruction are as it asks.
pub fn fits_instr(names: &Names<'_>, kinds: &Kinds, instr: &Instr) -> bool
    ensures { result ≡ fits_instr names.now.source.now (noted kinds.now) instr.now }
{
    match instr {
        Instr::Binary {
            ty,
            left,
            right,
            ..
        } => is_integer(ty) && both_fit(kinds, ty, left, right),
        Instr::Icmp {
            pred,
            ty,
            left,
            right,
            ..
        } => compares(*pred, ty) && both_fit(kinds, ty, left, right),
        Instr::Select { cond, yes, no, .. } => fits_select(kinds, cond, yes, no),
        Instr::Cast { op, arg, to, .. } => casts(*op, &arg.ty, to) && fits_arg(kinds, arg),
        Instr::Alloca { ty, .. } => is_tokenless(ty),
        Instr::Load { ty, address, .. } => is_scalar(ty) && fits_pointer(kinds, address),
        Instr::Store { arg, address, .. } => {
            fits_scalar(kinds, arg) && fits_pointer(kinds, address)
        }
        Instr::Gep {
            ty,
            base,
            indices,
            ..
        } => fits_gep(names, kinds, ty, base, indices.as_slice()),
        Instr::Call {
            result,
            ty,
            callee,
            args,
            ..
        } => fits_call(kinds, *result, ty, callee, args.as_slice()),
    }
}
