//! Instructions and terminators whose operands are fetched anew.

ghost use Rattle.std.specs.Prelude.{◌≡◌, ◌++◌, ◌∷◌, IfOk, OnOk};
ghost use Rattle.ir_parts.specs.Contents.{instr_operands};
ghost use Rattle.pass_fetch.specs.Fetching.{fetches_of_all, next_after_all};
ghost use Rattle.pass_fetch.specs.Instrs.{fetched_instr, fetched_instrs, fetched_term, next_after_instr, next_after_instrs, term_operands, with_fetched};

use crate::fetch::Fetch;
use crate::operands::{push_arg, push_args, push_callee, push_operand};
use ir_base::{Data, Items, ValueId};
use ir_model::{Instr, Terminator};
use std::alloc::{AllocError, Global};

/// An instruction with its operands in their places, behind what is fetched for them.
fn push_operands(
    alloc: Global,
    all: &mut Items<Instr>,
    fetches: &[Option<Fetch>],
    next: &mut ValueId,
    instr: &Instr,
) -> Result<Instr, AllocError>
    ensures value { IfOk result (λ i. i ≡ with_fetched fetches.now next.old instr.now) }
    ensures instrs { OnOk result (all.new ≡ all.old ++ fetches_of_all fetches.now next.old (instr_operands instr.now)) }
    ensures next { OnOk result (next.new ≡ next_after_instr fetches.now next.old instr.now) }
{
    match instr {
        Instr::Binary {
            result,
            op,
            flags,
            ty,
            left,
            right,
        } => Ok(Instr::Binary {
            result: *result,
            op: *op,
            flags: *flags,
            ty: ty.copied(alloc)?,
            left: push_operand(alloc, all, fetches, next, left)?,
            right: push_operand(alloc, all, fetches, next, right)?,
        }),
        Instr::Icmp {
            result,
            pred,
            ty,
            left,
            right,
        } => Ok(Instr::Icmp {
            result: *result,
            pred: *pred,
            ty: ty.copied(alloc)?,
            left: push_operand(alloc, all, fetches, next, left)?,
            right: push_operand(alloc, all, fetches, next, right)?,
        }),
        Instr::Select {
            result,
            cond,
            yes,
            no,
        } => Ok(Instr::Select {
            result: *result,
            cond: push_operand(alloc, all, fetches, next, cond)?,
            yes: push_arg(alloc, all, fetches, next, yes)?,
            no: push_arg(alloc, all, fetches, next, no)?,
        }),
        Instr::Cast {
            result,
            op,
            nneg,
            arg,
            to,
        } => Ok(Instr::Cast {
            result: *result,
            op: *op,
            nneg: *nneg,
            arg: push_arg(alloc, all, fetches, next, arg)?,
            to: to.copied(alloc)?,
        }),
        Instr::Alloca { .. } => instr.copied(alloc),
        Instr::Load {
            result,
            ty,
            address,
            align,
        } => Ok(Instr::Load {
            result: *result,
            ty: ty.copied(alloc)?,
            address: push_operand(alloc, all, fetches, next, address)?,
            align: *align,
        }),
        Instr::Store {
            arg,
            address,
            align,
        } => Ok(Instr::Store {
            arg: push_arg(alloc, all, fetches, next, arg)?,
            address: push_operand(alloc, all, fetches, next, address)?,
            align: *align,
        }),
        Instr::Gep {
            result,
            inbounds,
            ty,
            base,
            indices,
        } => Ok(Instr::Gep {
            result: *result,
            inbounds: *inbounds,
            ty: ty.copied(alloc)?,
            base: push_operand(alloc, all, fetches, next, base)?,
            indices: push_args(alloc, all, fetches, next, indices.as_slice())?,
        }),
        Instr::Call {
            result,
            must_tail,
            ty,
            callee,
            args,
        } => Ok(Instr::Call {
            result: *result,
            must_tail: *must_tail,
            ty: Data::copied(ty, alloc)?,
            callee: push_callee(alloc, all, fetches, next, callee)?,
            args: push_args(alloc, all, fetches, next, args.as_slice())?,
        }),
    }
}

/// Adds the instruction, behind what is fetched for its uses, and gives the next new name.
pub fn push_fetched(
    alloc: Global,
    all: &mut Items<Instr>,
    fetches: &[Option<Fetch>],
    next: ValueId,
    instr: &Instr,
) -> Result<ValueId, AllocError>
    ensures instrs { OnOk result (all.new ≡ all.old ++ fetched_instr fetches.now next instr.now) }
    ensures next { IfOk result (λ n. n ≡ next_after_instr fetches.now next instr.now) }
{
    let mut after = next;
    let instr = push_operands(alloc, all, fetches, &mut after, instr)?;
    all.push(instr)?;
    Ok(after)
}

/// Adds instructions, each behind what is fetched for its uses, and gives the next new name.
pub fn push_all_fetched(
    alloc: Global,
    all: &mut Items<Instr>,
    fetches: &[Option<Fetch>],
    next: ValueId,
    instrs: &[Instr],
) -> Result<ValueId, AllocError>
    ensures instrs { OnOk result (all.new ≡ all.old ++ fetched_instrs fetches.now next instrs.now) }
    ensures next { IfOk result (λ n. n ≡ next_after_instrs fetches.now next instrs.now) }
{
    let mut after = next;
    for instr in instrs {
        after = push_fetched(alloc, all, fetches, after, instr)?;
    }
    Ok(after)
}

/// A terminator with its operand in its place, behind what is fetched for it.
pub fn push_term(
    alloc: Global,
    all: &mut Items<Instr>,
    fetches: &[Option<Fetch>],
    next: &mut ValueId,
    term: &Terminator,
) -> Result<Terminator, AllocError>
    ensures value { IfOk result (λ i. i ≡ fetched_term fetches.now next.old term.now) }
    ensures instrs { OnOk result (all.new ≡ all.old ++ fetches_of_all fetches.now next.old (term_operands term.now)) }
    ensures next { OnOk result (next.new ≡ next_after_all fetches.now next.old (term_operands term.now)) }
{
    match term {
        Terminator::Branch { cond, yes, no } => Ok(Terminator::Branch {
            cond: push_operand(alloc, all, fetches, next, cond)?,
            yes: *yes,
            no: *no,
        }),
        Terminator::Switch {
            arg,
            default,
            cases,
        } => Ok(Terminator::Switch {
            arg: push_arg(alloc, all, fetches, next, arg)?,
            default: *default,
            cases: cases.copied(alloc)?,
        }),
        Terminator::Ret(Some(arg)) => Ok(Terminator::Ret(Some(push_arg(
            alloc, all, fetches, next, arg,
        )?))),
        Terminator::Ret(None) => Ok(Terminator::Ret(None)),
        Terminator::Jump(label) => Ok(Terminator::Jump(*label)),
        Terminator::Unreachable => Ok(Terminator::Unreachable),
    }
}
