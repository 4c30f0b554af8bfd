//! Operands that are fetched anew.

ghost use Rattle.std.specs.Prelude.{◌≡◌, ◌+◌, ◌++◌, ◌∷◌, [], IfOk, OnOk, MatchOption, None, Some, slice_get};
ghost use Rattle.ir_parts.specs.Contents.{arg_operands, callee_operands};
ghost use Rattle.pass_fetch.specs.Fetching.{fetch_at, fetch_into, fetch_of, fetch_of_callee, fetched_arg, fetched_args, fetched_callee, fetched_operand, fetches_of, fetches_of_all, next_after, next_after_all};

use crate::fetch::{Fetch, fetch_into, later};
use ir_base::{Data, Items, Short, ValueId};
use ir_model::{Arg, Callee, Instr, Operand};
use std::alloc::{AllocError, Global};

fn fetch_at(fetches: &[Option<Fetch>], id: ValueId) -> Option<&Fetch>
    ensures { MatchOption result (fetch_at (slice_get fetches.now id) ≡ None) (λ f. fetch_at (slice_get fetches.now id) ≡ Some f.now) }
{
    match fetches.get(id) {
        Some(Some(fetch)) => Some(fetch),
        _ => None,
    }
}

/// How an operand is fetched, where it is.
pub fn fetch_of<'a>(fetches: &'a [Option<Fetch>], operand: &Operand) -> Option<&'a Fetch>
    ensures { MatchOption result (fetch_of fetches.now operand.now ≡ None) (λ f. fetch_of fetches.now operand.now ≡ Some f.now) }
{
    match operand {
        Operand::Local(id) => fetch_at(fetches, *id),
        _ => None,
    }
}

/// Adds what fetches into the next new name, and gives that name.
fn push_fetch(
    alloc: Global,
    all: &mut Items<Instr>,
    next: &mut ValueId,
    fetch: &Fetch,
) -> Result<ValueId, AllocError>
    ensures name { IfOk result (λ n. n ≡ next.old) }
    ensures instrs { OnOk result (all.new ≡ all.old ++ fetch_into next.old fetch.now ∷ []) }
    ensures next { OnOk result (next.new ≡ next.old + 1) }
{
    let id = *next;
    all.push(fetch_into(alloc, id, fetch)?)?;
    *next = later(id)?;
    Ok(id)
}

/// An operand in its place, behind what is fetched for it.
pub fn push_operand(
    alloc: Global,
    all: &mut Items<Instr>,
    fetches: &[Option<Fetch>],
    next: &mut ValueId,
    operand: &Operand,
) -> Result<Operand, AllocError>
    ensures value { IfOk result (λ x. x ≡ fetched_operand fetches.now next.old operand.now) }
    ensures instrs { OnOk result (all.new ≡ all.old ++ fetches_of fetches.now next.old operand.now) }
    ensures next { OnOk result (next.new ≡ next_after fetches.now next.old operand.now) }
{
    match fetch_of(fetches, operand) {
        None => operand.copied(alloc),
        Some(fetch) => Ok(Operand::Local(push_fetch(alloc, all, next, fetch)?)),
    }
}

pub fn push_arg(
    alloc: Global,
    all: &mut Items<Instr>,
    fetches: &[Option<Fetch>],
    next: &mut ValueId,
    arg: &Arg,
) -> Result<Arg, AllocError>
    ensures value { IfOk result (λ a. a ≡ fetched_arg fetches.now next.old arg.now) }
    ensures instrs { OnOk result (all.new ≡ all.old ++ fetches_of fetches.now next.old arg.now.value) }
    ensures next { OnOk result (next.new ≡ next_after fetches.now next.old arg.now.value) }
{
    Ok(Arg {
        ty: arg.ty.copied(alloc)?,
        value: push_operand(alloc, all, fetches, next, &arg.value)?,
    })
}

pub fn push_args(
    alloc: Global,
    all: &mut Items<Instr>,
    fetches: &[Option<Fetch>],
    next: &mut ValueId,
    args: &[Arg],
) -> Result<Short<Arg>, AllocError>
    ensures value { IfOk result (λ a. a ≡ fetched_args fetches.now next.old args.now) }
    ensures instrs { OnOk result (all.new ≡ all.old ++ fetches_of_all fetches.now next.old (arg_operands args.now)) }
    ensures next { OnOk result (next.new ≡ next_after_all fetches.now next.old (arg_operands args.now)) }
{
    let mut fetched = Short::new(alloc);
    for arg in args {
        fetched.push(push_arg(alloc, all, fetches, next, arg)?)?;
    }
    Ok(fetched)
}

fn fetch_of_callee<'a>(fetches: &'a [Option<Fetch>], callee: &Callee) -> Option<&'a Fetch>
    ensures { MatchOption result (fetch_of_callee fetches.now callee.now ≡ None) (λ f. fetch_of_callee fetches.now callee.now ≡ Some f.now) }
{
    match callee {
        Callee::Local(id) => fetch_at(fetches, *id),
        _ => None,
    }
}

pub fn push_callee(
    alloc: Global,
    all: &mut Items<Instr>,
    fetches: &[Option<Fetch>],
    next: &mut ValueId,
    callee: &Callee,
) -> Result<Callee, AllocError>
    ensures value { IfOk result (λ c. c ≡ fetched_callee fetches.now next.old callee.now) }
    ensures instrs { OnOk result (all.new ≡ all.old ++ fetches_of_all fetches.now next.old (callee_operands callee.now)) }
    ensures next { OnOk result (next.new ≡ next_after_all fetches.now next.old (callee_operands callee.now)) }
{
    match fetch_of_callee(fetches, callee) {
        None => callee.copied(alloc),
        Some(fetch) => Ok(Callee::Local(push_fetch(alloc, all, next, fetch)?)),
    }
}
