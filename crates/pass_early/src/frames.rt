//! Which values are values of `coro.frame`.

ghost use Rattle.std.specs.Prelude.{◌≡◌, IfOk, OnOk, ℕ, Bool, false, List, replicate, length};
ghost use Rattle.pass_early.specs.Early.{flagged, flagged_in, flagged_by, frame_flags, renaming_to, renaming_of};

use crate::renaming::Renaming;
use ir_base::{Items, ValueId};
use ir_model::{Block, Callee, Function, Instr, Intrinsic};
use std::alloc::{AllocError, Global};

fn flag(flags: &mut Items<bool>, instr: &Instr)
    ensures { flags.new ≡ flagged flags.old instr.now }
{
    if let Instr::Call {
        result: Some(id),
        must_tail: _,
        ty: _,
        callee: Callee::Intrinsic(Intrinsic::CoroFrame),
        args: _,
    } = instr
    {
        flags.set(*id, true);
    }
}

fn flag_in(flags: &mut Items<bool>, instrs: &[Instr])
    ensures { flags.new ≡ flagged_in flags.old instrs.now }
{
    for instr in instrs {
        flag(flags, instr);
    }
}

fn flag_by(flags: &mut Items<bool>, blocks: &[Block])
    ensures { flags.new ≡ flagged_by flags.old blocks.now }
{
    for block in blocks {
        flag_in(flags, block.instrs.as_slice());
    }
}

fn no_flags(alloc: Global, count: usize) -> Result<Items<bool>, AllocError>
    ensures { IfOk result (λ x. x ≡ replicate count false) }
{
    Ok(Items::from_vec(Vec::from_elem(alloc, false, count)?))
}

fn frame_flags(alloc: Global, function: &Function) -> Result<Items<bool>, AllocError>
    ensures { IfOk result (λ x. x ≡ frame_flags function.now) }
{
    let mut flags = no_flags(alloc, function.names.len())?;
    flag_by(&mut flags, function.blocks.as_slice());
    Ok(flags)
}

fn renaming_to(
    alloc: Global,
    function: &Function,
    begin: Option<ValueId>,
) -> Result<Renaming, AllocError>
    ensures { IfOk result (λ x. x ≡ renaming_to function.now begin) }
{
    match begin {
        None => Ok(Renaming {
            from: Items::new(alloc),
            to: 0,
        }),
        Some(to) => Ok(Renaming {
            from: frame_flags(alloc, function)?,
            to,
        }),
    }
}

/// The renaming of `coro.frame`'s values to begin's.
pub fn renaming_of(alloc: Global, function: &Function) -> Result<Renaming, AllocError>
    ensures { IfOk result (λ x. x ≡ renaming_of function.now) }
{
    renaming_to(alloc, function, function.first_result(Intrinsic::CoroBegin))
}
