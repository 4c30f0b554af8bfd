//! The names of a generated coroutine.

ghost use Rattle.std.specs.Prelude.{◌≡◌, ◌++◌, IfOk, OnOk};
ghost use Rattle.cli_gen.specs.Pieces.{each};
ghost use Rattle.cli_gen.specs.Suspending.{asking_names, coroutine_names, first_suspend_names, later_suspend_names, memory_names, plain_names, resume_name, slot_names, suspend_names, word};

use crate::coroutine::Coroutine;
use crate::pieces::word;
use ir_base::{Items, Name};
use ir_model::numbered_name;
use std::alloc::{AllocError, Global};

#[tactic(auto, using(crate::proofs::Each::each_step))]
fn push_slot_names(
    alloc: Global,
    all: &mut Items<Name>,
    coroutine: Coroutine,
) -> Result<(), AllocError>
    ensures { OnOk result (all.new ≡ all.old ++ slot_names coroutine) }
{
    for j in 0..coroutine.suspends {
        all.push(numbered_name(alloc, b"s", usize::from(j))?)?;
    }
    Ok(())
}

fn push_asking_names(alloc: Global, all: &mut Items<Name>) -> Result<(), AllocError>
    ensures { OnOk result (all.new ≡ all.old ++ asking_names) }
{
    all.push(word(alloc, b"need")?)?;
    all.push(word(alloc, b"dyn")?)?;
    all.push(word(alloc, b"start")?)?;
    all.push(word(alloc, b"size")?)?;
    all.push(word(alloc, b"m")?)?;
    all.push(word(alloc, b"mem")?)?;
    all.push(word(alloc, b"h")?)?;
    Ok(())
}

fn push_plain_names(alloc: Global, all: &mut Items<Name>) -> Result<(), AllocError>
    ensures { OnOk result (all.new ≡ all.old ++ plain_names) }
{
    all.push(word(alloc, b"size")?)?;
    all.push(word(alloc, b"m")?)?;
    all.push(word(alloc, b"h")?)?;
    Ok(())
}

fn push_memory_names(
    alloc: Global,
    all: &mut Items<Name>,
    coroutine: Coroutine,
) -> Result<(), AllocError>
    ensures { OnOk result (all.new ≡ all.old ++ memory_names coroutine) }
{
    if coroutine.is_even() {
        push_asking_names(alloc, all)
    } else {
        push_plain_names(alloc, all)
    }
}

/// The name of the block at which a suspend is resumed.
fn resume_name(alloc: Global, coroutine: Coroutine, j: u8) -> Result<Name, AllocError>
    ensures { IfOk result (λ n. n ≡ resume_name coroutine j) }
{
    let next = usize::from(j) + 1;
    if next == usize::from(coroutine.suspends) {
        word(alloc, b"never")
    } else {
        numbered_name(alloc, b"b", next)
    }
}

fn push_first_suspend_names(
    alloc: Global,
    all: &mut Items<Name>,
    coroutine: Coroutine,
) -> Result<(), AllocError>
    ensures { OnOk result (all.new ≡ all.old ++ first_suspend_names coroutine) }
{
    all.push(numbered_name(alloc, b"q", 0)?)?;
    all.push(word(alloc, b"end")?)?;
    all.push(resume_name(alloc, coroutine, 0)?)?;
    all.push(numbered_name(alloc, b"d", 0)?)?;
    all.push(word(alloc, b"clean")?)?;
    Ok(())
}

fn push_later_suspend_names(
    alloc: Global,
    all: &mut Items<Name>,
    coroutine: Coroutine,
    j: u8,
) -> Result<(), AllocError>
    ensures { OnOk result (all.new ≡ all.old ++ later_suspend_names coroutine j) }
{
    all.push(numbered_name(alloc, b"y", usize::from(j))?)?;
    all.push(numbered_name(alloc, b"x", usize::from(j))?)?;
    all.push(numbered_name(alloc, b"q", usize::from(j))?)?;
    all.push(resume_name(alloc, coroutine, j)?)?;
    all.push(numbered_name(alloc, b"d", usize::from(j))?)?;
    Ok(())
}

fn push_suspend_names(
    alloc: Global,
    all: &mut Items<Name>,
    coroutine: Coroutine,
    j: u8,
) -> Result<(), AllocError>
    ensures { OnOk result (all.new ≡ all.old ++ suspend_names coroutine j) }
{
    if j == 0 {
        push_first_suspend_names(alloc, all, coroutine)
    } else {
        push_later_suspend_names(alloc, all, coroutine, j)
    }
}

#[tactic(auto, using(crate::proofs::Each::each_step))]
fn push_all_suspend_names(
    alloc: Global,
    all: &mut Items<Name>,
    coroutine: Coroutine,
) -> Result<(), AllocError>
    ensures { OnOk result (all.new ≡ all.old ++ each (suspend_names coroutine) coroutine.suspends) }
{
    for j in 0..coroutine.suspends {
        push_suspend_names(alloc, all, coroutine, j)?;
    }
    Ok(())
}

/// The names of the coroutine, in the order in which the text has them first.
pub fn coroutine_names(alloc: Global, coroutine: Coroutine) -> Result<Items<Name>, AllocError>
    ensures { IfOk result (λ x. x ≡ coroutine_names coroutine) }
{
    let mut all = Items::new(alloc);
    all.push(word(alloc, b"n")?)?;
    all.push(word(alloc, b"entry")?)?;
    push_slot_names(alloc, &mut all, coroutine)?;
    all.push(word(alloc, b"id")?)?;
    push_memory_names(alloc, &mut all, coroutine)?;
    all.push(numbered_name(alloc, b"b", 0)?)?;
    push_all_suspend_names(alloc, &mut all, coroutine)?;
    all.push(word(alloc, b"fm")?)?;
    all.push(word(alloc, b"e")?)?;
    Ok(all)
}
