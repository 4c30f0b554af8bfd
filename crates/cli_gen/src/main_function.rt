//! The generated `main`.

ghost use Rattle.std.specs.Prelude.{◌≡◌, ◌+◌, ◌*◌, ◌-◌, ◌%◌, ◌<◌, ◌++◌, IfOk, OnOk};
ghost use Rattle.cli_gen.specs.Generated.{destroys, handle, handle_call, main_function, main_instrs, handle_names, main_names, resumes, round, start_call, starts};

use crate::function::coroutine_name;
use crate::pieces::{block_of, call, intrinsic_call, number_arg, pointer_arg, word};
use ir_base::{Items, Name, ValueId};
use ir_model::{
    Callee, Function, Instr, IntWidth, Intrinsic, IrType, Operand, Terminator, numbered_name,
};
use std::alloc::{AllocError, Global};

fn handle(number: u8) -> ValueId
    ensures { result ≡ handle number }
{
    usize::from(number) + 1
}

fn start_call(alloc: Global, seed: u32, number: u8) -> Result<Instr, AllocError>
    ensures { IfOk result (λ i. i ≡ start_call seed number) }
{
    let shown = number_arg(IntWidth::I32, u64::from(seed) + u64::from(number));
    call(
        alloc,
        Some(handle(number)),
        Some(IrType::pointer()),
        Callee::Named(coroutine_name(alloc, number)?),
        vec![in alloc; shown]?,
    )
}

fn handle_call(alloc: Global, intrinsic: Intrinsic, number: u8) -> Result<Instr, AllocError>
    ensures { IfOk result (λ i. i ≡ handle_call intrinsic number) }
{
    let args = vec![in alloc; pointer_arg(Operand::Local(handle(number)))]?;
    intrinsic_call(alloc, None, None, intrinsic, args)
}

#[tactic(auto, using(crate::proofs::Each::each_step))]
fn push_starts(
    alloc: Global,
    all: &mut Items<Instr>,
    seed: u32,
    coroutines: u8,
) -> Result<(), AllocError>
    ensures { OnOk result (all.new ≡ all.old ++ starts seed coroutines) }
{
    for k in 0..coroutines {
        all.push(start_call(alloc, seed, k)?)?;
    }
    Ok(())
}

/// The number of the coroutine whose turn it is.
fn turn(seed: u32, coroutines: u8, j: u8, i: u8) -> u8
    requires { 0 < coroutines }
    ensures { result ≡ (seed + (j + 1) + i) % coroutines }
{
    let sum = u64::from(seed) + (u64::from(j) + 1) + u64::from(i);
    (sum % u64::from(coroutines)) as u8
}

/// Adds the resumes of a round, in which each coroutine has its turn.
#[tactic(auto, using(crate::proofs::Each::each_step))]
fn push_round(
    alloc: Global,
    all: &mut Items<Instr>,
    seed: u32,
    coroutines: u8,
    j: u8,
) -> Result<(), AllocError>
    ensures { OnOk result (all.new ≡ all.old ++ round seed coroutines (j + 1)) }
{
    for i in 0..coroutines {
        let number = turn(seed, coroutines, j, i);
        all.push(handle_call(alloc, Intrinsic::CoroResume, number)?)?;
    }
    Ok(())
}

#[tactic(auto, using(crate::proofs::Each::each_step))]
fn push_resumes(
    alloc: Global,
    all: &mut Items<Instr>,
    seed: u32,
    coroutines: u8,
    suspends: u8,
) -> Result<(), AllocError>
    ensures { OnOk result (all.new ≡ all.old ++ resumes seed coroutines suspends) }
{
    for j in 0..suspends.saturating_sub(1) {
        push_round(alloc, all, seed, coroutines, j)?;
    }
    Ok(())
}

#[tactic(auto, using(crate::proofs::Each::each_step))]
fn push_destroys(alloc: Global, all: &mut Items<Instr>, coroutines: u8) -> Result<(), AllocError>
    ensures { OnOk result (all.new ≡ all.old ++ destroys coroutines) }
{
    for k in 0..coroutines {
        all.push(handle_call(alloc, Intrinsic::CoroDestroy, k)?)?;
    }
    Ok(())
}

fn main_instrs(
    alloc: Global,
    seed: u32,
    coroutines: u8,
    suspends: u8,
) -> Result<Items<Instr>, AllocError>
    ensures { IfOk result (λ x. x ≡ main_instrs seed coroutines suspends) }
{
    let mut all = Items::new(alloc);
    push_starts(alloc, &mut all, seed, coroutines)?;
    push_resumes(alloc, &mut all, seed, coroutines, suspends)?;
    push_destroys(alloc, &mut all, coroutines)?;
    Ok(all)
}

#[tactic(auto, using(crate::proofs::Each::each_step))]
fn push_handle_names(alloc: Global, all: &mut Items<Name>, coroutines: u8) -> Result<(), AllocError>
    ensures { OnOk result (all.new ≡ all.old ++ handle_names coroutines) }
{
    for k in 0..coroutines {
        all.push(numbered_name(alloc, b"h", usize::from(k))?)?;
    }
    Ok(())
}

fn main_names(alloc: Global, coroutines: u8) -> Result<Items<Name>, AllocError>
    ensures { IfOk result (λ x. x ≡ main_names coroutines) }
{
    let mut all = Items::new(alloc);
    all.push(word(alloc, b"entry")?)?;
    push_handle_names(alloc, &mut all, coroutines)?;
    Ok(all)
}

/// The function `main`, which calls each coroutine, resumes them by turns and destroys them.
pub fn main_function(
    alloc: Global,
    seed: u32,
    coroutines: u8,
    suspends: u8,
) -> Result<Function, AllocError>
    ensures { IfOk result (λ f. f ≡ main_function seed coroutines suspends) }
{
    let given = number_arg(IntWidth::I32, u64::from(coroutines) * u64::from(suspends));
    let instrs = main_instrs(alloc, seed, coroutines, suspends)?;
    let mut blocks = Items::new(alloc);
    blocks.push(block_of(alloc, 0, instrs, Terminator::Ret(Some(given))))?;
    Ok(Function {
        name: word(alloc, b"main")?,
        result: Some(IrType::int(IntWidth::I32)),
        params: Items::new(alloc),
        coroutine: false,
        blocks,
        names: main_names(alloc, coroutines)?,
    })
}
