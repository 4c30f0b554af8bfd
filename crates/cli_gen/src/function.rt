//! The function of a generated coroutine.

ghost use Rattle.std.specs.Prelude.{◌≡◌, ◌++◌, IfOk, OnOk};
ghost use Rattle.cli_gen.specs.Suspending.{blocks_of_suspend, coroutine_blocks, coroutine_function, coroutine_name, suspend_blocks};

use crate::coroutine::Coroutine;
use crate::ending::{clean_block, end_block, never_block};
use crate::entry::entry_blocks;
use crate::names::coroutine_names;
use crate::places::PARAMETER;
use crate::suspends::{destroy_block, suspend_block};
use ir_base::{Items, Name};
use ir_model::{Block, Function, IntWidth, IrType, Param, numbered_name};
use std::alloc::{AllocError, Global};

fn push_blocks_of_suspend(
    alloc: Global,
    all: &mut Items<Block>,
    coroutine: Coroutine,
    j: u8,
) -> Result<(), AllocError>
    ensures { OnOk result (all.new ≡ all.old ++ blocks_of_suspend coroutine j) }
{
    all.push(suspend_block(alloc, coroutine, j)?)?;
    all.push(destroy_block(alloc, coroutine, j)?)?;
    Ok(())
}

fn push_suspend_blocks(
    alloc: Global,
    all: &mut Items<Block>,
    coroutine: Coroutine,
) -> Result<(), AllocError>
    ensures { OnOk result (all.new ≡ all.old ++ suspend_blocks coroutine) }
{
    for j in 0..coroutine.suspends {
        push_blocks_of_suspend(alloc, all, coroutine, j)?;
    }
    Ok(())
}

fn coroutine_blocks(alloc: Global, coroutine: Coroutine) -> Result<Items<Block>, AllocError>
    ensures { IfOk result (λ x. x ≡ coroutine_blocks coroutine) }
{
    let mut blocks = entry_blocks(alloc, coroutine)?;
    push_suspend_blocks(alloc, &mut blocks, coroutine)?;
    blocks.push(never_block(alloc, coroutine))?;
    blocks.push(clean_block(alloc, coroutine)?)?;
    blocks.push(end_block(alloc, coroutine)?)?;
    Ok(blocks)
}

/// The name of the coroutine of a number.
pub fn coroutine_name(alloc: Global, number: u8) -> Result<Name, AllocError>
    ensures { IfOk result (λ n. n ≡ coroutine_name number) }
{
    numbered_name(alloc, b"c", usize::from(number))
}

/// The coroutine as a function.
pub fn coroutine_function(alloc: Global, coroutine: Coroutine) -> Result<Function, AllocError>
    ensures { IfOk result (λ f. f ≡ coroutine_function coroutine) }
{
    let mut params = Items::new(alloc);
    params.push(Param {
        ty: IrType::int(IntWidth::I32),
        name: PARAMETER,
    })?;
    Ok(Function {
        name: coroutine_name(alloc, coroutine.number)?,
        result: Some(IrType::pointer()),
        params,
        coroutine: true,
        blocks: coroutine_blocks(alloc, coroutine)?,
        names: coroutine_names(alloc, coroutine)?,
    })
}
