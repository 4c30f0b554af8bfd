//! The pass over functions and the module.

ghost use Rattle.std.specs.Prelude.{◌≡◌, ◌++◌, ◌∷◌, IfOk, map, length};
ghost use Rattle.pass_early.specs.Early.{after_blocks, after_instrs, early_block, early_blocks, early_coroutine, early_named, early_function, early_module};

use crate::begin_name::begin_named;
use crate::frames::renaming_of;
use crate::renaming::Renaming;
use crate::saves::{early_instrs, with_save_names};
use ir_base::{Data, Items, ValueId};
use ir_model::{Block, Function, Intrinsic, Module};
use std::alloc::{AllocError, Global};

/// A block of the result, and the name of the next save.
fn early_block(
    alloc: Global,
    renaming: &Renaming,
    save: ValueId,
    block: &Block,
) -> Result<(Block, ValueId), AllocError>
    ensures block { IfOk result (λ x. x.0 ≡ early_block renaming.now save block.now) }
    ensures next { IfOk result (λ x. x.1 ≡ after_instrs renaming.now save block.now.instrs) }
{
    let (instrs, next) = early_instrs(alloc, renaming, save, block.instrs.as_slice())?;
    let block = Block {
        label: block.label,
        phis: renaming.phis(alloc, block.phis.as_slice())?,
        instrs,
        term: renaming.term(alloc, &block.term)?,
    };
    Ok((block, next))
}

fn early_blocks(
    alloc: Global,
    renaming: &Renaming,
    first: ValueId,
    blocks: &[Block],
) -> Result<(Items<Block>, ValueId), AllocError>
    ensures blocks { IfOk result (λ x. x.0 ≡ early_blocks renaming.now first blocks.now) }
    ensures next { IfOk result (λ x. x.1 ≡ after_blocks renaming.now first blocks.now) }
{
    let mut all = Items::new(alloc);
    let mut save = first;
    for block in blocks {
        let (block, next) = early_block(alloc, renaming, save, block)?;
        all.push(block)?;
        save = next;
    }
    Ok((all, save))
}

fn early_coroutine(
    alloc: Global,
    function: &Function,
    renaming: &Renaming,
) -> Result<Function, AllocError>
    ensures { IfOk result (λ x. x ≡ early_coroutine function.now renaming.now) }
{
    let first = function.names.len();
    let (blocks, next) = early_blocks(alloc, renaming, first, function.blocks.as_slice())?;
    let names = with_save_names(alloc, &function.names, next.saturating_sub(first))?;
    Ok(Function {
        name: function.name.copied(alloc)?,
        result: Data::copied(&function.result, alloc)?,
        params: function.params.copied(alloc)?,
        coroutine: function.coroutine,
        blocks,
        names,
    })
}

/// A coroutine whose begin has a name.
fn early_named(alloc: Global, function: &Function) -> Result<Function, AllocError>
    ensures { IfOk result (λ x. x ≡ early_named function.now) }
{
    let renaming = renaming_of(alloc, function)?;
    early_coroutine(alloc, function, &renaming)
}

fn early_function(alloc: Global, function: &Function) -> Result<Function, AllocError>
    ensures { IfOk result (λ x. x ≡ early_function function.now) }
{
    if !function.coroutine {
        return function.copied(alloc);
    }
    match function.first_result(Intrinsic::CoroBegin) {
        Some(_) => early_named(alloc, function),
        None => early_named(alloc, &begin_named(alloc, function)?),
    }
}

fn early_functions(alloc: Global, functions: &[Function]) -> Result<Items<Function>, AllocError>
    ensures { IfOk result (λ x. x ≡ map early_function functions.now) }
{
    let mut all = Items::new(alloc);
    for function in functions {
        all.push(early_function(alloc, function)?)?;
    }
    Ok(all)
}

/// The module with the saves of its suspends written out and the uses of `coro.frame` turned into uses of begin's value
/// ("Coroutines in LLVM", the pass CoroEarly); a begin whose value has no name gets one. Functions that aren't coroutines, types,
/// globals and declarations stay.
pub fn early(alloc: Global, source: &Module) -> Result<Module, AllocError>
    ensures { IfOk result (λ x. x ≡ early_module source.now) }
{
    Ok(Module {
        types: source.types.copied(alloc)?,
        globals: source.globals.copied(alloc)?,
        declarations: source.declarations.copied(alloc)?,
        functions: early_functions(alloc, source.functions.as_slice())?,
    })
}
