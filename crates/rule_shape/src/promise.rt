//! The promise (rule K10).

ghost use Rattle.std.specs.Prelude.{◌≡◌, ◌++◌, ◌∷◌, [], ◌==◌, flat_map, position, IfOk, OnOk, MatchOption};
ghost use Rattle.rule_windows.specs.ir_paths.Slots.{allocas_in, allocas_of as allocas_in_function};
ghost use Rattle.rule_windows.specs.ir_paths.Windows.{call_operand};
ghost use Rattle.ir_model.specs.declared.operand.Operand.{Operand as TheOperand};
ghost use Rattle.rule_shape.specs.Promise.{slot_of as slot_of_alloca, slot_named, promise_operand, promise_slot as slot_of_promise, is_promise, is_wrong_promise, wrong_promise};

use crate::places::places_where;
use ir_base::{FuncId, Items, Place, SlotId, ValueId};
use ir_model::{Block, Function, Instr, Intrinsic, Operand};
use rule_windows::ir_calls_library::{CallOf, first_call, is_null, operand_of};
use std::alloc::{AllocError, Global};

fn push_alloca(all: &mut Items<ValueId>, instr: &Instr) -> Result<(), AllocError>
    ensures { OnOk result (all.new ≡ all.old ++ allocas_in (instr.now ∷ [])) }
{
    if let Instr::Alloca { result: name, .. } = instr {
        all.push(*name)?;
    }
    Ok(())
}

#[tactic(auto, using(crate::proofs::Allocas::allocas_in_cons))]
fn push_allocas(all: &mut Items<ValueId>, instrs: &[Instr]) -> Result<(), AllocError>
    ensures { OnOk result (all.new ≡ all.old ++ allocas_in instrs.now) }
{
    for instr in instrs {
        push_alloca(all, instr)?;
    }
    Ok(())
}

fn push_by(all: &mut Items<ValueId>, blocks: &[Block]) -> Result<(), AllocError>
    ensures { OnOk result (all.new ≡ all.old ++ flat_map (λ b. allocas_in b.instrs) blocks.now) }
{
    for block in blocks {
        push_allocas(all, block.instrs.as_slice())?;
    }
    Ok(())
}

/// The names of a function's allocas, in order of the text.
pub fn allocas_of(alloc: Global, function: &Function) -> Result<Items<ValueId>, AllocError>
    ensures { IfOk result (λ all. all ≡ allocas_in_function function.now) }
{
    let mut all = Items::new(alloc);
    push_by(&mut all, function.blocks.as_slice())?;
    Ok(all)
}

fn position_in(allocas: &[ValueId], local: ValueId) -> Option<SlotId>
    ensures { result ≡ position (λ a. a == local) allocas.now }
{
    allocas.iter().position(|a| *a == local)
}

/// The position of an alloca among the allocas of its function, in order of the text.
pub fn slot_of(
    alloc: Global,
    function: &Function,
    local: ValueId,
) -> Result<Option<SlotId>, AllocError>
    ensures { IfOk result (λ s. s ≡ slot_of_alloca function.now local) }
{
    let allocas = allocas_of(alloc, function)?;
    Ok(position_in(allocas.as_slice(), local))
}

fn slot_named(
    alloc: Global,
    function: &Function,
    operand: &Operand,
) -> Result<Option<SlotId>, AllocError>
    ensures { IfOk result (λ s. s ≡ slot_named function.now operand.now) }
{
    match operand {
        Operand::Local(local) => slot_of(alloc, function, *local),
        _ => Ok(None),
    }
}

fn second_operand(instr: &Instr) -> Option<&Operand>
    ensures { MatchOption result (call_operand instr.now 1 ≡ TheOperand.None) (λ x. call_operand instr.now 1 ≡ x.now) }
{
    match instr {
        Instr::Call { args, .. } => operand_of(args.as_slice(), 1),
        _ => None,
    }
}

/// The slot of the promise, where id names one.
pub fn promise_slot(alloc: Global, function: &Function) -> Result<Option<SlotId>, AllocError>
    ensures { IfOk result (λ s. s ≡ slot_of_promise function.now) }
{
    match first_call(Intrinsic::CoroId, function) {
        None => Ok(None),
        Some(id) => match second_operand(id) {
            None => Ok(None),
            Some(operand) => slot_named(alloc, function, operand),
        },
    }
}

fn is_promise(alloc: Global, function: &Function, operand: &Operand) -> Result<bool, AllocError>
    ensures { IfOk result (λ b. b ≡ is_promise function.now operand.now) }
{
    Ok(is_null(operand) || slot_named(alloc, function, operand)?.is_some())
}

fn has_wrong_promise(alloc: Global, function: &Function) -> Result<bool, AllocError>
    ensures { IfOk result (λ b. b ≡ is_wrong_promise function.now (promise_operand function.now)) }
{
    match first_call(Intrinsic::CoroId, function) {
        None => Ok(false),
        Some(id) => match second_operand(id) {
            None => Ok(true),
            Some(operand) => Ok(!is_promise(alloc, function, operand)?),
        },
    }
}

/// The place of id where its promise operand is neither null nor an alloca (rule K10).
pub fn first_wrong_promise(
    alloc: Global,
    func: FuncId,
    function: &Function,
) -> Result<Option<Place>, AllocError>
    ensures { IfOk result (λ p. p ≡ wrong_promise func function.now) }
{
    if !function.coroutine {
        return Ok(None);
    }
    let ids = places_where(
        alloc,
        &CallOf {
            intrinsic: Intrinsic::CoroId,
        },
        func,
        function,
    )?;
    if !has_wrong_promise(alloc, function)? {
        return Ok(None);
    }
    Ok(ids.get(0).copied())
}
