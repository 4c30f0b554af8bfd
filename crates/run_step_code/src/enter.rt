//! Entering a block, a function, and leaving it.

ghost use Rattle.std.specs.Prelude.{◌≡◌, IfOk, IfSome, OnOk, OnErr, Some, None, map, replicate, length, slice_get};
ghost use Rattle.std.specs.Option.{option_copied, unwrap_or};
ghost use Rattle.ir_model.specs.declared.operand.Operand.{Operand as TheOperand};
ghost use Rattle.ir_model.specs.Names.{function_at, position_of};
ghost use Rattle.run_step.specs.Values.{operand_value};
ghost use Rattle.run_step.specs.Step.{incoming_from as incoming_from_label, values_in, entry_values as entry_values_of, with_params, label_of, outcome_of as outcome_of_value, place_at as place_at_position, phis_of};
ghost use Rattle.run_step.specs.Effects.{with_taken};

use ir_base::{BlockId, Cause, FuncId, Item, Items, Outcome, Place, ValueId};
use ir_model::{Block, Function, Incoming, Operand, Param, Phi};
use run_memory::Value;
use run_step::{Program, Values};
use smallvec::SmallVec;
use std::alloc::{AllocError, Global};

/// The operand of a phi where its block is entered from a label, none where it names no such label.
fn incoming_from(incoming: &[Incoming], label: ValueId) -> Option<&Operand>
    ensures { unwrap_or (option_copied result) TheOperand.Poison ≡ incoming_from_label incoming.now label }
{
    for one in incoming {
        if one.from == label {
            return Some(&one.value);
        }
    }
    None
}

/// The value that a phi takes.
fn taken_by(program: &Program, values: &Values, label: ValueId, phi: &Phi) -> Value
    ensures { result ≡ operand_value program.now.«module» values.now phi.now.ty (incoming_from_label phi.now.incoming label) }
{
    match incoming_from(phi.incoming.as_slice(), label) {
        Some(operand) => program.value_of(values, &phi.ty, operand),
        None => Value::Poison,
    }
}

/// The values that phis take, before any of them is set.
fn taken(
    alloc: Global,
    program: &Program,
    values: &Values,
    label: ValueId,
    phis: &[Phi],
) -> Result<SmallVec<Option<Value>, 8>, AllocError>
    ensures { IfOk result (λ all. all.items ≡ map (λ p. Some (operand_value program.now.«module» values.now p.ty (incoming_from_label p.incoming label))) phis.now) }
{
    let mut all = SmallVec::new(alloc);
    for phi in phis {
        all.push(Some(taken_by(program, values, label, phi)))?;
    }
    Ok(all)
}

/// Sets the values of phis.
fn set_taken(values: &mut Values, phis: &[Phi], taken: &[Option<Value>])
    ensures { values.new ≡ with_taken values.old phis.now taken.now }
{
    let mut left = phis;
    let mut given = taken;
    loop {
        match left {
            [] => return,
            [phi, more_left @ ..] => match given {
                [] => return,
                [value, more_given @ ..] => {
                    values.set(phi.result, *value);
                    left = more_left;
                    given = more_given;
                }
            },
        }
    }
}

/// Gives the phis of a block their values where it is entered from a label. Where there is no memory to keep what they
/// take, the values stay as they were.
pub fn take_phis(
    alloc: Global,
    program: &Program,
    values: &mut Values,
    block: &Block,
    label: ValueId,
) -> Result<(), AllocError>
    ensures done { OnOk result (values.new ≡ values_in program.now.«module» (Some block.now) label values.old) }
    ensures kept { OnErr result (values.new ≡ values.old) }
{
    let phis = block.phis.as_slice();
    let all = taken(alloc, program, values, label, phis)?;
    set_taken(values, phis, all.as_slice());
    Ok(())
}

/// So many names without a value.
fn no_values(alloc: Global, count: usize) -> Result<Values, AllocError>
    ensures { IfOk result (λ all. all ≡ replicate count None) }
{
    let none: Option<Value> = None;
    Ok(Items::from_vec(vec![in alloc; none; count]?))
}

/// Sets the values of parameters.
fn set_params(values: &mut Values, params: &[Param], args: &[Value])
    ensures { values.new ≡ with_params values.old params.now args.now }
{
    let mut left = params;
    let mut given = args;
    loop {
        match left {
            [] => return,
            [param, more_left @ ..] => match given {
                [] => return,
                [value, more_given @ ..] => {
                    values.set(param.name, Some(*value));
                    left = more_left;
                    given = more_given;
                }
            },
        }
    }
}

/// The values of a function at its entry.
pub fn entry_values(
    alloc: Global,
    function: &Function,
    args: &[Value],
) -> Result<Values, AllocError>
    ensures { IfOk result (λ values. values ≡ entry_values_of function.now args.now) }
{
    let mut values = no_values(alloc, function.names.len())?;
    set_params(&mut values, function.params.as_slice(), args);
    Ok(values)
}

/// The outcome of the entry's return.
pub fn outcome_of(value: Option<Value>) -> Result<Outcome, Cause>
    ensures { result ≡ outcome_of_value value }
{
    match value {
        None => Ok(Outcome::Returned(None)),
        Some(Value::Int(word)) => Ok(Outcome::Returned(Some(word))),
        _ => Err(Cause::Poison),
    }
}

fn phi_count(function: &Function, block: BlockId) -> usize
    ensures { result ≡ length (phis_of (slice_get function.now.blocks block)) }
{
    match function.blocks.get(block) {
        Some(block) => block.phis.as_slice().len(),
        None => 0,
    }
}

/// The place of an instruction, which counts the block's phis too, none where no `usize` holds it.
pub fn place_at(func: FuncId, function: &Function, block: BlockId, at: usize) -> Option<Place>
    ensures { IfSome result (λ place. place ≡ place_at_position func function.now block at) }
{
    match phi_count(function, block).checked_add(at) {
        Some(instr) => Some(Place {
            item: Item::Function(func),
            block: Some(block),
            instr: Some(instr),
        }),
        None => None,
    }
}

/// The label of a block, 0 where there is no such block.
fn block_label(program: &Program, func: FuncId, block: BlockId) -> ValueId
    ensures { result ≡ label_of (slice_get (function_at program.now.«module» func).blocks block) }
{
    match program.module.functions.get(func) {
        None => 0,
        Some(function) => match function.blocks.get(block) {
            None => 0,
            Some(block) => block.label,
        },
    }
}

/// Takes the phis of a block that is entered from a label.
fn enter_block(
    alloc: Global,
    program: &Program,
    func: FuncId,
    values: &mut Values,
    block: BlockId,
    label: ValueId,
) -> Result<(), AllocError>
    ensures done { OnOk result (values.new ≡ values_in program.now.«module» (slice_get (function_at program.now.«module» func).blocks block) label values.old) }
    ensures kept { OnErr result (values.new ≡ values.old) }
{
    match program.module.functions.get(func) {
        None => Ok(()),
        Some(function) => match function.blocks.get(block) {
            None => Ok(()),
            Some(block) => take_phis(alloc, program, values, block, label),
        },
    }
}

/// Enters the block of a label from a block of the same function, and gives its position. Where there is no memory to keep
/// what its phis take, the values stay as they were.
pub fn enter_label(
    alloc: Global,
    program: &Program,
    func: FuncId,
    from: BlockId,
    values: &mut Values,
    label: ValueId,
) -> Result<BlockId, AllocError>
    ensures done { OnOk result (values.new ≡ values_in program.now.«module» (slice_get (function_at program.now.«module» func).blocks (position_of (function_at program.now.«module» func) label)) (label_of (slice_get (function_at program.now.«module» func).blocks from)) values.old) }
    ensures position { IfOk result (λ block. block ≡ position_of (function_at program.now.«module» func) label) }
    ensures kept { OnErr result (values.new ≡ values.old) }
{
    let from = block_label(program, func, from);
    let block = program.position(func, label);
    enter_block(alloc, program, func, values, block, from)?;
    Ok(block)
}

/// The values at the entry of the function at a position.
pub fn first_values(
    alloc: Global,
    program: &Program,
    func: FuncId,
    args: &[Value],
) -> Result<Values, AllocError>
    ensures { IfOk result (λ values. values ≡ entry_values_of (function_at program.now.«module» func) args.now) }
{
    match program.module.functions.get(func) {
        None => Ok(Items::new(alloc)),
        Some(function) => entry_values(alloc, function, args),
    }
}
