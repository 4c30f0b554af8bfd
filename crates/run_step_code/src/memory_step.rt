//! Instructions that touch the memory.

ghost use Rattle.std.specs.Prelude.{◌≡◌, IfOk, IfErr, IfSome, IfNone, OnOk, OnErr, Ok, Err, IsFalse, IsTrue, Some, length, []};
ghost use Rattle.run_memory.specs.Memory.{Rights};
ghost use Rattle.ir_model.specs.Names.{function_at};
ghost use Rattle.ir_model.specs.declared.instr.Instr.{Instr as TheInstr};
ghost use Rattle.run_step.specs.declared.world.World.{World as TheWorld};
ghost use Rattle.ir_model.specs.declared.module.Function.{Function as TheFunction};
ghost use Rattle.run_step.specs.Step.{is_alignment as is_alignment_of, instr_action, risen as risen_from, without_slots as without_slots_of, deallocated as deallocated_of, done, set_value, alloca_kind};
ghost use Rattle.run_step.specs.Values.{value_of, with_value};
ghost use Rattle.run_step.specs.declared.effect.Effect.{Effect as TheEffect};
ghost use Rattle.run_step.specs.Effects.{IsEffect, context, is_new_slot, slot_action, slot_memory, work};

use ir_base::{Cause, FuncId, ValueId};
use ir_model::{Arg, IrType, Operand};
use run_ints::Num;
use run_memory::{AccessRights, BlockId, Kind, Memory, Pointer, Value};
use run_step::{
    Effect, Program, Slot, Stack, Values, World, access_of, from_number, pointer_to, to_address,
    to_stored,
};
use std::alloc::{AllocError, Global};

/// Whether a number is an alignment.
pub fn is_alignment(align: u64) -> bool
    ensures { result ≡ is_alignment_of align }
{
    align == 1 || align == 2 || align == 4 || align == 8 || align == 16
}

/// A count that stands still at its type's end.
pub fn risen(count: u128) -> u128
    ensures { result ≡ risen_from count }
{
    count.saturating_add(1)
}

/// Sets the value of a name, where an operation gave one.
pub fn settle(values: &mut Values, name: ValueId, outcome: Result<Value, Cause>) -> Effect
    ensures no_slot { IsFalse (is_new_slot result) }
    ensures done { (world : TheWorld) → IsEffect result (work world values.old) (work world values.new) (done (set_value (work world values.old) name) outcome) }
{
    match outcome {
        Ok(value) => {
            values.set(name, Some(value));
            Effect::Done
        }
        Err(cause) => Effect::Stuck(cause),
    }
}

/// Sets the value of a name, where an operation gave a number.
pub fn settle_number(values: &mut Values, name: ValueId, outcome: Result<Num, Cause>) -> Effect
    ensures no_slot { IsFalse (is_new_slot result) }
    ensures done { (world : TheWorld) → IsEffect result (work world values.old) (work world values.new) (done (λ n. set_value (work world values.old) name (value_of n)) outcome) }
{
    match outcome {
        Ok(number) => {
            values.set(name, Some(from_number(number)));
            Effect::Done
        }
        Err(cause) => Effect::Stuck(cause),
    }
}

/// Sets the value of a name.
pub fn give(values: &mut Values, name: ValueId, value: Value) -> Effect
    ensures effect { result ≡ TheEffect.Done }
    ensures values { values.new ≡ with_value values.old name value }
{
    values.set(name, Some(value));
    Effect::Done
}

/// A load.
pub fn load<R: AccessRights>(
    program: &Program,
    rights: &R,
    world: &World,
    values: &mut Values,
    name: ValueId,
    ty: &IrType,
    address: &Operand,
    align: u64,
) -> Effect
    ensures no_slot { IsFalse (is_new_slot result) }
    ensures done { (f : TheFunction) → IsEffect result (work world.now values.old) (work world.now values.new) (instr_action (context program.now.«module» program.now.answers (R.rights rights.now) f) (work world.now values.old) (TheInstr.Load name ty.now address.now align)) }
{
    if !is_alignment(align) {
        return Effect::Stuck(Cause::Align);
    }
    let from = to_address(program.pointer_in(values, address));
    let outcome = world.memory.load_with(rights, from, access_of(ty), align);
    settle(values, name, outcome)
}

/// A store.
pub fn store<R: AccessRights>(
    program: &Program,
    rights: &R,
    world: &mut World,
    values: &Values,
    arg: &Arg,
    address: &Operand,
    align: u64,
) -> Effect
    ensures no_slot { IsFalse (is_new_slot result) }
    ensures done { (f : TheFunction) → IsEffect result (work world.old values.now) (work world.new values.now) (instr_action (context program.now.«module» program.now.answers (R.rights rights.now) f) (work world.old values.now) (TheInstr.Store arg.now address.now align)) }
{
    if !is_alignment(align) {
        return Effect::Stuck(Cause::Align);
    }
    let to = to_address(program.pointer_in(values, address));
    let value = to_stored(&arg.ty, program.value_of_arg(values, arg));
    match world
        .memory
        .store_with(rights, to, value, access_of(&arg.ty), align)
    {
        Ok(()) => Effect::Done,
        Err(cause) => Effect::Stuck(cause),
    }
}

/// The kind of a function's slots.
fn slot_kind(program: &Program, func: FuncId) -> Kind
    ensures { result ≡ alloca_kind (function_at program.now.«module» func) }
{
    match program.module.functions.get(func) {
        None => Kind::Stack,
        Some(function) => {
            if function.coroutine {
                Kind::Slot
            } else {
                Kind::Stack
            }
        }
    }
}

/// Makes the block of an alloca, which is dead at first where there are markers of it.
fn make_block(
    alloc: Global,
    program: &Program,
    func: FuncId,
    memory: &mut Memory,
    name: ValueId,
    size: u64,
    align: u64,
) -> Result<BlockId, AllocError>
    ensures made { OnOk result (memory.new ≡ slot_memory (function_at program.now.«module» func) memory.old name size align) }
    ensures position { IfOk result (λ block. block ≡ length memory.old) }
    ensures kept { OnErr result (memory.new ≡ memory.old) }
{
    let block = memory.fresh(alloc, size, align, slot_kind(program, func))?;
    if program.has_markers(func, name) {
        memory.end(block);
    }
    Ok(block)
}

/// The slot of an alloca.
fn new_slot(
    alloc: Global,
    program: &Program,
    func: FuncId,
    world: &mut World,
    values: &mut Values,
    name: ValueId,
    ty: &IrType,
    align: u64,
) -> Result<Slot, AllocError>
    requires { IsTrue (is_alignment_of align) }
    ensures done { (rights : Rights) → IfOk result (λ slot. instr_action (context program.now.«module» program.now.answers rights (function_at program.now.«module» func)) (work world.old values.old) (TheInstr.Alloca name ty.now align) ≡ slot_action (Some slot) (work world.new values.new)) }
    ensures slot { IfOk result (λ slot. slot ≡ record { alloca = name; block = length world.old.memory }) }
    ensures kept { OnErr result (work world.new values.new ≡ work world.old values.old) }
{
    let size = program.size_of(ty);
    if size == u64::MAX {
        return Err(AllocError);
    }
    let block = make_block(alloc, program, func, &mut world.memory, name, size, align)?;
    values.set(name, Some(pointer_to(block)));
    Ok(Slot {
        alloca: name,
        block,
    })
}

/// An alloca: its new slot, or none where it is aligned to a number that is no alignment. Where there is no memory for it
/// all stays as it was.
pub fn make_slot(
    alloc: Global,
    program: &Program,
    func: FuncId,
    world: &mut World,
    values: &mut Values,
    name: ValueId,
    ty: &IrType,
    align: u64,
) -> Result<Option<Slot>, AllocError>
    ensures done { (rights : Rights) → IfOk result (λ slot. instr_action (context program.now.«module» program.now.answers rights (function_at program.now.«module» func)) (work world.old values.old) (TheInstr.Alloca name ty.now align) ≡ slot_action slot (work world.new values.new)) }
    ensures slot { IfOk result (λ made. IfSome made (λ slot. slot ≡ record { alloca = name; block = length world.old.memory })) }
    ensures none { IfOk result (λ made. IfNone made (work world.new values.new ≡ work world.old values.old)) }
    ensures kept { OnErr result (work world.new values.new ≡ work world.old values.old) }
{
    if is_alignment(align) {
        Ok(Some(new_slot(alloc, program, func, world, values, name, ty, align)?))
    } else {
        Ok(None)
    }
}

/// Kills the blocks of slots, of which none is left.
pub fn kill_slots(memory: &mut Memory, slots: &mut Stack<Slot>)
    ensures memory { memory.new ≡ without_slots_of memory.old slots.old }
    ensures slots { slots.new ≡ [] }
{
    while let Some(slot) = slots.pop() {
        memory.kill_at(slot.block);
    }
}

/// Frees a block of an allocator where no instance is concerned; null is none.
pub fn deallocate(memory: &mut Memory, p: Value) -> Result<(), Cause>
    ensures freed { OnOk result (deallocated_of memory.old p ≡ Ok memory.new) }
    ensures refused { IfErr result (λ cause. deallocated_of memory.old p ≡ Err cause) }
    ensures kept { OnErr result (memory.new ≡ memory.old) }
{
    match p {
        Value::Ptr(Pointer::Null) => Ok(()),
        _ => memory.kill(p, Kind::Allocator),
    }
}
