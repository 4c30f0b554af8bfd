//! Calls.

ghost use Rattle.std.specs.Prelude.{◌≡◌, ℕ, IfOk, OnErr, Some, Option, IsFalse};
ghost use Rattle.run_memory.specs.Memory.{Rights};
ghost use Rattle.ir_model.specs.Layout.{same_type};
ghost use Rattle.ir_model.specs.declared.operand.Callee.{Callee as TheCallee};
ghost use Rattle.run_step.specs.declared.effect.Effect.{Effect as TheEffect};
ghost use Rattle.run_step.specs.declared.world.World.{World as TheWorld};
ghost use Rattle.ir_model.specs.declared.module.Function.{Function as TheFunction};
ghost use Rattle.run_step.specs.Values.{with_result as with_result_of, arg_values, value_in};
ghost use Rattle.run_step.specs.Step.{words_of as words_of_values, same_result as same_result_of, fits_params as fits_params_of, fits_function as fits_function_of, indirect_call as indirect_call_of, allocator_call as allocator_call_of, intrinsic_call as intrinsic_call_of, call as call_of, observed, with_length, allocated, Done, copied_bytes};
ghost use Rattle.run_step.specs.Effects.{IsEffect, context, work, is_new_slot, word_of as word_of_value};

use crate::memory_step::risen;
use ir_base::{Cause, Data, Event, FuncId, Items, Name, ValueId, Word};
use ir_model::{Allocator, Arg, Callee, Function, Intrinsic, IrType, Param};
use run_memory::{AccessRights, Kind, Pointer, Value};
use run_step::{Effect, Program, Values, World, literal, pointer_to, to_address, value_of_local};
use std::alloc::{AllocError, Global};

/// Sets the value of the name of a result, where there is one.
pub fn set_result(values: &mut Values, result_name: Option<ValueId>, value: Value)
    ensures { values.new ≡ with_result_of values.old result_name value }
{
    if let Some(name) = result_name {
        values.set(name, Some(value));
    }
}

/// A value as a word, none where it is none.
fn word_of(value: Value) -> Option<Word>
    ensures { result ≡ word_of_value value }
{
    match value {
        Value::Int(word) => Some(word),
        _ => None,
    }
}

/// The values of arguments as words, none where one is none.
fn words_of(
    alloc: Global,
    program: &Program,
    values: &Values,
    args: &[Arg],
) -> Result<Option<Items<Word>>, AllocError>
    ensures { IfOk result (λ words. words ≡ words_of_values (arg_values program.now.«module» values.now args.now)) }
{
    let mut words = Items::new(alloc);
    for arg in args {
        match word_of(program.value_of_arg(values, arg)) {
            Some(word) => words.push(word)?,
            None => return Ok(None),
        }
    }
    Ok(Some(words))
}

fn is_same_type(a: &IrType, b: &IrType) -> bool
    ensures { result ≡ same_type a.now b.now }
{
    a.is_same(b)
}

/// Whether two types of results are the same.
fn same_result(a: &Option<IrType>, b: &Option<IrType>) -> bool
    ensures { result ≡ same_result_of a.now b.now }
{
    match (a, b) {
        (None, None) => true,
        (Some(a), Some(b)) => is_same_type(a, b),
        _ => false,
    }
}

fn fits_params(args: &[Arg], params: &[Param]) -> bool
    ensures { result ≡ fits_params_of args.now params.now }
{
    let mut given = args;
    let mut wanted = params;
    loop {
        match given {
            [] => return wanted.is_empty(),
            [arg, more_given @ ..] => match wanted {
                [] => return false,
                [param, more_wanted @ ..] => {
                    if !is_same_type(&arg.ty, &param.ty) {
                        return false;
                    }
                    given = more_given;
                    wanted = more_wanted;
                }
            },
        }
    }
}

/// Whether a function is of the type of a call.
fn fits_function(ty: &Option<IrType>, args: &[Arg], function: &Function) -> bool
    ensures { result ≡ fits_function_of ty.now args.now (Some function.now) }
{
    same_result(ty, &function.result) && fits_params(args, function.params.as_slice())
}

/// A call of a defined function.
fn enter(
    alloc: Global,
    program: &Program,
    values: &Values,
    func: FuncId,
    args: &[Arg],
    result_name: Option<ValueId>,
    must_tail: bool,
) -> Result<Effect, AllocError>
    ensures done { IfOk result (λ e. e ≡ TheEffect.Enter func (arg_values program.now.«module» values.now args.now) result_name must_tail) }
{
    let args = program.values_of_args(alloc, values, args)?;
    Ok(Effect::Enter {
        func,
        args,
        result: result_name,
        must_tail,
    })
}

/// An observed call.
fn observe(
    alloc: Global,
    program: &Program,
    world: &mut World,
    values: &mut Values,
    declaration: usize,
    ty: &Option<IrType>,
    result_name: Option<ValueId>,
    args: &[Arg],
) -> Result<Effect, AllocError>
    ensures done { (rights : Rights) (f : TheFunction) → IfOk result (λ e. IsEffect e (work world.old values.old) (work world.new values.new) (observed (context program.now.«module» program.now.answers rights f) (work world.old values.old) declaration ty.now result_name (words_of_values (arg_values program.now.«module» values.old args.now)))) }
    ensures no_slot { IfOk result (λ e. IsFalse (is_new_slot e)) }
    ensures kept { OnErr result (work world.new values.new ≡ work world.old values.old) }
{
    let Some(words) = words_of(alloc, program, values, args)? else {
        return Ok(Effect::Stuck(Cause::Poison));
    };
    world.events.push(Event {
        func: declaration,
        args: words,
    })?;
    match ty {
        None => set_result(values, result_name, Value::Poison),
        Some(ty) => {
            let answer = literal(ty, program.answer(world.answers_used));
            world.answers_used = risen(world.answers_used);
            set_result(values, result_name, answer);
        }
    }
    Ok(Effect::Done)
}

/// A call by name.
fn call_named(
    alloc: Global,
    program: &Program,
    world: &mut World,
    values: &mut Values,
    name: &Name,
    ty: &Option<IrType>,
    result_name: Option<ValueId>,
    must_tail: bool,
    args: &[Arg],
) -> Result<Effect, AllocError>
    ensures done { (rights : Rights) (f : TheFunction) → IfOk result (λ e. IsEffect e (work world.old values.old) (work world.new values.new) (call_of (context program.now.«module» program.now.answers rights f) (work world.old values.old) result_name must_tail ty.now (TheCallee.Named name.now) args.now (arg_values program.now.«module» values.old args.now))) }
    ensures no_slot { IfOk result (λ e. IsFalse (is_new_slot e)) }
    ensures kept { OnErr result (work world.new values.new ≡ work world.old values.old) }
{
    match program.function_named(name) {
        Some(func) => enter(alloc, program, values, func, args, result_name, must_tail),
        None => match program.declaration_named(name) {
            Some(declaration) => observe(
                alloc,
                program,
                world,
                values,
                declaration,
                ty,
                result_name,
                args,
            ),
            None => Ok(Effect::Stuck(Cause::Call)),
        },
    }
}

/// A fresh block of an allocator.
fn allocate(
    alloc: Global,
    world: &mut World,
    values: &mut Values,
    result_name: Option<ValueId>,
    size: Value,
) -> Result<Effect, AllocError>
    ensures done { IfOk result (λ e. IsEffect e (work world.old values.old) (work world.new values.new) (with_length size (λ n. Done (allocated (work world.old values.old) result_name n)))) }
    ensures no_slot { IfOk result (λ e. IsFalse (is_new_slot e)) }
    ensures kept { OnErr result (work world.new values.new ≡ work world.old values.old) }
{
    let Value::Int(word) = size else {
        return Ok(Effect::Stuck(Cause::Poison));
    };
    let block = world.memory.fresh(alloc, word.bits, 16, Kind::Allocator)?;
    world.allocs = risen(world.allocs);
    set_result(values, result_name, pointer_to(block));
    Ok(Effect::Done)
}

/// A call of an allocator.
fn call_allocator(
    alloc: Global,
    program: &Program,
    world: &mut World,
    values: &mut Values,
    allocator: Allocator,
    result_name: Option<ValueId>,
    args: &[Arg],
) -> Result<Effect, AllocError>
    ensures done { IfOk result (λ e. IsEffect e (work world.old values.old) (work world.new values.new) (allocator_call_of allocator (work world.old values.old) result_name (arg_values program.now.«module» values.old args.now))) }
    ensures no_slot { IfOk result (λ e. IsFalse (is_new_slot e)) }
    ensures kept { OnErr result (work world.new values.new ≡ work world.old values.old) }
{
    let first = program.nth_value(values, args, 0);
    match allocator {
        Allocator::Malloc => allocate(alloc, world, values, result_name, first),
        Allocator::Znwm => allocate(alloc, world, values, result_name, first),
        Allocator::Free => Ok(Effect::Deallocate(to_address(first))),
        Allocator::ZdlPv => Ok(Effect::Deallocate(to_address(first))),
        Allocator::ZdlPvm => Ok(Effect::Deallocate(to_address(first))),
    }
}

/// A copy of bytes.
fn copy_bytes<R: AccessRights>(
    program: &Program,
    rights: &R,
    world: &mut World,
    values: &Values,
    args: &[Arg],
) -> Effect
    ensures no_slot { IsFalse (is_new_slot result) }
    ensures done { (f : TheFunction) → IsEffect result (work world.old values.now) (work world.new values.now) (copied_bytes (context program.now.«module» program.now.answers (R.rights rights.now) f) (work world.old values.now) (arg_values program.now.«module» values.now args.now)) }
{
    let to = to_address(program.nth_value(values, args, 0));
    let from = to_address(program.nth_value(values, args, 1));
    let Value::Int(length) = program.nth_value(values, args, 2) else {
        return Effect::Stuck(Cause::Poison);
    };
    match world.memory.copy_with(rights, to, from, length.bits) {
        Ok(()) => Effect::Done,
        Err(cause) => Effect::Stuck(cause),
    }
}

/// A call of an intrinsic; those of coroutines are left to the meanings.
fn call_intrinsic<R: AccessRights>(
    program: &Program,
    rights: &R,
    world: &mut World,
    values: &Values,
    intrinsic: Intrinsic,
    args: &[Arg],
) -> Effect
    ensures no_slot { IsFalse (is_new_slot result) }
    ensures done { (f : TheFunction) (result_name : Option ℕ) → IsEffect result (work world.old values.now) (work world.new values.now) (intrinsic_call_of (context program.now.«module» program.now.answers (R.rights rights.now) f) (work world.old values.now) intrinsic result_name args.now (arg_values program.now.«module» values.now args.now)) }
{
    match intrinsic {
        Intrinsic::LifetimeStart => {
            if let Value::Ptr(Pointer::At(block, _)) = program.nth_value(values, args, 1) {
                world.memory.start(block);
            }
            Effect::Done
        }
        Intrinsic::LifetimeEnd => {
            if let Value::Ptr(Pointer::At(block, _)) = program.nth_value(values, args, 1) {
                world.memory.end(block);
            }
            Effect::Done
        }
        Intrinsic::MemcpyI64 | Intrinsic::MemcpyI32 => {
            copy_bytes(program, rights, world, values, args)
        }
        _ => Effect::Coro(intrinsic),
    }
}

/// A call through a pointer, which needs a defined function of the call's type.
fn call_through(
    alloc: Global,
    program: &Program,
    values: &Values,
    name: ValueId,
    ty: &Option<IrType>,
    result_name: Option<ValueId>,
    must_tail: bool,
    args: &[Arg],
) -> Result<Effect, AllocError>
    ensures no_slot { IfOk result (λ e. IsFalse (is_new_slot e)) }
    ensures done { (rights : Rights) (f : TheFunction) (world : TheWorld) → IfOk result (λ e. IsEffect e (work world values.now) (work world values.now) (indirect_call_of (context program.now.«module» program.now.answers rights f) (value_in values.now name) ty.now result_name must_tail args.now (arg_values program.now.«module» values.now args.now))) }
{
    let Value::Ptr(Pointer::Func(func)) = value_of_local(values, name) else {
        return Ok(Effect::Stuck(Cause::Call));
    };
    match program.module.functions.get(func) {
        None => Ok(Effect::Stuck(Cause::Call)),
        Some(function) => {
            if fits_function(ty, args, function) {
                enter(alloc, program, values, func, args, result_name, must_tail)
            } else {
                Ok(Effect::Stuck(Cause::Call))
            }
        }
    }
}

/// A call.
pub fn call<R: AccessRights>(
    alloc: Global,
    program: &Program,
    rights: &R,
    world: &mut World,
    values: &mut Values,
    result_name: Option<ValueId>,
    must_tail: bool,
    ty: &Option<IrType>,
    callee: &Callee,
    args: &[Arg],
) -> Result<Effect, AllocError>
    ensures done { (f : TheFunction) → IfOk result (λ e. IsEffect e (work world.old values.old) (work world.new values.new) (call_of (context program.now.«module» program.now.answers (R.rights rights.now) f) (work world.old values.old) result_name must_tail ty.now callee.now args.now (arg_values program.now.«module» values.old args.now))) }
    ensures no_slot { IfOk result (λ e. IsFalse (is_new_slot e)) }
    ensures kept { OnErr result (work world.new values.new ≡ work world.old values.old) }
{
    match callee {
        Callee::Named(name) => call_named(
            alloc,
            program,
            world,
            values,
            name,
            ty,
            result_name,
            must_tail,
            args,
        ),
        Callee::Allocator(allocator) => {
            call_allocator(alloc, program, world, values, *allocator, result_name, args)
        }
        Callee::Intrinsic(intrinsic) => Ok(call_intrinsic(
            program, rights, world, values, *intrinsic, args,
        )),
        Callee::Local(name) => call_through(
            alloc,
            program,
            values,
            *name,
            ty,
            result_name,
            must_tail,
            args,
        ),
    }
}
