//! What a plain machine does by the effect of an instruction.

ghost use Rattle.std.specs.Prelude.{◌≡◌, ◌+◌, IfErr, IfOk, OnOk, OnErr, Ok, Err, IsFalse, ℕ, Option, ◌∷◌, codes, true, false};
ghost use Rattle.ir_model.specs.Names.{function_at, is_noalloc as is_noalloc_name, ends_in};
ghost use Rattle.run_step.specs.Effects.{is_new_slot};
ghost use Rattle.run_step.specs.declared.effect.Effect.{Effect as TheEffect};
ghost use Rattle.run_plain.specs.Plain.{PlainGiven, plain_go_to, plain_call, plain_called, plain_returned, plain_pop, plain_settled, plain_work, counted};
ghost use Rattle.run_plain.specs.PlainEffects.{plain_effect, IsStop, given_of, is_done};

use crate::state::{PlainActivation, PlainState};
use ir_base::{Cause, FuncId, Name, ValueId};
use ir_model::Intrinsic;
use run_memory::Value;
use run_step::{Effect, Program, Stack};
use run_step_code::{
    deallocate, enter_label, first_values, kill_slots, outcome_of, risen, set_result,
};
use std::alloc::{AllocError, Global};

/// Why a step stops.
#[derive(Clone, Copy, Debug, Drop)]
pub enum Stop {
    NoMemory,
    Undefined(Cause),
}

/// Goes on to the next instruction.
fn go_on(state: &mut PlainState, next: usize)
    requires { next ≡ state.old.top.at + 1 }
    ensures { state.new ≡ plain_settled state.old (plain_work state.old) }
{
    state.top.at = next;
}

/// Enters the block of a label.
fn go_to(
    alloc: Global,
    program: &Program,
    state: &mut PlainState,
    label: ValueId,
) -> Result<(), AllocError>
    ensures done { OnOk result (state.new ≡ plain_go_to (given_of program.now) state.old label) }
    ensures kept { OnErr result (state.new ≡ state.old) }
{
    let func = state.top.func;
    let from = state.top.block;
    let block = enter_label(alloc, program, func, from, &mut state.top.values, label)?;
    state.top.block = block;
    state.top.at = 0;
    Ok(())
}

/// An activation at the entry of a function.
pub fn called(
    alloc: Global,
    program: &Program,
    func: FuncId,
    args: &[Value],
    result_name: Option<ValueId>,
) -> Result<PlainActivation, AllocError>
    ensures { IfOk result (λ a. a ≡ plain_called program.now.«module» func args.now result_name) }
{
    Ok(PlainActivation {
        func,
        block: 0,
        at: 0,
        values: first_values(alloc, program, func, args)?,
        slots: Stack::new(alloc),
        result: result_name,
    })
}

fn ends_in_noalloc(text: &[u8]) -> bool
    ensures { result ≡ ends_in (codes ".noalloc") text.now }
{
    let start = text.len().saturating_sub(8);
    text.split_at(start).1 == b".noalloc".as_slice()
}

/// Whether a name ends in `.noalloc`.
fn is_noalloc(name: &Name) -> bool
    ensures { result ≡ is_noalloc_name name.now }
{
    match name {
        Name::Number(_) => false,
        Name::Text(text) => ends_in_noalloc(text.as_bytes()),
    }
}

/// Whether a function allocates no frame.
fn allocates_none(program: &Program, func: FuncId) -> bool
    ensures { result ≡ is_noalloc_name (function_at program.now.«module» func).name }
{
    match program.module.functions.get(func) {
        None => false,
        Some(function) => is_noalloc(&function.name),
    }
}

/// The slots of the topmost activation die.
fn kill_own_slots(state: &mut PlainState)
    ensures { state.new ≡ plain_returned state.old }
{
    kill_slots(&mut state.world.memory, &mut state.top.slots);
}

/// Puts an activation on top; the one below it goes on at a position.
fn push(state: &mut PlainState, next: usize, entered: PlainActivation) -> Result<(), AllocError>
    ensures done { OnOk result (state.new ≡ record state.old { top = entered; below = record state.old.top { at = next } ∷ state.old.below }) }
    ensures kept { OnErr result (state.new ≡ state.old) }
{
    let at = state.top.at;
    state.top.at = next;
    match state.below.push_under(&mut state.top, entered) {
        Ok(()) => Ok(()),
        Err(error) => {
            state.top.at = at;
            Err(error)
        }
    }
}

/// A musttail call, which replaces its activation.
fn enter_in_place(
    alloc: Global,
    program: &Program,
    state: &mut PlainState,
    func: FuncId,
    args: &[Value],
) -> Result<(), AllocError>
    ensures done { (result_name : Option ℕ) → OnOk result (state.new ≡ plain_call (given_of program.now) state.old func args.now result_name true) }
    ensures kept { OnErr result (state.new ≡ state.old) }
{
    let entered = called(alloc, program, func, args, state.top.result)?;
    kill_own_slots(state);
    state.top = entered;
    Ok(())
}

/// A call.
fn enter_above(
    alloc: Global,
    program: &Program,
    state: &mut PlainState,
    next: usize,
    func: FuncId,
    args: &[Value],
    result_name: Option<ValueId>,
) -> Result<(), AllocError>
    requires { next ≡ state.old.top.at + 1 }
    ensures done { OnOk result (state.new ≡ plain_call (given_of program.now) state.old func args.now result_name false) }
    ensures kept { OnErr result (state.new ≡ state.old) }
{
    let entered = called(alloc, program, func, args, result_name)?;
    push(state, next, entered)
}

fn count(program: &Program, state: &mut PlainState, func: FuncId)
    ensures { state.new ≡ counted (given_of program.now) func state.old }
{
    if allocates_none(program, func) {
        state.elided = risen(state.elided);
    }
}

/// Enters a function.
fn enter(
    alloc: Global,
    program: &Program,
    state: &mut PlainState,
    next: usize,
    func: FuncId,
    args: &[Value],
    result_name: Option<ValueId>,
    must_tail: bool,
) -> Result<(), AllocError>
    requires { next ≡ state.old.top.at + 1 }
    ensures done { OnOk result (state.new ≡ counted (given_of program.now) func (plain_call (given_of program.now) state.old func args.now result_name must_tail)) }
    ensures kept { OnErr result (state.new ≡ state.old) }
{
    if must_tail {
        enter_in_place(alloc, program, state, func, args)?;
        count(program, state, func);
        Ok(())
    } else {
        enter_above(alloc, program, state, next, func, args, result_name)?;
        count(program, state, func);
        Ok(())
    }
}

/// Leaves the topmost activation, or ends the run.
fn leave(state: &mut PlainState, value: Option<Value>) -> Result<(), Cause>
    ensures done { OnOk result (plain_pop (plain_returned state.old) value state.old.below ≡ Ok state.new) }
    ensures refused { IfErr result (λ cause. plain_pop (plain_returned state.old) value state.old.below ≡ Err cause) }
    ensures kept { OnErr result (state.new ≡ state.old) }
{
    match state.below.pop() {
        None => {
            let outcome = outcome_of(value)?;
            kill_own_slots(state);
            state.outcome = outcome;
            Ok(())
        }
        Some(activation) => {
            kill_own_slots(state);
            let result_name = state.top.result;
            state.top = activation;
            set_result(
                &mut state.top.values,
                result_name,
                value.unwrap_or(Value::Poison),
            );
            Ok(())
        }
    }
}

/// A deallocation.
fn free(state: &mut PlainState, next: usize, p: Value) -> Result<(), Cause>
    requires { next ≡ state.old.top.at + 1 }
    ensures done { (g : PlainGiven) → OnOk result (plain_effect g state.old (TheEffect.Deallocate p) ≡ Ok state.new) }
    ensures refused { (g : PlainGiven) → IfErr result (λ cause. plain_effect g state.old (TheEffect.Deallocate p) ≡ Err cause) }
    ensures kept { OnErr result (state.new ≡ state.old) }
{
    deallocate(&mut state.world.memory, p)?;
    go_on(state, next);
    Ok(())
}

/// What comes of an effect; `next` is the position behind the instruction.
pub fn act(
    alloc: Global,
    program: &Program,
    state: &mut PlainState,
    next: usize,
    effect: Effect,
) -> Result<(), Stop>
    requires behind { next ≡ state.old.top.at + 1 }
    requires no_slot { IsFalse (is_new_slot effect) }
    ensures done { OnOk result (plain_effect (given_of program.now) state.old effect ≡ Ok state.new) }
    ensures refused { IfErr result (λ stop. IsStop stop (plain_effect (given_of program.now) state.old effect)) }
    ensures undone { OnErr result (IsFalse (is_done effect)) }
    ensures kept { OnErr result (state.new ≡ state.old) }
{
    match effect {
        Effect::Done => {
            go_on(state, next);
            Ok(())
        }
        Effect::NewSlot(_) => unreachable!(),
        Effect::Enter {
            func,
            args,
            result,
            must_tail,
        } => {
            let entered = enter(
                alloc,
                program,
                state,
                next,
                func,
                args.as_slice(),
                result,
                must_tail,
            );
            match entered {
                Ok(()) => Ok(()),
                Err(_) => Err(Stop::NoMemory),
            }
        }
        Effect::Coro(Intrinsic::CoroId) => {
            go_on(state, next);
            Ok(())
        }
        Effect::Coro(_) => Err(Stop::Undefined(Cause::Call)),
        Effect::Deallocate(p) => match free(state, next, p) {
            Ok(()) => Ok(()),
            Err(cause) => Err(Stop::Undefined(cause)),
        },
        Effect::GoTo(label) => match go_to(alloc, program, state, label) {
            Ok(()) => Ok(()),
            Err(_) => Err(Stop::NoMemory),
        },
        Effect::Return(value) => match leave(state, value) {
            Ok(()) => Ok(()),
            Err(cause) => Err(Stop::Undefined(cause)),
        },
        Effect::Stuck(cause) => Err(Stop::Undefined(cause)),
    }
}
