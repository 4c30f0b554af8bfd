//! Calls and returns.

ghost use Rattle.std.specs.Prelude.{◌≡◌, ◌+◌, IfErr, IfOk, OnOk, OnErr, Ok, Err, slice_get, ◌∷◌, None, [], false};
ghost use Rattle.ir_model.specs.Names.{function_at};
ghost use Rattle.run_source.specs.Source.{called as called_at, enter as enter_function, mode_of as mode_of_function, return as return_from, returned, pop, push as push_on};
ghost use Rattle.run_source.specs.SourceEffects.{given_of};
ghost use Rattle.run_source.specs.declared.state.Mode.{Mode as TheMode};

use crate::state::{Activation, Mode, State};
use ir_base::{Cause, FuncId, Outcome, ValueId};
use run_memory::Value;
use run_source_tables::SourceProgram;
use run_source_tables::run_step_library::{Program, Stack};
use run_step_code::{first_values, kill_slots, outcome_of, set_result};
use std::alloc::{AllocError, Global};

/// An activation at the entry of a function.
pub fn called(
    alloc: Global,
    program: &Program,
    func: FuncId,
    args: &[Value],
    result_name: Option<ValueId>,
    mode: Mode,
) -> Result<Activation, AllocError>
    ensures { IfOk result (λ a. a ≡ called_at program.now.«module» func args.now result_name mode) }
{
    Ok(Activation {
        func,
        block: 0,
        at: 0,
        values: first_values(alloc, program, func, args)?,
        slots: Stack::new(alloc),
        result: result_name,
        mode,
        instance: None,
        has_left: false,
    })
}

/// How an activation of the function at a position begins.
fn mode_of(program: &Program, func: FuncId) -> Mode
    ensures { result ≡ mode_of_function (function_at program.now.«module» func) }
{
    match program.module.functions.get(func) {
        None => Mode::Plain,
        Some(function) => {
            if function.coroutine {
                Mode::Ramp
            } else {
                Mode::Plain
            }
        }
    }
}

/// Puts an activation on top; the one below it goes on at a position.
pub fn push(state: &mut State, next: usize, entered: Activation) -> Result<(), AllocError>
    requires { next ≡ state.old.top.at + 1 }
    ensures done { OnOk result (state.new ≡ push_on state.old entered) }
    ensures kept { OnErr result (state.new ≡ state.old) }
{
    let at = state.top.at;
    state.top.at = next;
    match state.below.push_under(&mut state.top, entered) {
        Ok(()) => Ok(()),
        Err(error) => {
            state.top.at = at;
            Err(error)
        }
    }
}

/// A call of a defined function.
pub fn enter(
    alloc: Global,
    given: &SourceProgram,
    state: &mut State,
    next: usize,
    func: FuncId,
    args: &[Value],
    result_name: Option<ValueId>,
) -> Result<(), AllocError>
    requires { next ≡ state.old.top.at + 1 }
    ensures done { OnOk result (state.new ≡ enter_function (given_of given.now) state.old func args.now result_name) }
    ensures kept { OnErr result (state.new ≡ state.old) }
{
    let mode = mode_of(&given.program, func);
    let entered = called(alloc, &given.program, func, args, result_name, mode)?;
    push(state, next, entered)
}

/// The slots that are the topmost activation's own die.
fn kill_own_slots(state: &mut State)
    ensures { state.new ≡ returned state.old }
{
    kill_slots(&mut state.world.memory, &mut state.top.slots);
}

/// Leaves the topmost activation, or ends the run.
pub fn leave(state: &mut State, value: Option<Value>) -> Result<(), Cause>
    ensures done { OnOk result (return_from state.old value ≡ Ok state.new) }
    ensures refused { IfErr result (λ cause. return_from state.old value ≡ Err cause) }
    ensures kept { OnErr result (state.new ≡ state.old) }
{
    match state.below.pop() {
        None => {
            let outcome = outcome_of(value)?;
            kill_own_slots(state);
            state.outcome = outcome;
            Ok(())
        }
        Some(activation) => {
            kill_own_slots(state);
            let result_name = state.top.result;
            state.top = activation;
            set_result(
                &mut state.top.values,
                result_name,
                value.unwrap_or(Value::Poison),
            );
            Ok(())
        }
    }
}

/// Leaves the topmost activation without a value.
pub fn come_back(state: &mut State)
    ensures { return_from state.old None ≡ Ok state.new }
{
    match state.below.pop() {
        None => {
            kill_own_slots(state);
            state.outcome = Outcome::Returned(None);
        }
        Some(activation) => {
            kill_own_slots(state);
            let result_name = state.top.result;
            state.top = activation;
            set_result(&mut state.top.values, result_name, Value::Poison);
        }
    }
}
