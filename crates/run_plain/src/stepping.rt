//! One step of a plain run.

ghost use Rattle.std.specs.Prelude.{◌≡◌, ◌+◌, IfErr, OnOk, OnErr, Ok, IsTrue, not, ◌∷◌};
ghost use Rattle.ir_base.specs.declared.outcome.Outcome.{Outcome as TheOutcome};
ghost use Rattle.ir_model.specs.declared.instr.Instr.{Instr as TheInstr};
ghost use Rattle.run_step.specs.Step.{instr_action, action_of, fetch};
ghost use Rattle.run_step.specs.Effects.{is_alloca};
ghost use Rattle.run_plain.specs.Plain.{plain_act, plain_context, plain_function, plain_work, plain_step, plain_or_undefined};
ghost use Rattle.run_plain.specs.PlainEffects.{IsStop, given_of};

use crate::effects::{Stop, act};
use crate::state::PlainState;
use ir_base::{Cause, Item, Outcome, Place, ValueId};
use ir_model::{Function, Instr, IrType};
use run_memory::OwnerRights;
use run_step::{Program, Slot};
use run_step_code::{execute, make_slot, place_at, terminate};
use std::alloc::{AllocError, Global};

/// Executes an alloca, whose slot is put down first.
fn alloca(
    alloc: Global,
    program: &Program,
    state: &mut PlainState,
    next: usize,
    name: ValueId,
    ty: &IrType,
    align: u64,
) -> Result<(), Stop>
    requires behind { next ≡ state.old.top.at + 1 }
    ensures done { OnOk result (plain_act (given_of program.now) state.old (instr_action (plain_context (given_of program.now) state.old) (plain_work state.old) (TheInstr.Alloca name ty.now align)) ≡ Ok state.new) }
    ensures refused { IfErr result (λ stop. IsStop stop (plain_act (given_of program.now) state.old (instr_action (plain_context (given_of program.now) state.old) (plain_work state.old) (TheInstr.Alloca name ty.now align)))) }
    ensures kept { OnErr result (state.new ≡ state.old) }
{
    let slot = Slot {
        alloca: name,
        block: state.world.memory.len(),
    };
    let Ok(()) = state.top.slots.push(slot) else {
        return Err(Stop::NoMemory);
    };
    let made = make_slot(
        alloc,
        program,
        state.top.func,
        &mut state.world,
        &mut state.top.values,
        name,
        ty,
        align,
    );
    match made {
        Err(_) => {
            let _ = state.top.slots.pop();
            Err(Stop::NoMemory)
        }
        Ok(found) => match found {
            Some(_) => {
                state.top.at = next;
                Ok(())
            }
            None => {
                let _ = state.top.slots.pop();
                Err(Stop::Undefined(Cause::Align))
            }
        },
    }
}

/// Executes an instruction that is no alloca.
fn perform(
    alloc: Global,
    program: &Program,
    state: &mut PlainState,
    next: usize,
    instr: &Instr,
) -> Result<(), Stop>
    requires behind { next ≡ state.old.top.at + 1 }
    requires other { IsTrue (not (is_alloca instr.now)) }
    ensures done { OnOk result (plain_act (given_of program.now) state.old (instr_action (plain_context (given_of program.now) state.old) (plain_work state.old) instr.now) ≡ Ok state.new) }
    ensures refused { IfErr result (λ stop. IsStop stop (plain_act (given_of program.now) state.old (instr_action (plain_context (given_of program.now) state.old) (plain_work state.old) instr.now))) }
    ensures kept { OnErr result (state.new ≡ state.old) }
{
    let executed = execute(
        alloc,
        program,
        &OwnerRights,
        &mut state.world,
        &mut state.top.values,
        instr,
    );
    match executed {
        Ok(effect) => act(alloc, program, state, next, effect),
        Err(_) => Err(Stop::NoMemory),
    }
}

/// Executes an instruction.
fn instruction(
    alloc: Global,
    program: &Program,
    state: &mut PlainState,
    next: usize,
    instr: &Instr,
) -> Result<(), Stop>
    requires behind { next ≡ state.old.top.at + 1 }
    ensures done { OnOk result (plain_act (given_of program.now) state.old (instr_action (plain_context (given_of program.now) state.old) (plain_work state.old) instr.now) ≡ Ok state.new) }
    ensures refused { IfErr result (λ stop. IsStop stop (plain_act (given_of program.now) state.old (instr_action (plain_context (given_of program.now) state.old) (plain_work state.old) instr.now))) }
    ensures kept { OnErr result (state.new ≡ state.old) }
{
    match instr {
        Instr::Alloca { result, ty, align } => {
            alloca(alloc, program, state, next, *result, ty, *align)
        }
        _ => perform(alloc, program, state, next, instr),
    }
}

/// Does what stands at the state's place.
fn proceed(
    alloc: Global,
    program: &Program,
    state: &mut PlainState,
    next: usize,
    function: &Function,
) -> Result<(), Stop>
    requires behind { next ≡ state.old.top.at + 1 }
    requires own { function.now ≡ plain_function (given_of program.now) state.old }
    ensures done { OnOk result (plain_act (given_of program.now) state.old (action_of (plain_context (given_of program.now) state.old) (plain_work state.old) (fetch function.now state.old.top.block state.old.top.at)) ≡ Ok state.new) }
    ensures refused { IfErr result (λ stop. IsStop stop (plain_act (given_of program.now) state.old (action_of (plain_context (given_of program.now) state.old) (plain_work state.old) (fetch function.now state.old.top.block state.old.top.at)))) }
    ensures kept { OnErr result (state.new ≡ state.old) }
{
    match function.blocks.get(state.top.block) {
        None => Err(Stop::Undefined(Cause::Unreachable)),
        Some(block) => match block.instrs.get(state.top.at) {
            Some(instr) => instruction(alloc, program, state, next, instr),
            None => {
                if state.top.at == block.instrs.len() {
                    let effect = terminate(program, &state.top.values, &block.term);
                    act(alloc, program, state, next, effect)
                } else {
                    Err(Stop::Undefined(Cause::Unreachable))
                }
            }
        },
    }
}

/// One step of a run in a function that is there.
fn advance(
    alloc: Global,
    program: &Program,
    state: &mut PlainState,
    function: &Function,
) -> Result<(), AllocError>
    requires running { state.old.outcome ≡ TheOutcome.Running }
    requires own { function.now ≡ plain_function (given_of program.now) state.old }
    ensures done { OnOk result (state.new ≡ plain_step (given_of program.now) state.old) }
    ensures kept { OnErr result (state.new ≡ state.old) }
{
    let Some(next) = state.top.at.checked_add(1) else {
        return Err(AllocError);
    };
    let Some(place) = place_at(state.top.func, function, state.top.block, state.top.at) else {
        return Err(AllocError);
    };
    match proceed(alloc, program, state, next, function) {
        Ok(()) => Ok(()),
        Err(Stop::NoMemory) => Err(AllocError),
        Err(Stop::Undefined(cause)) => {
            state.outcome = Outcome::Undefined(cause, place);
            Ok(())
        }
    }
}

/// One step of a run that goes on.
fn go(alloc: Global, program: &Program, state: &mut PlainState) -> Result<(), AllocError>
    requires { state.old.outcome ≡ TheOutcome.Running }
    ensures done { OnOk result (state.new ≡ plain_step (given_of program.now) state.old) }
    ensures kept { OnErr result (state.new ≡ state.old) }
{
    match program.module.functions.get(state.top.func) {
        Some(function) => advance(alloc, program, state, function),
        None => {
            let place = Place {
                item: Item::Function(state.top.func),
                block: Some(state.top.block),
                instr: Some(state.top.at),
            };
            state.outcome = Outcome::Undefined(Cause::Unreachable, place);
            Ok(())
        }
    }
}

/// One step; a run that is over stays as it is.
pub fn step_state(
    alloc: Global,
    program: &Program,
    state: &mut PlainState,
) -> Result<(), AllocError>
    ensures done { OnOk result (state.new ≡ plain_step (given_of program.now) state.old) }
    ensures kept { OnErr result (state.new ≡ state.old) }
{
    match state.outcome {
        Outcome::Running => go(alloc, program, state),
        _ => Ok(()),
    }
}
