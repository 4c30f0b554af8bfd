//! One step of a source run.

ghost use Rattle.std.specs.Prelude.{◌≡◌, ◌+◌, IfErr, OnOk, OnErr, Ok, IsTrue, not, length, if◌then◌else◌};
ghost use Rattle.run_memory.specs.Memory.{Rights, killed};
ghost use Rattle.ir_base.specs.declared.outcome.Outcome.{Outcome as TheOutcome};
ghost use Rattle.ir_model.specs.declared.instr.Instr.{Instr as TheInstr};
ghost use Rattle.run_source_tables.specs.run_step.Step.{instr_action, action_of, fetch};
ghost use Rattle.run_source_tables.specs.run_step.Effects.{context, is_alloca};
ghost use Rattle.run_source.specs.declared.stepping.Owner.{Owner as TheOwner};
ghost use Rattle.run_source.specs.State.{function_of, work_of};
ghost use Rattle.run_source.specs.Source.{act as act_by, context_of, continue, step};
ghost use Rattle.run_source.specs.SourceEffects.{IsOwner, IsStop, given_of, own_slot};

use crate::effects::{Stop, act};
use crate::promise::is_over;
use crate::state::State;
use ir_base::{Cause, Item, Outcome, Place, ValueId};
use ir_model::{Function, Instr, IrType};
use run_memory::{BlockId, Memory, OwnerRights};
use run_source_tables::run_step_library::Slot;
use run_source_tables::{SourceProgram, args_of, result_of};
use run_step_code::{execute, make_slot, place_at, terminate};
use std::alloc::{AllocError, Global};

/// To whom a new slot belongs.
#[derive(Clone, Copy, Debug, PartialEq, Eq, Drop)]
pub enum Owner {
    /// The topmost activation.
    Own,
    /// An instance, and whether its slots have died.
    Instance(usize, bool),
}

/// To whom the slot of an alloca belongs.
fn owner_of(given: &SourceProgram, state: &State, alloca: ValueId) -> Owner
    ensures { IsOwner (given_of given.now) state.now alloca result }
{
    let Some(i) = state.top.instance else {
        return Owner::Own;
    };
    let Some(instance) = state.instances.get(i) else {
        return Owner::Own;
    };
    if given.is_ramp_slot(state.top.func, alloca) {
        return Owner::Own;
    }
    Owner::Instance(i, is_over(instance))
}

/// An alloca of the topmost activation's own, whose slot is put down first.
pub fn alloca_own(
    alloc: Global,
    given: &SourceProgram,
    state: &mut State,
    next: usize,
    slot: Slot,
    ty: &IrType,
    align: u64,
) -> Result<(), Stop>
    requires behind { next ≡ state.old.top.at + 1 }
    requires fresh { slot.block ≡ length state.old.world.memory }
    ensures done { (rights : Rights) → OnOk result (own_slot state.old (instr_action (context given.now.program.«module» given.now.program.answers rights (function_of (given_of given.now) state.old)) (work_of state.old) (TheInstr.Alloca slot.alloca ty.now align)) ≡ Ok state.new) }
    ensures refused { (rights : Rights) → IfErr result (λ stop. IsStop stop (own_slot state.old (instr_action (context given.now.program.«module» given.now.program.answers rights (function_of (given_of given.now) state.old)) (work_of state.old) (TheInstr.Alloca slot.alloca ty.now align)))) }
    ensures kept { OnErr result (state.new ≡ state.old) }
{
    let Ok(()) = state.top.slots.push(slot) else {
        return Err(Stop::NoMemory);
    };
    let made = make_slot(
        alloc,
        &given.program,
        state.top.func,
        &mut state.world,
        &mut state.top.values,
        slot.alloca,
        ty,
        align,
    );
    match made {
        Err(_) => {
            let _ = state.top.slots.pop();
            Err(Stop::NoMemory)
        }
        Ok(found) => match found {
            Some(_) => {
                state.top.at = next;
                Ok(())
            }
            None => {
                let _ = state.top.slots.pop();
                Err(Stop::Undefined(Cause::Align))
            }
        },
    }
}

/// A block is killed where a test holds.
fn kill_if(memory: &mut Memory, holds: bool, block: BlockId)
    ensures { memory.new ≡ (if holds then killed memory.old block else memory.old) }
{
    if holds {
        memory.kill_at(block);
    }
}

/// An alloca of an instance, which is dead at once where the instance is over. Its slot is put down first.
fn alloca_in(
    alloc: Global,
    given: &SourceProgram,
    state: &mut State,
    next: usize,
    slot: Slot,
    ty: &IrType,
    align: u64,
    i: usize,
    late: bool,
) -> Result<(), Stop>
    requires behind { next ≡ state.old.top.at + 1 }
    requires fresh { slot.block ≡ length state.old.world.memory }
    requires owner { IsOwner (given_of given.now) state.old slot.alloca (TheOwner.Instance i late) }
    ensures done { OnOk result (act_by (given_of given.now) (continue (given_of given.now)) state.old (instr_action (context_of (given_of given.now) state.old) (work_of state.old) (TheInstr.Alloca slot.alloca ty.now align)) ≡ Ok state.new) }
    ensures refused { IfErr result (λ stop. IsStop stop (act_by (given_of given.now) (continue (given_of given.now)) state.old (instr_action (context_of (given_of given.now) state.old) (work_of state.old) (TheInstr.Alloca slot.alloca ty.now align)))) }
    ensures kept { OnErr result (state.new ≡ state.old) }
{
    let Ok(()) = state.instances.keep(i, slot) else {
        return Err(Stop::NoMemory);
    };
    let made = make_slot(
        alloc,
        &given.program,
        state.top.func,
        &mut state.world,
        &mut state.top.values,
        slot.alloca,
        ty,
        align,
    );
    match made {
        Err(_) => {
            state.instances.drop_newest(i);
            Err(Stop::NoMemory)
        }
        Ok(found) => match found {
            Some(_) => {
                kill_if(&mut state.world.memory, late, slot.block);
                state.top.at = next;
                Ok(())
            }
            None => {
                state.instances.drop_newest(i);
                Err(Stop::Undefined(Cause::Align))
            }
        },
    }
}

/// Executes an alloca.
fn alloca(
    alloc: Global,
    given: &SourceProgram,
    state: &mut State,
    next: usize,
    name: ValueId,
    ty: &IrType,
    align: u64,
) -> Result<(), Stop>
    requires behind { next ≡ state.old.top.at + 1 }
    ensures done { OnOk result (act_by (given_of given.now) (continue (given_of given.now)) state.old (instr_action (context_of (given_of given.now) state.old) (work_of state.old) (TheInstr.Alloca name ty.now align)) ≡ Ok state.new) }
    ensures refused { IfErr result (λ stop. IsStop stop (act_by (given_of given.now) (continue (given_of given.now)) state.old (instr_action (context_of (given_of given.now) state.old) (work_of state.old) (TheInstr.Alloca name ty.now align)))) }
    ensures kept { OnErr result (state.new ≡ state.old) }
{
    let slot = Slot {
        alloca: name,
        block: state.world.memory.len(),
    };
    match owner_of(given, state, name) {
        Owner::Own => alloca_own(alloc, given, state, next, slot, ty, align),
        Owner::Instance(i, late) => alloca_in(alloc, given, state, next, slot, ty, align, i, late),
    }
}

/// Executes an instruction that is no alloca.
fn perform(
    alloc: Global,
    given: &SourceProgram,
    state: &mut State,
    next: usize,
    instr: &Instr,
) -> Result<(), Stop>
    requires behind { next ≡ state.old.top.at + 1 }
    requires other { IsTrue (not (is_alloca instr.now)) }
    ensures done { OnOk result (act_by (given_of given.now) (continue (given_of given.now)) state.old (instr_action (context_of (given_of given.now) state.old) (work_of state.old) instr.now) ≡ Ok state.new) }
    ensures refused { IfErr result (λ stop. IsStop stop (act_by (given_of given.now) (continue (given_of given.now)) state.old (instr_action (context_of (given_of given.now) state.old) (work_of state.old) instr.now))) }
    ensures kept { OnErr result (state.new ≡ state.old) }
{
    let executed = execute(
        alloc,
        &given.program,
        &OwnerRights,
        &mut state.world,
        &mut state.top.values,
        instr,
    );
    let Ok(effect) = executed else {
        return Err(Stop::NoMemory);
    };
    act(
        alloc,
        given,
        state,
        next,
        args_of(instr),
        result_of(instr),
        effect,
    )
}

/// Executes an instruction.
fn instruction(
    alloc: Global,
    given: &SourceProgram,
    state: &mut State,
    next: usize,
    instr: &Instr,
) -> Result<(), Stop>
    requires behind { next ≡ state.old.top.at + 1 }
    ensures done { OnOk result (act_by (given_of given.now) (continue (given_of given.now)) state.old (instr_action (context_of (given_of given.now) state.old) (work_of state.old) instr.now) ≡ Ok state.new) }
    ensures refused { IfErr result (λ stop. IsStop stop (act_by (given_of given.now) (continue (given_of given.now)) state.old (instr_action (context_of (given_of given.now) state.old) (work_of state.old) instr.now))) }
    ensures kept { OnErr result (state.new ≡ state.old) }
{
    match instr {
        Instr::Alloca { result, ty, align } => {
            alloca(alloc, given, state, next, *result, ty, *align)
        }
        _ => perform(alloc, given, state, next, instr),
    }
}

/// Does what stands at the state's place.
fn proceed(
    alloc: Global,
    given: &SourceProgram,
    state: &mut State,
    next: usize,
    function: &Function,
) -> Result<(), Stop>
    requires behind { next ≡ state.old.top.at + 1 }
    requires own { function.now ≡ function_of (given_of given.now) state.old }
    ensures done { OnOk result (act_by (given_of given.now) (continue (given_of given.now)) state.old (action_of (context_of (given_of given.now) state.old) (work_of state.old) (fetch function.now state.old.top.block state.old.top.at)) ≡ Ok state.new) }
    ensures refused { IfErr result (λ stop. IsStop stop (act_by (given_of given.now) (continue (given_of given.now)) state.old (action_of (context_of (given_of given.now) state.old) (work_of state.old) (fetch function.now state.old.top.block state.old.top.at)))) }
    ensures kept { OnErr result (state.new ≡ state.old) }
{
    match function.blocks.get(state.top.block) {
        None => Err(Stop::Undefined(Cause::Unreachable)),
        Some(block) => match block.instrs.get(state.top.at) {
            Some(instr) => instruction(alloc, given, state, next, instr),
            None => {
                if state.top.at == block.instrs.len() {
                    let effect = terminate(&given.program, &state.top.values, &block.term);
                    act(alloc, given, state, next, &[], None, effect)
                } else {
                    Err(Stop::Undefined(Cause::Unreachable))
                }
            }
        },
    }
}

/// One step of a run in a function that is there.
fn advance(
    alloc: Global,
    given: &SourceProgram,
    state: &mut State,
    function: &Function,
) -> Result<(), AllocError>
    requires running { state.old.outcome ≡ TheOutcome.Running }
    requires own { function.now ≡ function_of (given_of given.now) state.old }
    ensures done { OnOk result (state.new ≡ step (given_of given.now) state.old) }
    ensures kept { OnErr result (state.new ≡ state.old) }
{
    let Some(next) = state.top.at.checked_add(1) else {
        return Err(AllocError);
    };
    let Some(place) = place_at(state.top.func, function, state.top.block, state.top.at) else {
        return Err(AllocError);
    };
    match proceed(alloc, given, state, next, function) {
        Ok(()) => Ok(()),
        Err(Stop::NoMemory) => Err(AllocError),
        Err(Stop::Undefined(cause)) => {
            state.outcome = Outcome::Undefined(cause, place);
            Ok(())
        }
    }
}

/// One step of a run that goes on.
fn go(alloc: Global, given: &SourceProgram, state: &mut State) -> Result<(), AllocError>
    requires { state.old.outcome ≡ TheOutcome.Running }
    ensures done { OnOk result (state.new ≡ step (given_of given.now) state.old) }
    ensures kept { OnErr result (state.new ≡ state.old) }
{
    match given.program.module.functions.get(state.top.func) {
        Some(function) => advance(alloc, given, state, function),
        None => {
            let place = Place {
                item: Item::Function(state.top.func),
                block: Some(state.top.block),
                instr: Some(state.top.at),
            };
            state.outcome = Outcome::Undefined(Cause::Unreachable, place);
            Ok(())
        }
    }
}

/// One step; a run that is over stays as it is.
pub fn step_state(alloc: Global, given: &SourceProgram, state: &mut State) -> Result<(), AllocError>
    ensures done { OnOk result (state.new ≡ step (given_of given.now) state.old) }
    ensures kept { OnErr result (state.new ≡ state.old) }
{
    match state.outcome {
        Outcome::Running => go(alloc, given, state),
        _ => Ok(()),
    }
}
