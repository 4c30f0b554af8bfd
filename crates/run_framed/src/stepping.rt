//! One step of a framed run.

ghost use Rattle.std.specs.Prelude.{◌≡◌, ◌+◌, IfErr, IfOk, OnOk, OnErr, Ok, IsTrue, not, length, None, Some};
ghost use Rattle.run_memory.specs.Memory.{Rights};
ghost use Rattle.ir_base.specs.declared.outcome.Outcome.{Outcome as TheOutcome};
ghost use Rattle.run_step.specs.Effects.{is_alloca};
ghost use Rattle.run_step.specs.Step.{fetch, instr_action, AtInstr};
ghost use Rattle.run_step.specs.Values.{arg_values as arg_values_of};
ghost use Rattle.run_source.specs.State.{function_of, work_of};
ghost use Rattle.run_source.specs.SourceEffects.{IsStop};
ghost use Rattle.run_source.specs.declared.state.Mode.{Mode as TheMode};
ghost use Rattle.run_framed.specs.Framed.{alloca_from, enter_given as enter_given_ramp, framed_act, framed_context, framed_next, framed_step, last_value as last_value_of};
ghost use Rattle.run_framed.specs.FramedEffects.{alloca_at, framed_of, ramp_of as ramp_of_call};

use crate::effects::act_framed;
use crate::program::FramedProgram;
use crate::reentry::next_alloca;
use crate::rights::FrameRights;
use ir_base::{BlockId, Cause, FuncId, Item, Items, Outcome, Place, ValueId};
use ir_model::{Arg, Callee, Function, Instr, IrType};
use ir_paths::Point;
use run_memory::Value;
use run_source::calls::{called, push};
use run_source::frames::copied_values;
use run_source::run_source_tables_library::{args_of, result_of};
use run_source::run_step_code_library::{enter_label, execute, place_at, set_result, terminate};
use run_source::stepping::alloca_own;
use run_source::{Mode, State, Stop};
use run_step::{Program, Slot, Values, pointer_to};
use std::alloc::{AllocError, Global};

/// An alloca of a resumed activation behind which another one follows.
fn alloca_before(
    alloc: Global,
    program: &FramedProgram,
    state: &mut State,
    next: usize,
    slot: Slot,
    ty: &IrType,
    align: u64,
    from: BlockId,
    label: ValueId,
    point: Point,
) -> Result<(), Stop>
    requires behind { next ≡ state.old.top.at + 1 }
    requires fresh { slot.block ≡ length state.old.world.memory }
    requires entering { state.old.top.mode ≡ TheMode.Entering from label }
    requires follows { alloca_from (function_of (framed_of program.now).given state.old) next ≡ Some point }
    ensures done { (rights : Rights) → OnOk result (framed_act (framed_of program.now) state.old (alloca_at (framed_of program.now) rights state.old slot.alloca ty.now align) ≡ Ok state.new) }
    ensures refused { (rights : Rights) → IfErr result (λ stop. IsStop stop (framed_act (framed_of program.now) state.old (alloca_at (framed_of program.now) rights state.old slot.alloca ty.now align))) }
    ensures kept { OnErr result (state.new ≡ state.old) }
{
    match alloca_own(alloc, &program.given, state, next, slot, ty, align) {
        Ok(()) => {
            state.top.mode = Mode::Entering { from, label };
            state.top.block = point.block;
            state.top.at = point.at;
            Ok(())
        }
        Err(stop) => Err(stop),
    }
}

/// The last alloca of a resumed activation, which then enters a label from the block of its suspend. The values with which
/// it does are made first.
fn alloca_last(
    alloc: Global,
    program: &FramedProgram,
    state: &mut State,
    next: usize,
    slot: Slot,
    ty: &IrType,
    align: u64,
    from: BlockId,
    label: ValueId,
) -> Result<(), Stop>
    requires behind { next ≡ state.old.top.at + 1 }
    requires fresh { slot.block ≡ length state.old.world.memory }
    requires entering { state.old.top.mode ≡ TheMode.Entering from label }
    requires last { alloca_from (function_of (framed_of program.now).given state.old) next ≡ None }
    ensures done { (rights : Rights) → OnOk result (framed_act (framed_of program.now) state.old (alloca_at (framed_of program.now) rights state.old slot.alloca ty.now align) ≡ Ok state.new) }
    ensures refused { (rights : Rights) → IfErr result (λ stop. IsStop stop (framed_act (framed_of program.now) state.old (alloca_at (framed_of program.now) rights state.old slot.alloca ty.now align))) }
    ensures kept { OnErr result (state.new ≡ state.old) }
{
    let Ok(mut values) = copied_values(alloc, state.top.values.as_slice()) else {
        return Err(Stop::NoMemory);
    };
    set_result(&mut values, Some(slot.alloca), pointer_to(slot.block));
    let func = state.top.func;
    let ordinary = &program.given.program;
    let Ok(block) = enter_label(alloc, ordinary, func, from, &mut values, label) else {
        return Err(Stop::NoMemory);
    };
    match alloca_own(alloc, &program.given, state, next, slot, ty, align) {
        Ok(()) => {
            state.top.values = values;
            state.top.mode = Mode::Resumed;
            state.top.block = block;
            state.top.at = 0;
            Ok(())
        }
        Err(stop) => Err(stop),
    }
}

/// An alloca of a resumed activation that is still entering a label.
fn alloca_entering(
    alloc: Global,
    program: &FramedProgram,
    state: &mut State,
    next: usize,
    slot: Slot,
    ty: &IrType,
    align: u64,
    from: BlockId,
    label: ValueId,
) -> Result<(), Stop>
    requires behind { next ≡ state.old.top.at + 1 }
    requires fresh { slot.block ≡ length state.old.world.memory }
    requires entering { state.old.top.mode ≡ TheMode.Entering from label }
    ensures done { (rights : Rights) → OnOk result (framed_act (framed_of program.now) state.old (alloca_at (framed_of program.now) rights state.old slot.alloca ty.now align) ≡ Ok state.new) }
    ensures refused { (rights : Rights) → IfErr result (λ stop. IsStop stop (framed_act (framed_of program.now) state.old (alloca_at (framed_of program.now) rights state.old slot.alloca ty.now align))) }
    ensures kept { OnErr result (state.new ≡ state.old) }
{
    match next_alloca(&program.given, state.top.func, next) {
        Some(point) => alloca_before(
            alloc, program, state, next, slot, ty, align, from, label, point,
        ),
        None => alloca_last(alloc, program, state, next, slot, ty, align, from, label),
    }
}

/// Executes an alloca.
fn alloca(
    alloc: Global,
    program: &FramedProgram,
    state: &mut State,
    next: usize,
    name: ValueId,
    ty: &IrType,
    align: u64,
) -> Result<(), Stop>
    requires { next ≡ state.old.top.at + 1 }
    ensures done { (rights : Rights) → OnOk result (framed_act (framed_of program.now) state.old (alloca_at (framed_of program.now) rights state.old name ty.now align) ≡ Ok state.new) }
    ensures refused { (rights : Rights) → IfErr result (λ stop. IsStop stop (framed_act (framed_of program.now) state.old (alloca_at (framed_of program.now) rights state.old name ty.now align))) }
    ensures kept { OnErr result (state.new ≡ state.old) }
{
    let slot = Slot {
        alloca: name,
        block: state.world.memory.len(),
    };
    match state.top.mode {
        Mode::Entering { from, label } => {
            alloca_entering(alloc, program, state, next, slot, ty, align, from, label)
        }
        _ => alloca_own(alloc, &program.given, state, next, slot, ty, align),
    }
}

fn values_of_args(
    alloc: Global,
    program: &Program,
    values: &Values,
    args: &[Arg],
) -> Result<Items<Value>, AllocError>
    ensures { IfOk result (λ all. all ≡ arg_values_of program.now.«module» values.now args.now) }
{
    let mut all = Items::new(alloc);
    for arg in args {
        all.push(program.value_of_arg(values, arg))?;
    }
    Ok(all)
}

/// The last of the values, poison where there is none.
fn last_value(values: &[Value]) -> Value
    ensures { result ≡ last_value_of values.now }
{
    match values {
        [] => Value::Poison,
        [.., last] => *last,
    }
}

/// A call of a ramp that is given the address of its frame.
fn enter_given(
    alloc: Global,
    program: &FramedProgram,
    state: &mut State,
    next: usize,
    func: FuncId,
    args: &[Arg],
    result_name: Option<ValueId>,
) -> Result<(), AllocError>
    requires { next ≡ state.old.top.at + 1 }
    ensures done { OnOk result (enter_given_ramp (framed_of program.now) state.old result_name (arg_values_of program.now.given.program.«module» state.old.top.values args.now) (Some func) ≡ Some (Ok state.new)) }
    ensures kept { OnErr result (state.new ≡ state.old) }
{
    let ordinary = &program.given.program;
    let values = values_of_args(alloc, ordinary, &state.top.values, args)?;
    let mode = Mode::GivenRamp(last_value(values.as_slice()));
    let entered = called(alloc, ordinary, func, values.as_slice(), result_name, mode)?;
    push(state, next, entered)
}

/// Executes an instruction that is neither an alloca nor a call of a ramp that is given the address of its frame.
fn perform(
    alloc: Global,
    program: &FramedProgram,
    state: &mut State,
    next: usize,
    instr: &Instr,
) -> Result<(), Stop>
    requires behind { next ≡ state.old.top.at + 1 }
    requires other { IsTrue (not (is_alloca instr.now)) }
    ensures done { OnOk result (framed_act (framed_of program.now) state.old (instr_action (framed_context (framed_of program.now) state.old) (work_of state.old) instr.now) ≡ Ok state.new) }
    ensures refused { IfErr result (λ stop. IsStop stop (framed_act (framed_of program.now) state.old (instr_action (framed_context (framed_of program.now) state.old) (work_of state.old) instr.now))) }
    ensures kept { OnErr result (state.new ≡ state.old) }
{
    let rights = FrameRights {
        program,
        instances: &state.instances,
    };
    let executed = execute(
        alloc,
        &program.given.program,
        &rights,
        &mut state.world,
        &mut state.top.values,
        instr,
    );
    let Ok(effect) = executed else {
        return Err(Stop::NoMemory);
    };
    act_framed(
        alloc,
        program,
        state,
        next,
        args_of(instr),
        result_of(instr),
        effect,
    )
}

/// The coroutine whose ramp an instruction calls and gives the address of its frame.
fn ramp_of(program: &FramedProgram, instr: &Instr) -> Option<FuncId>
    ensures { result ≡ ramp_of_call program.now.given.program.«module» instr.now }
{
    match instr {
        Instr::Call {
            callee: Callee::Named(name),
            ..
        } => program.given_ramp(name),
        _ => None,
    }
}

/// Executes an instruction that is no alloca.
fn other_instruction(
    alloc: Global,
    program: &FramedProgram,
    state: &mut State,
    next: usize,
    instr: &Instr,
) -> Result<(), Stop>
    requires behind { next ≡ state.old.top.at + 1 }
    requires other { IsTrue (not (is_alloca instr.now)) }
    ensures done { OnOk result (framed_next (framed_of program.now) state.old (AtInstr instr.now) ≡ Ok state.new) }
    ensures refused { IfErr result (λ stop. IsStop stop (framed_next (framed_of program.now) state.old (AtInstr instr.now))) }
    ensures kept { OnErr result (state.new ≡ state.old) }
{
    match ramp_of(program, instr) {
        None => perform(alloc, program, state, next, instr),
        Some(func) => {
            let args = args_of(instr);
            match enter_given(alloc, program, state, next, func, args, result_of(instr)) {
                Ok(()) => Ok(()),
                Err(_) => Err(Stop::NoMemory),
            }
        }
    }
}

/// Executes an instruction.
fn instruction(
    alloc: Global,
    program: &FramedProgram,
    state: &mut State,
    next: usize,
    instr: &Instr,
) -> Result<(), Stop>
    requires { next ≡ state.old.top.at + 1 }
    ensures done { OnOk result (framed_next (framed_of program.now) state.old (AtInstr instr.now) ≡ Ok state.new) }
    ensures refused { IfErr result (λ stop. IsStop stop (framed_next (framed_of program.now) state.old (AtInstr instr.now))) }
    ensures kept { OnErr result (state.new ≡ state.old) }
{
    match instr {
        Instr::Alloca { result, ty, align } => {
            alloca(alloc, program, state, next, *result, ty, *align)
        }
        _ => other_instruction(alloc, program, state, next, instr),
    }
}

/// Does what stands at the state's place.
fn proceed(
    alloc: Global,
    program: &FramedProgram,
    state: &mut State,
    next: usize,
    function: &Function,
) -> Result<(), Stop>
    requires behind { next ≡ state.old.top.at + 1 }
    requires own { function.now ≡ function_of (framed_of program.now).given state.old }
    ensures done { OnOk result (framed_next (framed_of program.now) state.old (fetch function.now state.old.top.block state.old.top.at) ≡ Ok state.new) }
    ensures refused { IfErr result (λ stop. IsStop stop (framed_next (framed_of program.now) state.old (fetch function.now state.old.top.block state.old.top.at))) }
    ensures kept { OnErr result (state.new ≡ state.old) }
{
    match function.blocks.get(state.top.block) {
        None => Err(Stop::Undefined(Cause::Unreachable)),
        Some(block) => match block.instrs.get(state.top.at) {
            Some(instr) => instruction(alloc, program, state, next, instr),
            None => {
                if state.top.at == block.instrs.len() {
                    let effect = terminate(&program.given.program, &state.top.values, &block.term);
                    act_framed(alloc, program, state, next, &[], None, effect)
                } else {
                    Err(Stop::Undefined(Cause::Unreachable))
                }
            }
        },
    }
}

/// One step of a run in a function that is there.
fn advance(
    alloc: Global,
    program: &FramedProgram,
    state: &mut State,
    function: &Function,
) -> Result<(), AllocError>
    requires running { state.old.outcome ≡ TheOutcome.Running }
    requires own { function.now ≡ function_of (framed_of program.now).given state.old }
    ensures done { OnOk result (state.new ≡ framed_step (framed_of program.now) state.old) }
    ensures kept { OnErr result (state.new ≡ state.old) }
{
    let Some(next) = state.top.at.checked_add(1) else {
        return Err(AllocError);
    };
    let Some(place) = place_at(state.top.func, function, state.top.block, state.top.at) else {
        return Err(AllocError);
    };
    match proceed(alloc, program, state, next, function) {
        Ok(()) => Ok(()),
        Err(Stop::NoMemory) => Err(AllocError),
        Err(Stop::Undefined(cause)) => {
            state.outcome = Outcome::Undefined(cause, place);
            Ok(())
        }
    }
}

/// One step of a run that goes on.
fn go(alloc: Global, program: &FramedProgram, state: &mut State) -> Result<(), AllocError>
    requires { state.old.outcome ≡ TheOutcome.Running }
    ensures done { OnOk result (state.new ≡ framed_step (framed_of program.now) state.old) }
    ensures kept { OnErr result (state.new ≡ state.old) }
{
    match program.given.program.module.functions.get(state.top.func) {
        Some(function) => advance(alloc, program, state, function),
        None => {
            let place = Place {
                item: Item::Function(state.top.func),
                block: Some(state.top.block),
                instr: Some(state.top.at),
            };
            state.outcome = Outcome::Undefined(Cause::Unreachable, place);
            Ok(())
        }
    }
}

/// One step; a run that is over stays as it is.
pub fn step_framed(
    alloc: Global,
    program: &FramedProgram,
    state: &mut State,
) -> Result<(), AllocError>
    ensures done { OnOk result (state.new ≡ framed_step (framed_of program.now) state.old) }
    ensures kept { OnErr result (state.new ≡ state.old) }
{
    match state.outcome {
        Outcome::Running => go(alloc, program, state),
        _ => Ok(()),
    }
}
