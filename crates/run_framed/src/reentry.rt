//! How a framed run goes on behind a suspend.

ghost use Rattle.std.specs.Prelude.{◌≡◌, ◌∷◌, IfOk, List, OnOk, OnErr, None, drop, replicate};
ghost use Rattle.ir_model.specs.Names.{function_at};
ghost use Rattle.run_source.specs.SourceEffects.{given_of};
ghost use Rattle.run_source.specs.declared.state.Activation.{Activation as TheActivation};
ghost use Rattle.run_framed.specs.Framed.{alloca_from as alloca_from_position, alloca_in as alloca_in_instrs, begin_name as begin_name_of, reentry_values as reentry_values_of, enter_after as enter_after_alloca, continue_framed};
ghost use Rattle.run_framed.specs.FramedEffects.{bare};
ghost use Rattle.run_step.specs.Effects.{is_alloca as is_alloca_instr};

use ir_base::{BlockId, FuncId, Items, ValueId};
use ir_model::{Function, Instr, Intrinsic};
use ir_paths::Point;
use run_memory::Value;
use run_source::calls::push;
use run_source::promise::frame_address_of;
use run_source::resuming::{GoesOn, Sleeping, woken};
use run_source::run_source_tables_library::{Sought, SourceProgram, first_point, result_at};
use run_source::run_step_code_library::{enter_label, set_result};
use run_source::{Mode, State};
use run_step::Values;
use std::alloc::{AllocError, Global};

fn is_alloca(instr: &Instr) -> bool
    ensures { result ≡ is_alloca_instr instr.now }
{
    match instr {
        Instr::Alloca { .. } => true,
        _ => false,
    }
}

/// The position of the first alloca among instructions from a position on.
fn alloca_in(instrs: &[Instr], from: usize) -> Option<usize>
    ensures { result ≡ alloca_in_instrs from (drop from instrs.now) }
{
    for at in from..instrs.len() {
        if is_alloca(&instrs[at]) {
            return Some(at);
        }
    }
    None
}

/// The first alloca of a function's entry block from a position on.
pub fn alloca_from(function: &Function, from: usize) -> Option<Point>
    ensures { result ≡ alloca_from_position function.now from }
{
    match function.blocks.get(0) {
        None => None,
        Some(block) => match alloca_in(block.instrs.as_slice(), from) {
            None => None,
            Some(at) => Some(Point { block: 0, at }),
        },
    }
}

/// The same of the function at a position.
pub fn next_alloca(given: &SourceProgram, func: FuncId, from: usize) -> Option<Point>
    ensures { result ≡ alloca_from_position (function_at given.now.program.«module» func) from }
{
    match given.program.module.functions.get(func) {
        None => None,
        Some(function) => alloca_from(function, from),
    }
}

/// The name of begin's value.
fn begin_name(function: &Function) -> Option<ValueId>
    ensures { result ≡ begin_name_of function.now }
{
    match first_point(Sought::Call(Intrinsic::CoroBegin), function) {
        None => None,
        Some(point) => result_at(function, point),
    }
}

fn no_values(alloc: Global, count: usize) -> Result<Values, AllocError>
    ensures { IfOk result (λ all. all ≡ replicate count None) }
{
    let none: Option<Value> = None;
    Ok(Items::from_vec(vec![in alloc; none; count]?))
}

/// The values of a resumed activation: the frame address as begin's value, and no other.
fn reentry_values(
    alloc: Global,
    given: &SourceProgram,
    func: FuncId,
    frame: Value,
) -> Result<Values, AllocError>
    ensures { IfOk result (λ values. values ≡ reentry_values_of (function_at given.now.program.«module» func) frame) }
{
    match given.program.module.functions.get(func) {
        None => Ok(Items::new(alloc)),
        Some(function) => {
            let mut values = no_values(alloc, function.names.len())?;
            set_result(&mut values, begin_name(function), frame);
            Ok(values)
        }
    }
}

/// Goes on to the next alloca, or enters a label from the block of the suspend.
pub fn enter_after(
    alloc: Global,
    given: &SourceProgram,
    state: &mut State,
    from: BlockId,
    label: ValueId,
    next_alloca: Option<Point>,
) -> Result<(), AllocError>
    ensures done { OnOk result (state.new ≡ enter_after_alloca (bare (given_of given.now)) state.old from label next_alloca) }
    ensures kept { OnErr result (state.new ≡ state.old) }
{
    match next_alloca {
        Some(point) => {
            state.top.mode = Mode::Entering { from, label };
            state.top.block = point.block;
            state.top.at = point.at;
            Ok(())
        }
        None => {
            let func = state.top.func;
            let ordinary = &given.program;
            let block = enter_label(alloc, ordinary, func, from, &mut state.top.values, label)?;
            state.top.mode = Mode::Resumed;
            state.top.block = block;
            state.top.at = 0;
            Ok(())
        }
    }
}

/// Takes an activation that found no memory away again.
fn step_back(state: &mut State, at: usize)
    ensures { (under : TheActivation) (rest : List TheActivation) → state.old.below ≡ under ∷ rest → state.new ≡ record state.old { top = record under { at = at }; below = rest } }
{
    if let Some(under) = state.below.pop() {
        state.top = under;
        state.top.at = at;
    }
}

/// A framed run goes on with the frame address alone, and first executes its function's allocas.
#[derive(Clone, Copy, Debug, Drop)]
pub struct ByFrame;

impl GoesOn for ByFrame {
    ghost goes = { λ _ g. continue_framed (bare g) };

    fn go_on(
        &self,
        alloc: Global,
        given: &SourceProgram,
        state: &mut State,
        next: usize,
        sleeping: Sleeping,
        label: ValueId,
    ) -> Result<(), AllocError> {
        let Some(instance) = state.instances.get(sleeping.instance) else {
            return Err(AllocError);
        };
        let frame = frame_address_of(instance);
        let values = reentry_values(alloc, given, sleeping.coroutine, frame)?;
        let at = state.top.at;
        push(state, next, woken(alloc, sleeping, values))?;
        let first = next_alloca(given, sleeping.coroutine, 0);
        match enter_after(alloc, given, state, sleeping.suspend.block, label, first) {
            Ok(()) => {
                state.instances.run(sleeping.instance);
                Ok(())
            }
            Err(error) => {
                step_back(state, at);
                Err(error)
            }
        }
    }
}
