//! What a source machine does by the effect of an instruction.

ghost use Rattle.std.specs.Prelude.{◌≡◌, ◌+◌, IfErr, OnOk, OnErr, Ok, Err, IsFalse};
ghost use Rattle.run_source_tables.specs.run_step.Effects.{is_new_slot};
ghost use Rattle.run_source_tables.specs.run_step.Values.{arg_values};
ghost use Rattle.run_source.specs.Source.{coro as coro_by};
ghost use Rattle.run_source.specs.SourceEffects.{source_effect, given_of, IsStop, is_done};

use crate::blocks::go_to;
use crate::calls::{enter, leave};
use crate::ending::{end, frame_address, free, free_at};
use crate::frames::{begin, give, number, save, suspend};
use crate::promise::promise;
use crate::resuming::{ByValues, GoesOn, destroy, done, resume};
use crate::state::State;
use ir_base::{Cause, ValueId};
use ir_model::{Arg, IntWidth, Intrinsic};
use run_memory::Value;
use run_source_tables::SourceProgram;
use run_source_tables::run_step_library::{Effect, truth};
use std::alloc::Global;

/// Why a step stops.
#[derive(Clone, Copy, Debug, Drop)]
pub enum Stop {
    NoMemory,
    Undefined(Cause),
}

/// A coro intrinsic ("Coroutines in LLVM", "Intrinsics").
pub fn coro<G: GoesOn>(
    alloc: Global,
    by: &G,
    given: &SourceProgram,
    state: &mut State,
    next: usize,
    intrinsic: Intrinsic,
    args: &[Arg],
    result_name: Option<ValueId>,
) -> Result<(), Stop>
    requires { next ≡ state.old.top.at + 1 }
    ensures done { OnOk result (coro_by (given_of given.now) (G.goes by.now (given_of given.now)) state.old intrinsic args.now (arg_values given.now.program.«module» state.old.top.values args.now) result_name ≡ Ok state.new) }
    ensures refused { IfErr result (λ stop. IsStop stop (coro_by (given_of given.now) (G.goes by.now (given_of given.now)) state.old intrinsic args.now (arg_values given.now.program.«module» state.old.top.values args.now) result_name)) }
    ensures kept { OnErr result (state.new ≡ state.old) }
{
    let frame = given.frame(state.top.func);
    match intrinsic {
        Intrinsic::CoroSizeI32 => {
            give(
                state,
                next,
                result_name,
                number(IntWidth::I32, frame.size as i128),
            );
            Ok(())
        }
        Intrinsic::CoroSizeI64 => {
            give(
                state,
                next,
                result_name,
                number(IntWidth::I64, frame.size as i128),
            );
            Ok(())
        }
        Intrinsic::CoroAlignI32 => {
            give(
                state,
                next,
                result_name,
                number(IntWidth::I32, frame.align as i128),
            );
            Ok(())
        }
        Intrinsic::CoroAlignI64 => {
            give(
                state,
                next,
                result_name,
                number(IntWidth::I64, frame.align as i128),
            );
            Ok(())
        }
        Intrinsic::CoroAlloc => {
            give(state, next, result_name, truth(true));
            Ok(())
        }
        Intrinsic::CoroBegin => {
            let mem = given.program.nth_value(&state.top.values, args, 1);
            begin(alloc, given, state, next, result_name, mem)
        }
        Intrinsic::CoroFree => {
            free(state, next, result_name);
            Ok(())
        }
        Intrinsic::CoroFrame => {
            let address = frame_address(state);
            give(state, next, result_name, address);
            Ok(())
        }
        Intrinsic::CoroSave => save(alloc, given, state, next),
        Intrinsic::CoroSuspend => suspend(alloc, state, next, result_name, args),
        Intrinsic::CoroEnd => {
            end(state, next, result_name);
            Ok(())
        }
        Intrinsic::CoroResume => {
            let p = given.program.nth_value(&state.top.values, args, 0);
            resume(alloc, by, given, state, next, p)
        }
        Intrinsic::CoroDestroy => {
            let p = given.program.nth_value(&state.top.values, args, 0);
            destroy(alloc, by, given, state, next, p)
        }
        Intrinsic::CoroDone => {
            let p = given.program.nth_value(&state.top.values, args, 0);
            match done(given, state, next, result_name, p) {
                Ok(()) => Ok(()),
                Err(cause) => Err(Stop::Undefined(cause)),
            }
        }
        Intrinsic::CoroPromise => {
            let p = given.program.nth_value(&state.top.values, args, 0);
            match promise(given, state, p, args) {
                Ok(value) => {
                    give(state, next, result_name, value);
                    Ok(())
                }
                Err(cause) => Err(Stop::Undefined(cause)),
            }
        }
        _ => {
            state.top.at = next;
            Ok(())
        }
    }
}

/// What comes of an effect; `next` is the position behind the instruction, whose arguments and result are told where it is a
/// call.
pub fn act(
    alloc: Global,
    given: &SourceProgram,
    state: &mut State,
    next: usize,
    args: &[Arg],
    result_name: Option<ValueId>,
    effect: Effect,
) -> Result<(), Stop>
    requires behind { next ≡ state.old.top.at + 1 }
    requires no_slot { IsFalse (is_new_slot effect) }
    ensures done { OnOk result (source_effect (given_of given.now) state.old args.now result_name effect ≡ Ok state.new) }
    ensures refused { IfErr result (λ stop. IsStop stop (source_effect (given_of given.now) state.old args.now result_name effect)) }
    ensures undone { OnErr result (IsFalse (is_done effect)) }
    ensures kept { OnErr result (state.new ≡ state.old) }
{
    match effect {
        Effect::Done => {
            state.top.at = next;
            Ok(())
        }
        Effect::NewSlot(_) => unreachable!(),
        Effect::Enter {
            func,
            args,
            result,
            ..
        } => match enter(alloc, given, state, next, func, args.as_slice(), result) {
            Ok(()) => Ok(()),
            Err(_) => Err(Stop::NoMemory),
        },
        Effect::Coro(intrinsic) => {
            coro(
                alloc,
                &ByValues,
                given,
                state,
                next,
                intrinsic,
                args,
                result_name,
            )
        }
        Effect::Deallocate(p) => match free_at(state, next, p) {
            Ok(()) => Ok(()),
            Err(cause) => Err(Stop::Undefined(cause)),
        },
        Effect::GoTo(label) => go_to(alloc, given, state, label),
        Effect::Return(value) => match leave(state, value) {
            Ok(()) => Ok(()),
            Err(cause) => Err(Stop::Undefined(cause)),
        },
        Effect::Stuck(cause) => Err(Stop::Undefined(cause)),
    }
}
