//! What a framed machine does by the effect of an instruction.

ghost use Rattle.std.specs.Prelude.{◌≡◌, ◌+◌, IfErr, OnOk, OnErr, Ok, IsFalse};
ghost use Rattle.run_step.specs.Effects.{is_new_slot};
ghost use Rattle.run_step.specs.Values.{arg_values};
ghost use Rattle.run_source.specs.SourceEffects.{IsStop, is_done};
ghost use Rattle.run_framed.specs.Framed.{framed_coro};
ghost use Rattle.run_framed.specs.FramedEffects.{framed_effect, framed_of};

use crate::frames::{allocates, begin_framed, end, free};
use crate::program::FramedProgram;
use crate::promise::promise;
use crate::reentry::ByFrame;
use ir_base::ValueId;
use ir_model::{Arg, Intrinsic};
use run_source::effects::{act, coro};
use run_source::frames::give;
use run_source::{State, Stop};
use run_step::{Effect, truth};
use std::alloc::Global;

/// A coro intrinsic ("Coroutines in LLVM", "Intrinsics").
fn coro_framed(
    alloc: Global,
    program: &FramedProgram,
    state: &mut State,
    next: usize,
    intrinsic: Intrinsic,
    args: &[Arg],
    result_name: Option<ValueId>,
) -> Result<(), Stop>
    requires { next ≡ state.old.top.at + 1 }
    ensures done { OnOk result (framed_coro (framed_of program.now) state.old intrinsic args.now (arg_values program.now.given.program.«module» state.old.top.values args.now) result_name ≡ Ok state.new) }
    ensures refused { IfErr result (λ stop. IsStop stop (framed_coro (framed_of program.now) state.old intrinsic args.now (arg_values program.now.given.program.«module» state.old.top.values args.now) result_name)) }
    ensures kept { OnErr result (state.new ≡ state.old) }
{
    match intrinsic {
        Intrinsic::CoroAlloc => {
            let value = truth(allocates(state.top.mode));
            give(state, next, result_name, value);
            Ok(())
        }
        Intrinsic::CoroBegin => {
            let mem = program.given.program.nth_value(&state.top.values, args, 1);
            begin_framed(alloc, program, state, next, result_name, mem)
        }
        Intrinsic::CoroFree => {
            free(state, next, result_name);
            Ok(())
        }
        Intrinsic::CoroEnd => {
            end(state, next, result_name);
            Ok(())
        }
        Intrinsic::CoroPromise => {
            let p = program.given.program.nth_value(&state.top.values, args, 0);
            match promise(program, state, p, args) {
                Ok(value) => {
                    give(state, next, result_name, value);
                    Ok(())
                }
                Err(cause) => Err(Stop::Undefined(cause)),
            }
        }
        _ => {
            let given = &program.given;
            coro(
                alloc,
                &ByFrame,
                given,
                state,
                next,
                intrinsic,
                args,
                result_name,
            )
        }
    }
}

/// What comes of an effect; `next` is the position behind the instruction, whose arguments and result are told where it is a
/// call.
pub fn act_framed(
    alloc: Global,
    program: &FramedProgram,
    state: &mut State,
    next: usize,
    args: &[Arg],
    result_name: Option<ValueId>,
    effect: Effect,
) -> Result<(), Stop>
    requires behind { next ≡ state.old.top.at + 1 }
    requires no_slot { IsFalse (is_new_slot effect) }
    ensures done { OnOk result (framed_effect (framed_of program.now) state.old args.now result_name effect ≡ Ok state.new) }
    ensures refused { IfErr result (λ stop. IsStop stop (framed_effect (framed_of program.now) state.old args.now result_name effect)) }
    ensures undone { OnErr result (IsFalse (is_done effect)) }
    ensures kept { OnErr result (state.new ≡ state.old) }
{
    match effect {
        Effect::Coro(intrinsic) => {
            coro_framed(alloc, program, state, next, intrinsic, args, result_name)
        }
        _ => act(
            alloc,
            &program.given,
            state,
            next,
            args,
            result_name,
            effect,
        ),
    }
}
