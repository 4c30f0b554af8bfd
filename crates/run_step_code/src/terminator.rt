//! Terminators.

ghost use Rattle.std.specs.Prelude.{◌≡◌, IsFalse};
ghost use Rattle.run_memory.specs.Memory.{Rights};
ghost use Rattle.ir_model.specs.declared.module.Function.{Function as TheFunction};
ghost use Rattle.run_step.specs.declared.world.World.{World as TheWorld};
ghost use Rattle.run_step.specs.Step.{branch as branch_of, is_word as is_word_of, target_of as target_of_word, switch as switch_of, term_action, Work};
ghost use Rattle.run_step.specs.Effects.{IsEffect, context, is_new_slot, work};

use ir_base::{Cause, ValueId, Word};
use ir_model::{Case, Terminator};
use run_memory::Value;
use run_step::{Effect, Program, Values};

fn branch(condition: Value, yes: ValueId, no: ValueId) -> Effect
    ensures no_slot { IsFalse (is_new_slot result) }
    ensures done { (w : Work) → IsEffect result w w (branch_of condition yes no) }
{
    match condition {
        Value::Int(word) => {
            if word.bits == 1 {
                Effect::GoTo(yes)
            } else {
                Effect::GoTo(no)
            }
        }
        _ => Effect::Stuck(Cause::Poison),
    }
}

/// Whether a value is a word with the bits of another.
fn is_word(word: Word, value: Value) -> bool
    ensures { result ≡ is_word_of word value }
{
    match value {
        Value::Int(other) => word.bits == other.bits,
        _ => false,
    }
}

/// The label of the first case with the value.
fn target_of(program: &Program, word: Word, default: ValueId, cases: &[Case]) -> ValueId
    ensures { result ≡ target_of_word program.now.«module» word default cases.now }
{
    for case in cases {
        if is_word(word, program.fixed_value(&case.arg)) {
            return case.target;
        }
    }
    default
}

fn switch(program: &Program, value: Value, default: ValueId, cases: &[Case]) -> Effect
    ensures no_slot { IsFalse (is_new_slot result) }
    ensures done { (w : Work) → IsEffect result w w (switch_of program.now.«module» value default cases.now) }
{
    match value {
        Value::Int(word) => Effect::GoTo(target_of(program, word, default, cases)),
        _ => Effect::Stuck(Cause::Poison),
    }
}

/// What comes of a terminator.
pub fn terminate(program: &Program, values: &Values, term: &Terminator) -> Effect
    ensures no_slot { IsFalse (is_new_slot result) }
    ensures done { (rights : Rights) (f : TheFunction) (world : TheWorld) → IsEffect result (work world values.now) (work world values.now) (term_action (context program.now.«module» program.now.answers rights f) (work world values.now) term.now) }
{
    match term {
        Terminator::Jump(label) => Effect::GoTo(*label),
        Terminator::Branch { cond, yes, no } => {
            branch(program.condition_in(values, cond), *yes, *no)
        }
        Terminator::Switch {
            arg,
            default,
            cases,
        } => switch(
            program,
            program.value_of_arg(values, arg),
            *default,
            cases.as_slice(),
        ),
        Terminator::Ret(None) => Effect::Return(None),
        Terminator::Ret(Some(arg)) => Effect::Return(Some(program.value_of_arg(values, arg))),
        Terminator::Unreachable => Effect::Stuck(Cause::Unreachable),
    }
}
