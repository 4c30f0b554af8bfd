//! The state before the first step.

ghost use Rattle.std.specs.Prelude.{◌≡◌, IfOk, map};
ghost use Rattle.run_memory.specs.declared.pointer.Value.{Value as TheValue};
ghost use Rattle.run_source.specs.Source.{first_state as first_state_of};

use crate::calls::called;
use crate::state::{Instances, Mode, State};
use ir_base::{FuncId, Items, Outcome, Word};
use run_memory::Value;
use run_source_tables::run_step_library::{Program, Stack};
use run_step_code::first_world;
use std::alloc::{AllocError, Global};

fn values_of_words(alloc: Global, words: &[Word]) -> Result<Items<Value>, AllocError>
    ensures { IfOk result (λ all. all ≡ map TheValue.Int words.now) }
{
    let mut all = Items::new(alloc);
    for word in words {
        all.push(Value::Int(*word))?;
    }
    Ok(all)
}

/// The globals' blocks, and one activation at the entry.
pub fn first_state(
    alloc: Global,
    program: &Program,
    entry: FuncId,
    args: &[Word],
) -> Result<State, AllocError>
    ensures { IfOk result (λ state. state ≡ first_state_of program.now.«module» entry args.now) }
{
    let args = values_of_words(alloc, args)?;
    Ok(State {
        world: first_world(alloc, program)?,
        instances: Instances::new(alloc),
        top: called(alloc, program, entry, args.as_slice(), None, Mode::Plain)?,
        below: Stack::new(alloc),
        outcome: Outcome::Running,
    })
}
