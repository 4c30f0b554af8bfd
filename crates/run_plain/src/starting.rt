//! The state before the first step.

ghost use Rattle.std.specs.Prelude.{◌≡◌, IfOk, map};
ghost use Rattle.run_memory.specs.declared.pointer.Value.{Value as TheValue};
ghost use Rattle.run_plain.specs.Plain.{plain_first};

use crate::effects::called;
use crate::state::PlainState;
use ir_base::{FuncId, Items, Outcome, Word};
use run_memory::Value;
use run_step::{Program, Stack};
use run_step_code::first_world;
use std::alloc::{AllocError, Global};

fn values_of_words(alloc: Global, words: &[Word]) -> Result<Items<Value>, AllocError>
    ensures { IfOk result (λ all. all ≡ map TheValue.Int words.now) }
{
    let mut all = Items::new(alloc);
    for word in words {
        all.push(Value::Int(*word))?;
    }
    Ok(all)
}

/// The globals' blocks, and one activation at the entry.
pub fn first_state(
    alloc: Global,
    program: &Program,
    entry: FuncId,
    args: &[Word],
) -> Result<PlainState, AllocError>
    ensures { IfOk result (λ state. state ≡ plain_first program.now.«module» entry args.now) }
{
    let args = values_of_words(alloc, args)?;
    Ok(PlainState {
        world: first_world(alloc, program)?,
        top: called(alloc, program, entry, args.as_slice(), None)?,
        below: Stack::new(alloc),
        elided: 0,
        outcome: Outcome::Running,
    })
}
