//! The values that cross suspends.

ghost use Rattle.std.specs.Prelude.{◌<◌, ◌*◌, ◌+◌, IfOk, OnOk, length, take};
ghost use Rattle.frame_crossing.specs.Crossing.{AreCrossing, CrossedBy};
ghost use Rattle.frame_crossing.specs.Words.{AreNumbered, AreValues, IsPlanOf};

use crate::chunks::{chunk_end, chunks_of};
use crate::far::far_numbers;
use crate::numbers::{Numbers, numbers_of};
use crate::pairs::{chunk_words, marked, push_pairs};
use crate::plan::{Plan, plan_of};
use crate::values::all_defined;
use ir_base::{Items, SuspendId, ValueId};
use ir_model::Function;
use std::alloc::{AllocError, Global};

/// Adds the pairs of the values of a chunk.
fn push_chunk(
    alloc: Global,
    function: &Function,
    plan: &Plan,
    all: &Numbers,
    chunk: usize,
    pairs: &mut Items<(ValueId, SuspendId)>,
) -> Result<(), AllocError>
    requires plan { IsPlanOf function.now plan.now }
    requires numbers { AreNumbered (length function.now.names) all.now.numbers all.now.values }
    requires values { AreValues function.now all.now.values }
    requires chunk { chunk * 64 < length all.now.values }
    requires crossed { CrossedBy function.now (take (chunk * 64) all.now.values) pairs.old }
    ensures { OnOk result (CrossedBy function.now (take (chunk * 64 + 64) all.now.values) pairs.new) }
{
    let words = chunk_words(alloc, function, plan, all, chunk)?;
    let found = marked(alloc, words.as_slice())?;
    let values = all.values.as_slice();
    let count = values.len();
    let start = chunk * 64;
    for number in start..chunk_end(count, start) {
        push_pairs(pairs, values[number], number % 64, found.as_slice())?;
    }
    Ok(())
}

/// The values that cross suspends, each with these, by the suspends' numbers: values in order of the text, parameters first,
/// and of each value its suspends in order of the text. A value crosses a suspend where its definition, then the suspend,
/// then from the suspend's resume or destroy edge on a use lie on one path, with neither the definition nor the end block
/// between that edge and the use; tokens and the results of allocas, of `coro.begin` and of `coro.frame` never do.
pub fn crossing(
    alloc: Global,
    function: &Function,
) -> Result<Items<(ValueId, SuspendId)>, AllocError>
    ensures { IfOk result (λ all. AreCrossing function.now all) }
{
    let plan = plan_of(alloc, function)?;
    let defined = all_defined(alloc, function)?;
    let known = numbers_of(alloc, function.names.len(), defined.as_slice())?;
    let all = far_numbers(alloc, function, &plan, &known)?;
    let mut pairs = Items::new(alloc);
    for chunk in 0..chunks_of(all.values.len()) {
        push_chunk(alloc, function, &plan, &all, chunk, &mut pairs)?;
    }
    Ok(pairs)
}
