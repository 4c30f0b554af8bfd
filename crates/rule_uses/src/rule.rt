//! The first use that some path from the entry reaches without the definition.

ghost use Rattle.std.specs.Prelude.{◌≡◌, ◌<◌, ◌≤◌, ◌/◌, ℕ, IfOk, length, option_map, slice_get};
ghost use Rattle.flow_blocks.specs.Edges.{graph_of};
ghost use Rattle.flow_blocks.specs.Words.{AreMarked};
ghost use Rattle.rule_uses.specs.Questions.{AreNumbered, IsFirstOpen, IsFirstTold, IsNumbering, IsSettled, is_told as is_told_by};
ghost use Rattle.rule_uses.specs.Undefined.{IsFirstUndefined, params_of};
ghost use Rattle.rule_uses.specs.Uses.{uses_of};

use crate::numbers::{Numbers, numbers_of};
use crate::open_use::OpenUse;
use crate::scan::open_uses;
use crate::words::{bit_of, has_bit, made_words, reached_words};
use flow_blocks::block_graph;
use flow_solver::Graph;
use ir_base::{FuncId, Items, Place};
use ir_model::Function;
use std::alloc::{AllocError, Global};

/// A mark for each name, set for parameters.
fn param_marks(alloc: Global, function: &Function) -> Result<Items<bool>, AllocError>
    ensures { IfOk result (λ marks. AreMarked (length function.now.names) (params_of function.now) marks) }
{
    let mut marks = Items::from_vec(vec![in alloc; false; function.names.len()]?);
    for param in function.params.as_slice() {
        marks.set(param.name, true);
    }
    Ok(marks)
}

/// Whether this chunk's words say that the use is undefined.
fn is_told(
    numbers: &Items<Option<usize>>,
    chunk: usize,
    made: &[u64],
    words: &[u64],
    found: &OpenUse,
) -> bool
    ensures { result ≡ is_told_by numbers.now chunk made.now words.now found.now }
{
    match bit_of(numbers, chunk, found.value) {
        None => false,
        Some(bit) => {
            has_bit(words, found.block, bit) && !(found.at_end && has_bit(made, found.block, bit))
        }
    }
}

/// The position of the first use before a limit that this chunk's words say to be undefined, or the limit.
fn first_told(
    numbers: &Items<Option<usize>>,
    chunk: usize,
    made: &[u64],
    words: &[u64],
    opens: &[OpenUse],
    limit: usize,
) -> usize
    requires { limit ≤ length opens.now }
    ensures { IsFirstTold numbers.now chunk made.now words.now opens.now limit result }
{
    for at in 0..limit {
        if is_told(numbers, chunk, made, words, &opens[at]) {
            return at;
        }
    }
    limit
}

/// Looks for undefined uses of the values of one chunk, before a limit.
fn settle(
    alloc: Global,
    function: &Function,
    graph: &Graph,
    all: &Numbers,
    opens: &[OpenUse],
    chunk: usize,
    limit: usize,
) -> Result<usize, AllocError>
    requires graph { graph.now ≡ graph_of function.now }
    requires numbers { IsNumbering (length function.now.names) all.now.numbers all.now.values }
    requires limit { limit ≤ length opens.now }
    ensures { IfOk result (λ found. IsSettled function.now all.now.numbers opens.now chunk limit found) }
{
    let blocks = function.blocks.as_slice();
    let made = made_words(alloc, &all.numbers, chunk, blocks)?;
    let words = reached_words(alloc, function, graph, made.as_slice())?;
    Ok(first_told(
        &all.numbers,
        chunk,
        made.as_slice(),
        words.as_slice(),
        opens,
        limit,
    ))
}

/// How many chunks of 64 hold so many.
fn chunks_of(count: usize) -> usize
    ensures { (k : ℕ) → k < count → k / 64 < result }
{
    if count % 64 == 0 {
        count / 64
    } else {
        count / 64 + 1
    }
}

/// The position of the first undefined use, or the number of uses.
fn first_open(
    alloc: Global,
    function: &Function,
    all: &Numbers,
    opens: &[OpenUse],
) -> Result<usize, AllocError>
    requires { AreNumbered (length function.now.names) opens.now all.now.numbers all.now.values }
    ensures { IfOk result (λ found. IsFirstOpen function.now opens.now found) }
{
    let graph = block_graph(alloc, function)?;
    let mut limit = opens.len();
    for chunk in 0..chunks_of(all.values.len()) {
        limit = settle(alloc, function, &graph, all, opens, chunk, limit)?;
    }
    Ok(limit)
}

fn place_at(opens: &[OpenUse], at: usize) -> Option<Place>
    ensures { result ≡ option_map (λ u. u.place) (slice_get opens.now at) }
{
    match opens.get(at) {
        None => None,
        Some(found) => Some(found.place),
    }
}

/// The place of the first use, in order of the text, that some path from the entry reaches without the definition (rule F2;
/// LangRef, "Well-Formedness": an instruction's definition dominates its uses). A phi's use stands at the end of the block
/// that its label names, and parameters are defined at the entry. What no path from the entry reaches breaks nothing.
pub fn first_undefined_use(
    alloc: Global,
    func: FuncId,
    function: &Function,
) -> Result<Option<Place>, AllocError>
    ensures { IfOk result (λ found. IsFirstUndefined function.now (uses_of func function.now) found) }
{
    let params = param_marks(alloc, function)?;
    let opens = open_uses(alloc, func, function, &params)?;
    let all = numbers_of(alloc, function.names.len(), opens.as_slice())?;
    let found = first_open(alloc, function, &all, opens.as_slice())?;
    Ok(place_at(opens.as_slice(), found))
}
