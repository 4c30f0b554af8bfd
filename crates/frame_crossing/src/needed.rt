//! The values of a chunk that are defined before a block, and those that are needed from its front on.

ghost use Rattle.std.specs.Prelude.{◌≡◌, ◌∷◌, ◌++◌, ℕ, [], IfOk, OnOk, Some, length, map, replicate, slice_get, slice_set};
ghost use Rattle.flow_bits.specs.Reaching.{AnswersAt};
ghost use Rattle.rule_uses.specs.Questions.{all_bits};
ghost use Rattle.frame_crossing.specs.Words.{IsPlanOf, kept_back, made_starts, needed_starts, open_starts, params_word as word_of_params, use_start as start_of_use};

use crate::edge_use::EdgeUse;
use crate::plan::Plan;
use crate::text::{params_word, value_word, without, word_at};
use flow_bits::reached;
use ir_base::{BlockId, Items};
use ir_model::Function;
use ir_parts::next;
use std::alloc::{AllocError, Global};

// ---- defined before

fn push_made(
    starts: &mut Vec<(BlockId, u64)>,
    edges: &[(BlockId, BlockId)],
    made: &[u64],
) -> Result<(), AllocError>
    ensures { OnOk result (starts.new.items ≡ starts.old.items ++ made_starts made.now edges.now) }
{
    for (from, to) in edges {
        starts.push((*to, word_at(made, *from)))?;
    }
    Ok(())
}

/// For each block the values that are defined on a path to it, parameters at the entry.
pub fn seen_words(
    alloc: Global,
    function: &Function,
    plan: &Plan,
    numbers: &Items<Option<usize>>,
    chunk: usize,
    made: &[u64],
) -> Result<Vec<u64>, AllocError>
    requires { IsPlanOf function.now plan.now }
    ensures nodes { IfOk result (λ words. length words.items ≡ plan.now.graph.nodes) }
    ensures words { IfOk result (λ words. (node word : ℕ) → slice_get words.items node ≡ Some word → AnswersAt plan.now.graph.edges (replicate (length plan.now.graph.edges) all_bits) ((0, word_of_params numbers.now chunk 0 function.now.params) ∷ made_starts made.now plan.now.graph.edges) node word) }
{
    let edges = plan.graph.edges.as_slice();
    let kept = vec![in alloc; u64::MAX; edges.len()]?;
    let params = params_word(numbers, chunk, function.params.as_slice());
    let mut starts = Vec::from_slice(alloc, &[(0, params)])?;
    push_made(&mut starts, edges, made)?;
    reached(alloc, &plan.graph, starts.as_slice(), kept.as_slice())
}

// ---- needed

fn push_open(starts: &mut Vec<(BlockId, u64)>, opens: &[u64]) -> Result<(), AllocError>
    ensures { OnOk result (starts.new.items ≡ starts.old.items ++ open_starts 0 opens.now) }
{
    let mut at = 0;
    for word in opens {
        starts.push((at, *word))?;
        at = next(at)?;
    }
    Ok(())
}

fn use_start(
    numbers: &Items<Option<usize>>,
    chunk: usize,
    stops: &[u64],
    one: &EdgeUse,
) -> (BlockId, u64)
    ensures { result ≡ start_of_use numbers.now chunk stops.now one.now }
{
    let word = value_word(numbers, chunk, one.value);
    (one.from, without(word, word_at(stops, one.from)))
}

fn push_uses(
    starts: &mut Vec<(BlockId, u64)>,
    numbers: &Items<Option<usize>>,
    chunk: usize,
    stops: &[u64],
    uses: &[EdgeUse],
) -> Result<(), AllocError>
    ensures { OnOk result (starts.new.items ≡ starts.old.items ++ map (start_of_use numbers.now chunk stops.now) uses.now) }
{
    for one in uses {
        starts.push(use_start(numbers, chunk, stops, one))?;
    }
    Ok(())
}

fn kept_words(
    alloc: Global,
    edges: &[(BlockId, BlockId)],
    stops: &[u64],
) -> Result<Vec<u64>, AllocError>
    ensures { IfOk result (λ words. words.items ≡ map (kept_back stops.now) edges.now) }
{
    let mut words = Vec::new(alloc);
    for (_, from) in edges {
        words.push(word_at(stops, *from) ^ u64::MAX)?;
    }
    Ok(words)
}

/// For each block the values that are needed from its front on, phis included: `stops` has for each block what ends the need
/// of a value behind it, and `opens` what it uses before.
pub fn needed_words(
    alloc: Global,
    function: &Function,
    plan: &Plan,
    numbers: &Items<Option<usize>>,
    chunk: usize,
    stops: &[u64],
    opens: &[u64],
) -> Result<Vec<u64>, AllocError>
    requires plan { IsPlanOf function.now plan.now }
    requires opens { length opens.now ≡ length function.now.blocks }
    ensures nodes { IfOk result (λ words. length words.items ≡ plan.now.back.nodes) }
    ensures words { IfOk result (λ words. (node word : ℕ) → slice_get words.items node ≡ Some word → AnswersAt plan.now.back.edges (map (kept_back stops.now) plan.now.back.edges) (needed_starts numbers.now chunk stops.now opens.now plan.now.uses) node word) }
{
    let kept = kept_words(alloc, plan.back.edges.as_slice(), stops)?;
    let mut starts = Vec::new(alloc);
    push_open(&mut starts, opens)?;
    push_uses(&mut starts, numbers, chunk, stops, plan.uses.as_slice())?;
    starts.reverse();
    reached(alloc, &plan.back, starts.as_slice(), kept.as_slice())
}
