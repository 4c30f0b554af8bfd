//! The points to which paths lead.

ghost use Rattle.std.specs.Prelude.{◌≡◌, ◌++◌, ◌+◌, ◌<◌, ℕ, IfOk, OnOk, Some, length, map, slice_get};
ghost use Rattle.flow_bits.specs.Reaching.{AnswersAt};
ghost use Rattle.flow_blocks.specs.Edges.{graph_of};
ghost use Rattle.flow_reach.specs.Reached.{AreBlocks, AreReachedAt, HaveShape};
ghost use Rattle.flow_reach.specs.Rows.{each_from, kept_word as word_kept, made_of, made_start, stops_of, words_of};

use crate::question::{Pass, Passes};
use crate::row::{out_word, row_words, shut_word, stops_word, word_at};
use flow_bits::reached;
use flow_solver::Graph;
use ir_base::{BlockId, Items};
use ir_model::Function;
use ir_parts::next;
use std::alloc::{AllocError, Global};

/// For each block the questions whose paths begin in it and leave it.
fn made_words(alloc: Global, closed: BlockId, rows: &[Items<Pass>]) -> Result<Vec<u64>, AllocError>
    ensures { IfOk result (λ words. words.items ≡ each_from (made_of closed) 0 rows.now) }
{
    let mut words = Vec::with_capacity(alloc, rows.len())?;
    let mut at = 0;
    for row in rows {
        words.push(out_word(shut_word(closed, at), 0, row.as_slice()))?;
        at = next(at)?;
    }
    Ok(words)
}

/// For each block the questions whose paths don't lead through it.
fn stop_words(alloc: Global, closed: BlockId, rows: &[Items<Pass>]) -> Result<Vec<u64>, AllocError>
    ensures { IfOk result (λ words. words.items ≡ each_from (stops_of closed) 0 rows.now) }
{
    let mut words = Vec::with_capacity(alloc, rows.len())?;
    let mut at = 0;
    for row in rows {
        words.push(stops_word(shut_word(closed, at), row.as_slice()))?;
        at = next(at)?;
    }
    Ok(words)
}

/// For each edge the questions whose paths lead through the block that it leaves.
fn kept_words(
    alloc: Global,
    edges: &[(BlockId, BlockId)],
    stops: &[u64],
) -> Result<Vec<u64>, AllocError>
    ensures { IfOk result (λ words. words.items ≡ map (word_kept stops.now) edges.now) }
{
    let mut words = Vec::with_capacity(alloc, edges.len())?;
    for (from, _) in edges {
        words.push(word_at(stops, *from) ^ u64::MAX)?;
    }
    Ok(words)
}

fn push_made(
    starts: &mut Vec<(BlockId, u64)>,
    edges: &[(BlockId, BlockId)],
    made: &[u64],
) -> Result<(), AllocError>
    ensures { OnOk result (starts.new.items ≡ starts.old.items ++ map (made_start made.now) edges.now) }
{
    for (from, to) in edges {
        starts.push((*to, word_at(made, *from)))?;
    }
    Ok(())
}

/// For each block the questions whose paths come to its front.
fn front_words(
    alloc: Global,
    function: &Function,
    graph: &Graph,
    fronts: &[(BlockId, u64)],
    made: &[u64],
    stops: &[u64],
) -> Result<Vec<u64>, AllocError>
    requires graph { graph.now ≡ graph_of function.now }
    requires fronts { AreBlocks function.now fronts.now }
    ensures nodes { IfOk result (λ words. length words.items ≡ length function.now.blocks + 1) }
    ensures words { IfOk result (λ words. (node word : ℕ) → slice_get words.items node ≡ Some word → AnswersAt graph.now.edges (map (word_kept stops.now) graph.now.edges) (fronts.now ++ map (made_start made.now) graph.now.edges) node word) }
{
    let edges = graph.edges.as_slice();
    let kept = kept_words(alloc, edges, stops)?;
    let mut starts = Vec::from_slice(alloc, fronts)?;
    push_made(&mut starts, edges, made)?;
    reached(alloc, graph, starts.as_slice(), kept.as_slice())
}

/// For each point the questions whose paths come to it, by those that come to the fronts of the blocks.
fn all_words(
    alloc: Global,
    closed: BlockId,
    words: &[u64],
    rows: &[Items<Pass>],
) -> Result<Items<Items<u64>>, AllocError>
    ensures { IfOk result (λ all. all ≡ each_from (words_of closed words.now) 0 rows.now) }
{
    let mut all = Vec::with_capacity(alloc, rows.len())?;
    let mut at = 0;
    for row in rows {
        let here = row_words(
            alloc,
            shut_word(closed, at),
            word_at(words, at),
            row.as_slice(),
        )?;
        all.push(here)?;
        at = next(at)?;
    }
    Ok(Items::from_vec(all))
}

/// For each point of a function, a word in the row of its block, with the bit of each question of which a path leads there: the
/// last word of a row is the terminator's. The graph is that of the function's blocks.
pub fn reached_points(
    alloc: Global,
    function: &Function,
    graph: &Graph,
    passes: &Passes,
) -> Result<Items<Items<u64>>, AllocError>
    requires graph { graph.now ≡ graph_of function.now }
    requires rows { HaveShape function.now passes.now.rows }
    requires fronts { AreBlocks function.now passes.now.fronts }
    ensures { IfOk result (AreReachedAt function.now passes.now) }
{
    let rows = passes.rows.as_slice();
    let made = made_words(alloc, passes.closed, rows)?;
    let stops = stop_words(alloc, passes.closed, rows)?;
    let fronts = passes.fronts.as_slice();
    let words = front_words(
        alloc,
        function,
        graph,
        fronts,
        made.as_slice(),
        stops.as_slice(),
    )?;
    all_words(alloc, passes.closed, words.as_slice(), rows)
}
