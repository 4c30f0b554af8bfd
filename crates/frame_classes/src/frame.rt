//! What puts slots into the frame.

ghost use Rattle.std.specs.Prelude.{◌≡◌, IfOk};
ghost use Rattle.ir_model.specs.declared.operand.Intrinsic.{Intrinsic as TheIntrinsic};
ghost use Rattle.frame_classes.specs.Words.{AreAliveRows, AreComing, IsAcrossWord, IsAliveWord, IsChunkBy, IsFrameWord, IsMetWord, IsPlanOf, away_word as word_of_away, birth_rows as rows_of_births, end_rows, late_word as word_of_late, promise_word as word_of_promise, spots_word as word_of_spots, touch_rows, unmarked_word as word_of_unmarked};

use crate::chunk::Chunk;
use crate::plan::{Plan, behind_rows, coming_rows};
use crate::rows::{
    Rows, block_words, call_rows, common, common_word, joined, others, rows_word, touched_word,
};
use crate::ways::{edges_word, ways_word};
use frame_slots::{EdgeWord, Marker, marker_rows, name_word};
use ir_base::ValueId;
use ir_model::{Function, Intrinsic};
use std::alloc::{AllocError, Global};

/// What stands at points and on edges, and has a question of the words there.
fn spots_word(
    function: &Function,
    rows: &Rows,
    edges: &[EdgeWord],
    words: &Rows,
) -> Result<u64, AllocError>
    ensures { IfOk result (λ word. word ≡ word_of_spots function.now rows.now edges.now words.now) }
{
    Ok(edges_word(function, words, common_word(rows, words)?, edges))
}

/// What is touched behind suspends: on the ways from blocks with these words, or at points with those.
fn late_word(
    function: &Function,
    plan: &Plan,
    chunk: &Chunk,
    own: &[u64],
    behind: &Rows,
) -> Result<u64, AllocError>
    requires { IsPlanOf function.now plan.now }
    ensures { IfOk result (λ word. word ≡ word_of_late function.now (touch_rows chunk.now) chunk.now.edges own.now behind.now) }
{
    let edges = chunk.edges.as_slice();
    let met = touched_word(chunk.escaped, &chunk.uses, &chunk.starts, behind)?;
    let spots = edges_word(function, behind, met, edges);
    Ok(ways_word(plan.ways.as_slice(), own, spots, edges))
}

/// The slots that are used in a window or after the end, and touched behind a suspend.
fn away_word(function: &Function, plan: &Plan, chunk: &Chunk) -> Result<u64, AllocError>
    requires { IsPlanOf function.now plan.now }
    ensures { IfOk result (λ word. word ≡ word_of_away function.now plan.now chunk.now) }
{
    let edges = chunk.edges.as_slice();
    let early = spots_word(function, &chunk.uses, edges, &plan.closed)?;
    let late = late_word(function, plan, chunk, plan.own.as_slice(), &plan.behind)?;
    Ok(early & late)
}

/// At the suspends the slots of which a use comes there with no start between that parts it from later ones.
fn suspend_rows(
    alloc: Global,
    function: &Function,
    plan: &Plan,
    chunk: &Chunk,
) -> Result<Rows, AllocError>
    requires plan { IsPlanOf function.now plan.now }
    requires chunk { IsChunkBy function.now chunk.now }
    ensures { IfOk result (AreComing function.now plan.now chunk.now) }
{
    let edges = chunk.edges.as_slice();
    let reached = coming_rows(
        alloc,
        function,
        &plan.graph,
        &chunk.uses,
        edges,
        &chunk.starts,
        others(chunk.escaped),
    )?;
    common(alloc, &plan.suspends, &reached)
}

/// The slots that come to a suspend by these rows, and are touched behind it.
fn across_word(
    alloc: Global,
    function: &Function,
    plan: &Plan,
    chunk: &Chunk,
    rows: &Rows,
) -> Result<u64, AllocError>
    requires plan { IsPlanOf function.now plan.now }
    requires chunk { IsChunkBy function.now chunk.now }
    ensures { IfOk result (IsAcrossWord function.now chunk.now rows.now) }
{
    let own = block_words(alloc, rows)?;
    let behind = behind_rows(
        alloc,
        function,
        &plan.graph,
        &plan.ways,
        own.as_slice(),
        &chunk.starts,
        others(chunk.escaped),
        plan.end,
    )?;
    late_word(function, plan, chunk, own.as_slice(), &behind)
}

/// The slots without markers, of which these are the ends.
fn unmarked_word(function: &Function, chunk: &Chunk, ends: &Rows) -> u64
    requires { ends.now ≡ end_rows function.now chunk.now }
    ensures { result ≡ word_of_unmarked function.now chunk.now }
{
    others(rows_word(rows_word(0, &chunk.starts), ends))
}

/// Where slots begin to be alive: at their starts, and at begin if they have no markers.
fn birth_rows(
    alloc: Global,
    function: &Function,
    chunk: &Chunk,
    ends: &Rows,
) -> Result<Rows, AllocError>
    requires { ends.now ≡ end_rows function.now chunk.now }
    ensures { IfOk result (λ rows. rows ≡ rows_of_births function.now chunk.now) }
{
    let unmarked = unmarked_word(function, chunk, ends);
    let begins = call_rows(alloc, function, Intrinsic::CoroBegin, unmarked)?;
    joined(alloc, &chunk.starts, &begins)
}

/// Where slots that escape may be alive.
fn alive_rows(
    alloc: Global,
    function: &Function,
    plan: &Plan,
    chunk: &Chunk,
) -> Result<Rows, AllocError>
    requires plan { IsPlanOf function.now plan.now }
    requires chunk { IsChunkBy function.now chunk.now }
    ensures { IfOk result (AreAliveRows function.now chunk.now) }
{
    let own = chunk.own.as_slice();
    let ends = marker_rows(alloc, Marker::End, function, own, &plan.marks)?;
    let births = birth_rows(alloc, function, chunk, &ends)?;
    let escaped = chunk.escaped;
    coming_rows(alloc, function, &plan.graph, &births, &[], &ends, escaped)
}

/// The slots that escape and may be alive at a suspend that a use comes to, or at any if a use stands after the end.
fn met_word(
    alloc: Global,
    function: &Function,
    plan: &Plan,
    chunk: &Chunk,
    rows: &Rows,
) -> Result<u64, AllocError>
    requires plan { IsPlanOf function.now plan.now }
    requires chunk { IsChunkBy function.now chunk.now }
    ensures { IfOk result (IsMetWord function.now plan.now chunk.now rows.now) }
{
    let alive = alive_rows(alloc, function, plan, chunk)?;
    let met = common_word(rows, &alive)?;
    let any = common_word(&plan.suspends, &alive)?;
    let edges = chunk.edges.as_slice();
    let after = spots_word(function, &chunk.uses, edges, &plan.after)?;
    Ok(chunk.escaped & (met | (after & any)))
}

/// The same, and nothing is looked for where none escapes.
fn alive_word(
    alloc: Global,
    function: &Function,
    plan: &Plan,
    chunk: &Chunk,
    rows: &Rows,
) -> Result<u64, AllocError>
    requires plan { IsPlanOf function.now plan.now }
    requires chunk { IsChunkBy function.now chunk.now }
    ensures { IfOk result (IsAliveWord function.now plan.now chunk.now rows.now) }
{
    if chunk.escaped == 0 {
        Ok(0)
    } else {
        met_word(alloc, function, plan, chunk, rows)
    }
}

fn promise_word(promise: Option<ValueId>, own: &[u64]) -> u64
    ensures { result ≡ word_of_promise promise own.now }
{
    match promise {
        None => 0,
        Some(name) => name_word(own, name),
    }
}

/// The slots that live in the frame, unless they are the ramp's alone.
pub fn frame_word(
    alloc: Global,
    function: &Function,
    plan: &Plan,
    chunk: &Chunk,
) -> Result<u64, AllocError>
    requires plan { IsPlanOf function.now plan.now }
    requires chunk { IsChunkBy function.now chunk.now }
    ensures { IfOk result (IsFrameWord function.now plan.now chunk.now) }
{
    let rows = suspend_rows(alloc, function, plan, chunk)?;
    let across = across_word(alloc, function, plan, chunk, &rows)?;
    let alive = alive_word(alloc, function, plan, chunk, &rows)?;
    let away = away_word(function, plan, chunk)?;
    Ok(promise_word(plan.promise, chunk.own.as_slice()) | (away | (across | alive)))
}
