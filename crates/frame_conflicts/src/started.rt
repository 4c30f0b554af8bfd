//! Where up to 64 slots may be alive from their starts on.

ghost use Rattle.std.specs.Prelude.{◌≡◌, ◌≤◌, IfOk, length};
ghost use Rattle.frame_classes.specs.flow_blocks.Edges.{graph_of};
ghost use Rattle.frame_classes.specs.frame_slots.Markers.{mark_rows as rows_of_marks};
ghost use Rattle.frame_conflicts.specs.Started.{AreStarted, HaveMarkers, marked_pass as pass_of_mark, marked_passes as passes_of_marks, marked_row as row_of_passes, pass_rows as rows_of_passes, row_word as word_of_row, rows_word as word_of_rows};

use flow_solver::Graph;
use frame_classes::flow_reach_library::{Pass, Passes, reached_points};
use frame_classes::frame_slots_library::{Mark, Marker, marker_word, slot_words};
use ir_base::{Items, ValueId};
use ir_model::Function;
use std::alloc::{AllocError, Global};

/// Where up to 64 slots may be alive from their starts on, for each point a word, and the slots that have markers.
#[derive(Drop)]
pub struct Started {
    pub rows: Items<Items<u64>>,
    pub marked: u64,
}

// ---- passes

/// What a point does: paths of a slot begin behind its starts and end at its ends.
fn pass_of(names: &[u64], mark: Option<Mark>) -> Pass
    ensures { result ≡ pass_of_mark names.now mark }
{
    Pass {
        stops: marker_word(Marker::End, names, mark),
        begins: marker_word(Marker::Start, names, mark),
    }
}

fn pass_row(alloc: Global, names: &[u64], marks: &[Option<Mark>]) -> Result<Items<Pass>, AllocError>
    ensures { IfOk result (λ row. row ≡ row_of_passes names.now marks.now) }
{
    let mut row = Vec::with_capacity(alloc, marks.len() + 1)?;
    for mark in marks {
        row.push(pass_of(names, *mark))?;
    }
    row.push(Pass {
        stops: 0,
        begins: 0,
    })?;
    Ok(Items::from_vec(row))
}

fn passes_by(
    alloc: Global,
    names: &[u64],
    marks: &[Items<Option<Mark>>],
) -> Result<Items<Items<Pass>>, AllocError>
    ensures { IfOk result (λ rows. rows ≡ passes_of_marks names.now marks.now) }
{
    let mut rows = Vec::with_capacity(alloc, marks.len())?;
    for row in marks {
        rows.push(pass_row(alloc, names, row.as_slice())?)?;
    }
    Ok(Items::from_vec(rows))
}

/// What the points of a function do, by its markers.
fn pass_rows(
    alloc: Global,
    names: &[u64],
    function: &Function,
    marks: &Items<Items<Option<Mark>>>,
) -> Result<Items<Items<Pass>>, AllocError>
    requires { marks.now ≡ rows_of_marks function.now }
    ensures { IfOk result (λ rows. rows ≡ rows_of_passes names.now function.now) }
{
    passes_by(alloc, names, marks.as_slice())
}

// ---- words

fn row_word(first: u64, row: &[Pass]) -> u64
    ensures { result ≡ word_of_row first row.now }
{
    let mut word = first;
    for pass in row {
        word |= pass.stops | pass.begins;
    }
    word
}

/// The slots that start or end at a point of these rows.
fn rows_word(rows: &[Items<Pass>]) -> u64
    ensures { result ≡ word_of_rows 0 rows.now }
{
    let mut word = 0;
    for row in rows {
        word = row_word(word, row.as_slice());
    }
    word
}

/// For each point of a function a word with the bit of each of these slots to whose starts a path leads back from there without
/// an end of the slot between, and the slots that have markers.
pub fn started_slots(
    alloc: Global,
    function: &Function,
    graph: &Graph,
    marks: &Items<Items<Option<Mark>>>,
    slots: &[ValueId],
) -> Result<Started, AllocError>
    requires marks { marks.now ≡ rows_of_marks function.now }
    requires graph { graph.now ≡ graph_of function.now }
    requires slots { length slots.now ≤ 64 }
    ensures rows { IfOk result (λ s. AreStarted function.now slots.now s.rows) }
    ensures marked { IfOk result (λ s. HaveMarkers function.now slots.now s.marked) }
{
    let words = slot_words(alloc, slots)?;
    let rows = pass_rows(alloc, words.as_slice(), function, marks)?;
    let marked = rows_word(rows.as_slice());
    let passes = Passes {
        rows,
        fronts: Items::new(alloc),
        closed: function.blocks.len(),
    };
    let found = reached_points(alloc, function, graph, &passes)?;
    Ok(Started {
        rows: found,
        marked,
    })
}
