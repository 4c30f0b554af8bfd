//! Which slots may be alive at the suspends.

ghost use Rattle.std.specs.Prelude.{◌≡◌, ◌<◌, ◌≤◌, ◌+◌, ◌*◌, ◌%◌, [], IfOk, OnOk, length, map, min};
ghost use Rattle.frame_classes.specs.flow_blocks.Edges.{graph_of};
ghost use Rattle.ir_paths.specs.Slots.{allocas_of};
ghost use Rattle.flow_points.specs.Reached.{IsReached};
ghost use Rattle.frame_conflicts.specs.Conflicts.{AliveAt};
ghost use Rattle.frame_conflicts.specs.Known.{chunk_slots};
ghost use Rattle.frame_conflicts.specs.Pairs.{AreUpTo};
ghost use Rattle.frame_conflicts.specs.Suspended.{TellSlot, TellSuspends, alive_word as word_alive};
ghost use Rattle.frame_classes.specs.Classes.{AreClasses, suspends as suspends_of};
ghost use Rattle.frame_classes.specs.frame_slots.Markers.{mark_rows as rows_of_marks};
ghost use Rattle.frame_classes.specs.rule_windows.Points.{begins};
ghost use Rattle.frame_classes.specs.rule_windows.Sets.{AreThose};

use crate::bits::{chunk_end, has_bit, word_at, word_at_point};
use crate::facts::is_frame;
use crate::pairs::push_if;
use crate::started::{Started, started_slots};
use flow_points::PointGraph;
use flow_solver::Graph;
use frame_classes::SlotClass;
use frame_classes::flow_blocks_library::block_graph;
use frame_classes::frame_slots_library::{Mark, chunk_of, mark_rows};
use frame_classes::rule_windows_library::{PointSet, points_where, reached_set};
use ir_base::{Items, ValueId};
use ir_calls::CallOf;
use ir_model::{Function, Intrinsic};
use ir_paths::Point;
use std::alloc::{AllocError, Global};

/// The slots that may be alive at a point: from a start of theirs on, or without markers from begin on.
fn alive_word(here: &Started, behind: &PointSet, point: Point) -> u64
    ensures { result ≡ word_alive here.now.rows here.now.marked behind.now point }
{
    let word = word_at_point(&here.rows, point);
    if behind.has(point) {
        word | (here.marked ^ u64::MAX)
    } else {
        word
    }
}

fn alive_words(
    alloc: Global,
    here: &Started,
    behind: &PointSet,
    suspends: &[Point],
) -> Result<Vec<u64>, AllocError>
    ensures { IfOk result (λ words. words.items ≡ map (word_alive here.now.rows here.now.marked behind.now) suspends.now) }
{
    let mut words = Vec::new(alloc);
    for suspend in suspends {
        words.push(alive_word(here, behind, *suspend))?;
    }
    Ok(words)
}

/// For each suspend the slots of a chunk that may be alive there.
fn suspend_words(
    alloc: Global,
    function: &Function,
    graph: &Graph,
    marks: &Items<Items<Option<Mark>>>,
    behind: &PointSet,
    suspends: &[Point],
    slots: &[ValueId],
) -> Result<Vec<u64>, AllocError>
    requires graph { graph.now ≡ graph_of function.now }
    requires marks { marks.now ≡ rows_of_marks function.now }
    requires behind { AreThose (IsReached function.now (begins function.now) []) behind.now }
    requires suspends { suspends.now ≡ suspends_of function.now }
    requires slots { length slots.now ≤ 64 }
    ensures { IfOk result (λ words. TellSuspends function.now slots.now words.items) }
{
    let here = started_slots(alloc, function, graph, marks, slots)?;
    let words = alive_words(alloc, &here, behind, suspends)?;
    Ok(words)
}

// ---- pairs

/// Adds the pairs of a frame slot with the suspends at which it may be alive.
fn push_suspends(
    function: &Function,
    at: usize,
    words: &[u64],
    pairs: &mut Items<(usize, usize)>,
) -> Result<(), AllocError>
    requires told { TellSlot function.now at (at % 64) words.now }
    requires pairs { AreUpTo (AliveAt function.now) at 0 pairs.old }
    ensures { OnOk result (AreUpTo (AliveAt function.now) (at + 1) 0 pairs.new) }
{
    for suspend in 0..words.len() {
        let is_alive = has_bit(word_at(words, suspend), at % 64);
        push_if(pairs, is_alive, at, suspend)?;
    }
    Ok(())
}

/// The same for any slot of a chunk.
fn push_slot(
    function: &Function,
    classes: &Items<SlotClass>,
    chunk: usize,
    at: usize,
    words: &[u64],
    pairs: &mut Items<(usize, usize)>,
) -> Result<(), AllocError>
    requires classes { AreClasses function.now classes.now }
    requires told { TellSuspends function.now (chunk_slots function.now chunk) words.now }
    requires low { chunk * 64 ≤ at }
    requires high { at < chunk * 64 + 64 }
    requires pairs { AreUpTo (AliveAt function.now) at 0 pairs.old }
    ensures { OnOk result (AreUpTo (AliveAt function.now) (at + 1) 0 pairs.new) }
{
    if is_frame(function, classes, at) {
        push_suspends(function, at, words, pairs)?;
    }
    Ok(())
}

/// The same for the slots of a chunk.
fn push_slots(
    function: &Function,
    classes: &Items<SlotClass>,
    count: usize,
    chunk: usize,
    words: &[u64],
    pairs: &mut Items<(usize, usize)>,
) -> Result<(), AllocError>
    requires classes { AreClasses function.now classes.now }
    requires told { TellSuspends function.now (chunk_slots function.now chunk) words.now }
    requires chunk { chunk * 64 < count }
    requires pairs { AreUpTo (AliveAt function.now) (chunk * 64) 0 pairs.old }
    ensures { OnOk result (AreUpTo (AliveAt function.now) (min (chunk * 64 + 64) count) 0 pairs.new) }
{
    let start = chunk * 64;
    for at in start..chunk_end(count, start) {
        push_slot(function, classes, chunk, at, words, pairs)?;
    }
    Ok(())
}

/// What is found once of the suspends of a function.
#[derive(Drop)]
pub struct Suspended {
    pub graph: Graph,
    pub marks: Items<Items<Option<Mark>>>,
    pub behind: PointSet,
    pub suspends: Items<Point>,
}

pub fn suspended_of(alloc: Global, function: &Function) -> Result<Suspended, AllocError>
    ensures graph { IfOk result (λ s. s.graph ≡ graph_of function.now) }
    ensures marks { IfOk result (λ s. s.marks ≡ rows_of_marks function.now) }
    ensures behind { IfOk result (λ s. AreThose (IsReached function.now (begins function.now) []) s.behind) }
    ensures suspends { IfOk result (λ s. s.suspends ≡ suspends_of function.now) }
{
    let begin = CallOf {
        intrinsic: Intrinsic::CoroBegin,
    };
    let suspend = CallOf {
        intrinsic: Intrinsic::CoroSuspend,
    };
    let mut points = PointGraph::new(alloc, function)?;
    let begins = points_where(alloc, &begin, function)?;
    Ok(Suspended {
        graph: block_graph(alloc, function)?,
        marks: mark_rows(alloc, function)?,
        behind: reached_set(alloc, &mut points, function, begins.as_slice(), &[])?,
        suspends: points_where(alloc, &suspend, function)?,
    })
}

/// Adds the pairs of the slots of a chunk.
pub fn push_chunk(
    alloc: Global,
    function: &Function,
    known: &Suspended,
    classes: &Items<SlotClass>,
    slots: &[ValueId],
    chunk: usize,
    pairs: &mut Items<(usize, usize)>,
) -> Result<(), AllocError>
    requires graph { known.now.graph ≡ graph_of function.now }
    requires marks { known.now.marks ≡ rows_of_marks function.now }
    requires behind { AreThose (IsReached function.now (begins function.now) []) known.now.behind }
    requires suspends { known.now.suspends ≡ suspends_of function.now }
    requires classes { AreClasses function.now classes.now }
    requires slots { slots.now ≡ allocas_of function.now }
    requires chunk { chunk * 64 < length slots.now }
    requires pairs { AreUpTo (AliveAt function.now) (chunk * 64) 0 pairs.old }
    ensures { OnOk result (AreUpTo (AliveAt function.now) (min (chunk * 64 + 64) (length slots.now)) 0 pairs.new) }
{
    let here = chunk_of(slots, chunk);
    let suspends = known.suspends.as_slice();
    let words = suspend_words(
        alloc,
        function,
        &known.graph,
        &known.marks,
        &known.behind,
        suspends,
        here,
    )?;
    let count = slots.len();
    push_slots(function, classes, count, chunk, words.as_slice(), pairs)
}
