//! What is found once of the slots of a function.

ghost use Rattle.std.specs.Prelude.{◌≡◌, ◌<◌, ◌≤◌, ◌/◌, ◌↔◌, ℕ, IfOk, IsTrue, length, map, slice_get};
ghost use Rattle.frame_classes.specs.flow_blocks.Edges.{graph_of};
ghost use Rattle.ir_paths.specs.Slots.{allocas_of as slots_in};
ghost use Rattle.frame_conflicts.specs.Known.{IsFrameAt, IsKnown, TellsChunk, AreChunks, is_frame_class as is_frame_by, seen_word as word_seen};
ghost use Rattle.frame_conflicts.specs.Looked.{AreLooked};
ghost use Rattle.frame_classes.specs.Classes.{AreClasses};
ghost use Rattle.frame_classes.specs.rule_slots.Early.{IsBeforeBegin};
ghost use Rattle.frame_classes.specs.frame_slots.Markers.{mark_rows as rows_of_marks};
ghost use Rattle.frame_classes.specs.frame_slots.Words.{phi_uses as uses_of_phis};
ghost use Rattle.frame_classes.specs.rule_windows.Sets.{AreThose};

use crate::bits::{chunks_of, word_at_point};
use crate::early::{before_begin, early_word};
use crate::looked::looked_points;
use crate::spots::spots_of;
use crate::started::started_slots;
use flow_points::PointGraph;
use flow_solver::Graph;
use frame_classes::SlotClass;
use frame_classes::flow_blocks_library::block_graph;
use frame_classes::frame_slots_library::{Mark, PhiUse, chunk_of, mark_rows, phi_uses, slots_of};
use frame_classes::rule_windows_library::PointSet;
use ir_base::{Items, ValueId};
use ir_model::Function;
use ir_paths::Point;
use std::alloc::{AllocError, Global};

/// Of up to 64 slots those that have markers and aren't used before begin, and for each point looked at those of them that may
/// be alive there.
#[derive(Drop)]
pub struct Chunk {
    pub loose: u64,
    pub seen: Items<u64>,
    /// The positions of the words of `seen` that aren't empty, in order.
    pub spots: Items<usize>,
}

/// The slots of a function: how many there are, their classes, and what is known of each chunk of 64.
#[derive(Drop)]
pub struct Known {
    pub count: usize,
    pub classes: Items<SlotClass>,
    pub chunks: Items<Chunk>,
}

fn is_frame_class(classes: &Items<SlotClass>, at: usize) -> bool
    ensures { result ≡ is_frame_by (slice_get classes.now at) }
{
    matches!(classes.get(at), Some(SlotClass::Frame))
}

/// Whether the slot of a position lives in the frame.
pub fn is_frame(function: &Function, classes: &Items<SlotClass>, at: usize) -> bool
    requires { AreClasses function.now classes.now }
    ensures { IsTrue result ↔ IsFrameAt function.now at }
{
    is_frame_class(classes, at)
}

fn seen_words(
    alloc: Global,
    rows: &Items<Items<u64>>,
    loose: u64,
    looked: &[Point],
) -> Result<Items<u64>, AllocError>
    ensures { IfOk result (λ words. words ≡ map (word_seen rows.now loose) looked.now) }
{
    let mut words = Items::new(alloc);
    for point in looked {
        words.push(word_at_point(rows, *point) & loose)?;
    }
    Ok(words)
}

fn chunk_facts(
    alloc: Global,
    function: &Function,
    graph: &Graph,
    before: &PointSet,
    looked: &[Point],
    uses: &[PhiUse],
    marks: &Items<Items<Option<Mark>>>,
    slots: &[ValueId],
) -> Result<Chunk, AllocError>
    requires graph { graph.now ≡ graph_of function.now }
    requires marks { marks.now ≡ rows_of_marks function.now }
    requires before { AreThose (IsBeforeBegin function.now) before.now }
    requires looked { AreLooked function.now looked.now }
    requires uses { uses.now ≡ uses_of_phis function.now }
    requires slots { length slots.now ≤ 64 }
    ensures { IfOk result (TellsChunk function.now looked.now slots.now) }
{
    let here = started_slots(alloc, function, graph, marks, slots)?;
    let early = early_word(alloc, function, before, uses, slots)?;
    let loose = here.marked & (early ^ u64::MAX);
    let seen = seen_words(alloc, &here.rows, loose, looked)?;
    let spots = spots_of(alloc, seen.as_slice())?;
    Ok(Chunk { loose, seen, spots })
}

fn all_chunks(
    alloc: Global,
    function: &Function,
    before: &PointSet,
    looked: &[Point],
    slots: &[ValueId],
) -> Result<Items<Chunk>, AllocError>
    requires before { AreThose (IsBeforeBegin function.now) before.now }
    requires looked { AreLooked function.now looked.now }
    requires slots { slots.now ≡ slots_in function.now }
    ensures chunks { IfOk result (AreChunks function.now looked.now) }
    ensures all { IfOk result (λ chunks. (i : ℕ) → i < length (slots_in function.now) → i / 64 < length chunks) }
{
    let graph = block_graph(alloc, function)?;
    let uses = phi_uses(alloc, function)?;
    let marks = mark_rows(alloc, function)?;
    let mut chunks = Items::new(alloc);
    for chunk in 0..chunks_of(slots.len()) {
        let here = chunk_of(slots, chunk);
        let facts = chunk_facts(
            alloc,
            function,
            &graph,
            before,
            looked,
            uses.as_slice(),
            &marks,
            here,
        )?;
        chunks.push(facts)?;
    }
    Ok(chunks)
}

/// What is found once of the slots of a function, by their classes.
pub fn known_of(
    alloc: Global,
    function: &Function,
    classes: Items<SlotClass>,
) -> Result<Known, AllocError>
    requires { AreClasses function.now classes }
    ensures { IfOk result (IsKnown function.now) }
{
    let mut graph = PointGraph::new(alloc, function)?;
    let before = before_begin(alloc, &mut graph, function)?;
    let looked = looked_points(alloc, &mut graph, function)?;
    let slots = slots_of(alloc, function)?;
    let chunks = all_chunks(
        alloc,
        function,
        &before,
        looked.as_slice(),
        slots.as_slice(),
    )?;
    Ok(Known {
        count: slots.len(),
        classes,
        chunks,
    })
}
