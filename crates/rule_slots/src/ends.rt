//! The points before begin, and the blocks that end there.

ghost use Rattle.std.specs.Prelude.{◌≡◌, IfOk, OnOk, IsTrue};
ghost use Rattle.flow_points.specs.Reached.{IsGraphOf};
ghost use Rattle.rule_slots.specs.Early.{AreEarlyEnds, HaveEnds, IsBeforeBegin, LabelsBelow, end_at, end_of};
ghost use Rattle.rule_windows.specs.Sets.{AreThose};

use flow_points::PointGraph;
use ir_base::{BlockId, Items, ValueId};
use ir_calls::CallOf;
use ir_model::{Block, Function, Intrinsic};
use ir_paths::Point;
use rule_windows::{PointSet, points_where, without_begin};
use std::alloc::{AllocError, Global};

/// For each label whether its block ends before begin. The labels that no block has lead behind the last block.
#[derive(Drop)]
pub struct Ends {
    pub marks: Items<bool>,
    pub other: bool,
}

/// The points to which a path from the entry leads without passing begin, and the entry.
pub fn before_begin(
    alloc: Global,
    graph: &mut PointGraph,
    function: &Function,
) -> Result<PointSet, AllocError>
    requires { IsGraphOf function.now graph.old }
    ensures before { IfOk result (AreThose (IsBeforeBegin function.now)) }
    ensures kept { OnOk result (IsGraphOf function.now graph.new) }
{
    let begin = CallOf {
        intrinsic: Intrinsic::CoroBegin,
    };
    let begins = points_where(alloc, &begin, function)?;
    let mut set = without_begin(alloc, graph, function, begins.as_slice())?;
    set.add(Point { block: 0, at: 0 })?;
    Ok(set)
}

/// The end of a block.
fn end_at(function: &Function, block: BlockId) -> Point
    ensures { result ≡ end_at function.now block }
{
    match function.blocks.get(block) {
        None => Point { block, at: 0 },
        Some(found) => Point {
            block,
            at: found.instrs.len(),
        },
    }
}

fn end_of(graph: &PointGraph, function: &Function, label: ValueId) -> Point
    requires { IsGraphOf function.now graph.now }
    ensures { result ≡ end_of function.now label }
{
    end_at(function, graph.entry(function, label).block)
}

fn end_marks(
    alloc: Global,
    graph: &PointGraph,
    function: &Function,
    before: &PointSet,
    count: usize,
) -> Result<Items<bool>, AllocError>
    requires { IsGraphOf function.now graph.now }
    ensures { IfOk result (HaveEnds function.now before.now count) }
{
    let mut marks = Items::new(alloc);
    for label in 0..count {
        marks.push(before.has(end_of(graph, function, label)))?;
    }
    Ok(marks)
}

fn labels_below(blocks: &[Block], count: usize) -> bool
    ensures { IsTrue result → LabelsBelow blocks.now count }
{
    for block in blocks {
        if block.label >= count {
            return false;
        }
    }
    true
}

/// Which labels' blocks end before begin. There is no room for a label that isn't one of the function's names.
#[tactic(auto, using(crate::proofs::EarlyEnds::ends_are))]
pub fn early_ends(
    alloc: Global,
    graph: &PointGraph,
    function: &Function,
    before: &PointSet,
) -> Result<Ends, AllocError>
    requires graph { IsGraphOf function.now graph.now }
    requires before { AreThose (IsBeforeBegin function.now) before.now }
    ensures { IfOk result (λ ends. AreEarlyEnds function.now ends.marks ends.other) }
{
    let count = function.names.len();
    let blocks = function.blocks.as_slice();
    if !labels_below(blocks, count) {
        return Err(AllocError);
    }
    let other = before.has(end_at(function, blocks.len()));
    let marks = end_marks(alloc, graph, function, before, count)?;
    Ok(Ends { marks, other })
}
