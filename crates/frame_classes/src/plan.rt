//! What is found of a function once, for all its slots.

ghost use Rattle.std.specs.Prelude.{◌≡◌, ◌||◌, IfOk, OnOk};
ghost use Rattle.flow_reach.specs.flow_blocks.Edges.{graph_of};
ghost use Rattle.ir_model.specs.declared.operand.Intrinsic.{Intrinsic as TheIntrinsic};
ghost use Rattle.ir_paths.specs.Paths.{has_point};
ghost use Rattle.ir_paths.specs.Slots.{local_of as local_of_operand, promise_of as promise_of_function};
ghost use Rattle.ir_paths.specs.Windows.{call_operand, end_block as end_block_of};
ghost use Rattle.ir_paths.specs.declared.point.Point.{Point as ThePoint};
ghost use Rattle.flow_points.specs.Rows.{is_marked};
ghost use Rattle.flow_reach.specs.Reached.{AreReachedAt, HaveShape};
ghost use Rattle.frame_classes.specs.Rows.{all_bits, call_rows as rows_of_calls, kept_rows};
ghost use Rattle.frame_classes.specs.Ways.{LeadToBlocks, coming, ways_of as ways_of_function};
ghost use Rattle.frame_classes.specs.Words.{AreAfterRows, AreBehindRows, AreClosedRows, IsPlanOf, is_inside_any};
ghost use Rattle.frame_slots.specs.rule_slots.Closed.{IsInSomeWindow};
ghost use Rattle.frame_slots.specs.rule_windows.Sets.{AreThose};

use crate::rows::{Rows, block_words, call_rows, cleared, joined, passes_by, set_rows};
use crate::ways::{edge_fronts, way_fronts, ways_of};
use flow_points::PointGraph;
use flow_reach::flow_blocks_library::{Graph, block_graph};
use flow_reach::{Passes, reached_points};
use frame_slots::flow_facts_library::windows_of;
use frame_slots::rule_shape_library::end_block;
use frame_slots::rule_windows_library::{PointSet, instr_at, points_where};
use frame_slots::{EdgeWord, Mark, PhiUse, mark_rows, phi_uses};
use ir_base::{BlockId, Items, ValueId};
use ir_calls::{CallOf, operand_of};
use ir_model::{Function, Instr, Intrinsic, Operand};
use ir_paths::{Point, Window};
use std::alloc::{AllocError, Global};

/// What is found of a function once, for all its slots.
#[derive(Drop)]
pub struct Plan {
    /// The blocks with the edges between them.
    pub graph: Graph,
    /// The end block, or behind the last block where there is none.
    pub end: BlockId,
    /// For each block where the edges of 0 and of 1 of its switch lead.
    pub ways: Items<(BlockId, BlockId)>,
    /// What phis take.
    pub phis: Items<PhiUse>,
    /// The lifetime markers.
    pub marks: Items<Items<Option<Mark>>>,
    /// The alloca that coro.id names.
    pub promise: Option<ValueId>,
    /// Rows with all bits at the suspends.
    pub suspends: Rows,
    /// All bits for each block with a suspend.
    pub own: Items<u64>,
    /// Rows with all bits after the end.
    pub after: Rows,
    /// Rows with all bits after the end and in windows.
    pub closed: Rows,
    /// Rows with all bits behind suspends.
    pub behind: Rows,
}

// ---- the promise

fn second_local(instr: &Instr) -> Option<ValueId>
    ensures { result ≡ local_of_operand (call_operand instr.now 1) }
{
    match instr {
        Instr::Call { args, .. } => match operand_of(args.as_slice(), 1) {
            Some(Operand::Local(name)) => Some(*name),
            _ => None,
        },
        _ => None,
    }
}

/// The alloca that coro.id names.
fn promise_of(alloc: Global, function: &Function) -> Result<Option<ValueId>, AllocError>
    ensures { IfOk result (λ promise. promise ≡ promise_of_function function.now) }
{
    let test = CallOf {
        intrinsic: Intrinsic::CoroId,
    };
    let ids = points_where(alloc, &test, function)?;
    match ids.get(0) {
        None => Ok(None),
        Some(point) => match instr_at(function, *point) {
            None => Ok(None),
            Some(instr) => Ok(second_local(instr)),
        },
    }
}

// ---- paths

/// The rows of the points to which paths lead from what has a question at points or on edges, as far as where it ends if it is
/// among some.
pub fn coming_rows(
    alloc: Global,
    function: &Function,
    graph: &Graph,
    rows: &Rows,
    edges: &[EdgeWord],
    stops: &Rows,
    mask: u64,
) -> Result<Rows, AllocError>
    requires graph { graph.now ≡ graph_of function.now }
    requires shape { HaveShape function.now stops.now }
    requires edges { LeadToBlocks function.now edges.now }
    ensures { IfOk result (AreReachedAt function.now (coming function.now rows.now edges.now (kept_rows mask stops.now))) }
{
    let passes = Passes {
        rows: passes_by(alloc, mask, stops, rows)?,
        fronts: edge_fronts(alloc, edges)?,
        closed: function.blocks.len(),
    };
    reached_points(alloc, function, graph, &passes)
}

/// The rows of the points outside the end block to which paths lead on the ways from blocks with these words, as far as
/// where their questions end if they are among some.
pub fn behind_rows(
    alloc: Global,
    function: &Function,
    graph: &Graph,
    ways: &Items<(BlockId, BlockId)>,
    own: &[u64],
    stops: &Rows,
    mask: u64,
    end: BlockId,
) -> Result<Rows, AllocError>
    requires graph { graph.now ≡ graph_of function.now }
    requires ways { ways.now ≡ ways_of_function function.now }
    requires shape { HaveShape function.now stops.now }
    requires end { end ≡ end_block_of function.now }
    ensures { IfOk result (AreBehindRows function.now own.now (kept_rows mask stops.now)) }
{
    let passes = Passes {
        rows: passes_by(alloc, mask, stops, &Items::new(alloc))?,
        fronts: way_fronts(alloc, ways.as_slice(), own)?,
        closed: end,
    };
    let reached = reached_points(alloc, function, graph, &passes)?;
    Ok(cleared(alloc, reached, end))
}

// ---- windows

fn add_all(set: &mut PointSet, points: &[Point]) -> Result<(), AllocError>
    ensures { OnOk result ((p : ThePoint) → is_marked set.new p ≡ (is_marked set.old p || has_point points.now p)) }
{
    for point in points {
        set.add(*point)?;
    }
    Ok(())
}

fn add_windows(set: &mut PointSet, windows: &[Window]) -> Result<(), AllocError>
    ensures { OnOk result ((p : ThePoint) → is_marked set.new p ≡ (is_marked set.old p || is_inside_any windows.now p)) }
{
    for window in windows {
        add_all(set, window.inside.as_slice())?;
    }
    Ok(())
}

/// The points in windows.
fn window_set(alloc: Global, function: &Function) -> Result<PointSet, AllocError>
    ensures { IfOk result (AreThose (IsInSomeWindow function.now)) }
{
    let mut graph = PointGraph::new(alloc, function)?;
    let windows = windows_of(alloc, function, &mut graph)?;
    let mut set = PointSet::new(alloc, function)?;
    add_windows(&mut set, windows.as_slice())?;
    Ok(set)
}

/// The rows of the points after the end and in windows.
fn closed_rows(alloc: Global, function: &Function, after: &Rows) -> Result<Rows, AllocError>
    ensures { IfOk result (AreClosedRows function.now after.now) }
{
    let set = window_set(alloc, function)?;
    let inside = set_rows(alloc, &set, function.blocks.as_slice())?;
    joined(alloc, after, &inside)
}

/// The rows of the points after the end.
fn after_rows(
    alloc: Global,
    function: &Function,
    graph: &Graph,
    suspends: &Rows,
) -> Result<Rows, AllocError>
    requires graph { graph.now ≡ graph_of function.now }
    requires suspends { suspends.now ≡ rows_of_calls TheIntrinsic.CoroSuspend all_bits function.now }
    ensures { IfOk result (AreAfterRows function.now) }
{
    let ends = call_rows(alloc, function, Intrinsic::CoroEnd, u64::MAX)?;
    coming_rows(alloc, function, graph, &ends, &[], suspends, 0)
}

/// What is found of a function once, for all its slots.
pub fn plan_of(alloc: Global, function: &Function) -> Result<Plan, AllocError>
    ensures { IfOk result (IsPlanOf function.now) }
{
    let graph = block_graph(alloc, function)?;
    let end = end_block(function);
    let ways = ways_of(alloc, function)?;
    let suspends = call_rows(alloc, function, Intrinsic::CoroSuspend, u64::MAX)?;
    let own = block_words(alloc, &suspends)?;
    let after = after_rows(alloc, function, &graph, &suspends)?;
    let closed = closed_rows(alloc, function, &after)?;
    let behind = behind_rows(
        alloc,
        function,
        &graph,
        &ways,
        own.as_slice(),
        &suspends,
        0,
        end,
    )?;
    Ok(Plan {
        graph,
        end,
        ways,
        phis: phi_uses(alloc, function)?,
        marks: mark_rows(alloc, function)?,
        promise: promise_of(alloc, function)?,
        suspends,
        own,
        after,
        closed,
        behind,
    })
}
