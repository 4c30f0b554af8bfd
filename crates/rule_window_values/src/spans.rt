//! The values made in windows, and where the suspends' own edges lead.

ghost use Rattle.std.specs.Prelude.{◌≡◌, ◌↔◌, ◌++◌, All, IfOk, OnOk, IsTrue, MatchOption, None, Some, map};
ghost use Rattle.ir_paths.specs.Facts.{IsWindow};
ghost use Rattle.ir_paths.specs.Paths.{has_point as has_the_point, same_point};
ghost use Rattle.ir_paths.specs.Windows.{instr_at as instr_at_point};
ghost use Rattle.flow_points.specs.Reached.{IsGraphOf};
ghost use Rattle.rule_window_values.specs.Kept.{phi_results};
ghost use Rattle.rule_window_values.specs.Spans.{AreSpans, AreSpansOf, IsFrontOf, IsSpanOf, front_values, inside_values, pairs_of, point_values, result_in, values_if};

use crate::labels::{destroy_label, resume_label};
use flow_facts::windows_of;
use flow_points::PointGraph;
use ir_base::{BlockId, Items, ValueId};
use ir_model::{Function, Instr, Phi};
use ir_parts::result_of;
use ir_paths::{Point, Window};
use std::alloc::{AllocError, Global};

/// The values made in the window of a save, the block of its suspend, and the blocks to which that suspend's resume and
/// destroy edges lead.
#[derive(Drop)]
pub struct Span {
    pub block: BlockId,
    pub resumed: BlockId,
    pub destroyed: BlockId,
    pub values: Items<ValueId>,
}

fn has_point(points: &[Point], point: Point) -> bool
    ensures { result ≡ has_the_point points.now point }
{
    for one in points {
        if point.block == one.block && point.at == one.at {
            return true;
        }
    }
    false
}

fn instr_at(function: &Function, point: Point) -> Option<&Instr>
    ensures { MatchOption result (instr_at_point function.now point ≡ None) (λ i. instr_at_point function.now point ≡ Some i.now) }
{
    match function.blocks.get(point.block) {
        None => None,
        Some(block) => block.instrs.get(point.at),
    }
}

// ---- the values at points

fn add_phis(values: &mut Items<ValueId>, phis: &[Phi]) -> Result<(), AllocError>
    ensures { OnOk result (values.new ≡ values.old ++ map (λ p. p.result) phis.now) }
{
    for phi in phis {
        values.push(phi.result)?;
    }
    Ok(())
}

/// Adds the values of a block's phis.
fn add_front(
    values: &mut Items<ValueId>,
    function: &Function,
    block: BlockId,
) -> Result<(), AllocError>
    ensures { OnOk result (values.new ≡ values.old ++ phi_results function.now block) }
{
    match function.blocks.get(block) {
        None => Ok(()),
        Some(found) => add_phis(values, found.phis.as_slice()),
    }
}

fn add_front_at(
    values: &mut Items<ValueId>,
    function: &Function,
    point: Point,
) -> Result<(), AllocError>
    ensures { OnOk result (values.new ≡ values.old ++ front_values function.now point.block point.at) }
{
    match point.at {
        0 => add_front(values, function, point.block),
        _ => Ok(()),
    }
}

fn add_result(
    values: &mut Items<ValueId>,
    function: &Function,
    point: Point,
) -> Result<(), AllocError>
    ensures { OnOk result (values.new ≡ values.old ++ result_in (instr_at_point function.now point)) }
{
    match instr_at(function, point) {
        None => Ok(()),
        Some(instr) => {
            if let Some(value) = result_of(instr) {
                values.push(value)?;
            }
            Ok(())
        }
    }
}

/// Adds the values made at a point: of the instruction there, and of the phis before it.
fn add_point(
    values: &mut Items<ValueId>,
    function: &Function,
    point: Point,
) -> Result<(), AllocError>
    ensures { OnOk result (values.new ≡ values.old ++ point_values function.now point) }
{
    add_front_at(values, function, point)?;
    add_result(values, function, point)
}

fn values_inside(
    alloc: Global,
    function: &Function,
    points: &[Point],
) -> Result<Items<ValueId>, AllocError>
    ensures { IfOk result (λ values. values ≡ inside_values function.now points.now) }
{
    let mut values = Items::new(alloc);
    for point in points {
        add_point(&mut values, function, *point)?;
    }
    Ok(values)
}

// ---- spans

fn add_front_if(
    values: &mut Items<ValueId>,
    function: &Function,
    block: BlockId,
    front: bool,
) -> Result<(), AllocError>
    ensures { OnOk result (values.new ≡ values.old ++ values_if front (phi_results function.now block)) }
{
    if front {
        add_front(values, function, block)?;
    }
    Ok(())
}

/// Whether the suspend is the first of its block, and a path leads to it from the save with neither between.
fn is_front(
    alloc: Global,
    graph: &mut PointGraph,
    function: &Function,
    save: Point,
    suspend: Point,
) -> Result<bool, AllocError>
    requires { IsGraphOf function.now graph.old }
    ensures front { IfOk result (λ b. IsTrue b ↔ IsFrontOf function.now save suspend) }
    ensures kept { OnOk result (IsGraphOf function.now graph.new) }
{
    if suspend.at != 0 {
        return Ok(false);
    }
    let back = graph.leading_to(alloc, function, &[suspend], &[save, suspend])?;
    Ok(has_point(back.as_slice(), save))
}

/// The span of a window.
fn span_of(
    alloc: Global,
    graph: &mut PointGraph,
    function: &Function,
    window: &Window,
) -> Result<Span, AllocError>
    requires graph { IsGraphOf function.now graph.old }
    requires window { IsWindow function.now window.now }
    ensures span { IfOk result (IsSpanOf function.now window.now.save window.now.suspend) }
    ensures kept { OnOk result (IsGraphOf function.now graph.new) }
{
    let suspend = window.suspend;
    let mut values = values_inside(alloc, function, window.inside.as_slice())?;
    let front = is_front(alloc, graph, function, window.save, suspend)?;
    add_front_if(&mut values, function, suspend.block, front)?;
    let resumed = graph.entry(function, resume_label(function, suspend));
    let destroyed = graph.entry(function, destroy_label(function, suspend));
    Ok(Span {
        block: suspend.block,
        resumed: resumed.block,
        destroyed: destroyed.block,
        values,
    })
}

fn spans_by(
    alloc: Global,
    graph: &mut PointGraph,
    function: &Function,
    windows: &[Window],
) -> Result<Items<Span>, AllocError>
    requires graph { IsGraphOf function.now graph.old }
    requires windows { All (IsWindow function.now) windows.now }
    ensures { IfOk result (AreSpans function.now (pairs_of windows.now)) }
{
    let mut spans = Items::new(alloc);
    for window in windows {
        spans.push(span_of(alloc, graph, function, window)?)?;
    }
    Ok(spans)
}

/// The spans of a function's saves, in order of the text.
pub fn spans_of(alloc: Global, function: &Function) -> Result<Items<Span>, AllocError>
    ensures { IfOk result (AreSpansOf function.now) }
{
    let mut graph = PointGraph::new(alloc, function)?;
    let windows = windows_of(alloc, function, &mut graph)?;
    spans_by(alloc, &mut graph, function, windows.as_slice())
}
