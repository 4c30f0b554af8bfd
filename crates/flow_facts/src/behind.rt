//! The points behind a suspend.

ghost use Rattle.std.specs.Prelude.{◌≡◌, ◌++◌, ◌∷◌, [], IfOk, OnOk, false, flat_map, replicate, true};
ghost use Rattle.std.specs.List.{list_any};
ghost use Rattle.flow_points.specs.ir_paths.Paths.{has_point, block_points as block_points_of};
ghost use Rattle.flow_points.specs.ir_paths.Slots.{end_points as end_points_of};
ghost use Rattle.flow_points.specs.ir_paths.Windows.{end_block as end_block_of, is_call_of as is_call, label_in as label_in_cases, label_of_term as label_of_terminator};
ghost use Rattle.flow_facts.specs.Slots.{AreBehind, AreEntered, end_from, entered_by, entered_with, outside_if, firsts_from};
ghost use Rattle.flow_points.specs.Reached.{IsGraphOf};

use flow_points::PointGraph;
use flow_points::ir_paths_library::Point;
use ir_base::{BlockId, Items, ValueId};
use ir_calls::{is_call_of, is_number};
use ir_model::{Block, Case, Function, Instr, Intrinsic, Terminator};
use std::alloc::{AllocError, Global};

fn has_call(intrinsic: Intrinsic, instrs: &[Instr]) -> bool
    ensures { result ≡ list_any (is_call intrinsic) instrs.now }
{
    instrs.iter().any(|instr| is_call_of(intrinsic, instr))
}

fn label_in(number: u64, cases: &[Case], default: ValueId) -> ValueId
    ensures { result ≡ label_in_cases number cases.now default }
{
    for case in cases {
        if is_number(number, &case.arg.value) {
            return case.target;
        }
    }
    default
}

fn label_of(number: u64, term: &Terminator) -> ValueId
    ensures { result ≡ label_of_terminator number term.now }
{
    match term {
        Terminator::Switch { default, cases, .. } => label_in(number, cases.as_slice(), *default),
        _ => 0,
    }
}

fn end_in(blocks: &[Block]) -> BlockId
    ensures { result ≡ end_from blocks.now }
{
    for (at, block) in blocks.iter().enumerate() {
        if has_call(Intrinsic::CoroEnd, block.instrs.as_slice()) {
            return at;
        }
    }
    blocks.len()
}

/// The position of the block of coro.end, or that behind the last block.
#[tactic(auto, using(crate::proofs::Ends::end_from_is))]
fn end_block(function: &Function) -> BlockId
    ensures { result ≡ end_block_of function.now }
{
    end_in(function.blocks.as_slice())
}

/// The points of a block of so many instructions, the last one first.
fn block_points(alloc: Global, block: BlockId, count: usize) -> Result<Items<Point>, AllocError>
    ensures { IfOk result (λ all. all ≡ block_points_of block count) }
{
    let mut all = Items::new(alloc);
    for back in 0..count {
        all.push(Point {
            block,
            at: count - back,
        })?;
    }
    all.push(Point { block, at: 0 })?;
    Ok(all)
}

/// The points of the end block.
fn end_points(alloc: Global, function: &Function, end: BlockId) -> Result<Items<Point>, AllocError>
    requires { end ≡ end_block_of function.now }
    ensures { IfOk result (λ all. all ≡ end_points_of function.now) }
{
    match function.blocks.get(end) {
        None => Ok(Items::new(alloc)),
        Some(block) => block_points(alloc, end, block.instrs.len()),
    }
}

/// Marks the blocks at the resume and destroy edges of a block's suspends.
fn enter(function: &Function, graph: &PointGraph, block: &Block, entered: &mut Items<bool>)
    requires { IsGraphOf function.now graph.now }
    ensures { entered.new ≡ entered_with function.now block.now entered.old }
{
    if has_call(Intrinsic::CoroSuspend, block.instrs.as_slice()) {
        let resume = graph.entry(function, label_of(0, &block.term));
        let destroy = graph.entry(function, label_of(1, &block.term));
        entered.set(resume.block, true);
        entered.set(destroy.block, true);
    }
}

fn enter_all(function: &Function, graph: &PointGraph, entered: &mut Items<bool>)
    requires { IsGraphOf function.now graph.now }
    ensures { entered.new ≡ entered_by function.now function.now.blocks entered.old }
{
    for block in function.blocks.as_slice() {
        enter(function, graph, block, entered);
    }
}

/// So many marks and one more, none of them set.
fn no_marks(alloc: Global, count: usize) -> Result<Items<bool>, AllocError>
    ensures { IfOk result (λ marks. marks ≡ replicate count false ++ false ∷ []) }
{
    let mut marks = Items::from_vec(vec![in alloc; false; count]?);
    marks.push(false)?;
    Ok(marks)
}

/// Which blocks stand at the resume or destroy edges of suspends, with one place for labels that no block has.
fn entered_blocks(
    alloc: Global,
    function: &Function,
    graph: &PointGraph,
) -> Result<Items<bool>, AllocError>
    requires { IsGraphOf function.now graph.now }
    ensures { IfOk result (λ entered. AreEntered function.now entered) }
{
    let mut entered = no_marks(alloc, function.blocks.len())?;
    enter_all(function, graph, &mut entered);
    Ok(entered)
}

/// Whether a point is one of the end block.
fn is_in_end(function: &Function, end: BlockId, point: Point) -> bool
    requires { end ≡ end_block_of function.now }
    ensures { result ≡ has_point (end_points_of function.now) point }
{
    match function.blocks.get(end) {
        None => false,
        Some(block) => point.block == end && point.at <= block.instrs.len(),
    }
}

/// Adds a point, if it is asked for and none of the end block.
fn push_outside_if(
    function: &Function,
    end: BlockId,
    is_asked: bool,
    point: Point,
    all: &mut Items<Point>,
) -> Result<(), AllocError>
    requires { end ≡ end_block_of function.now }
    ensures { OnOk result (all.new ≡ all.old ++ outside_if function.now is_asked point) }
{
    if is_asked && !is_in_end(function, end, point) {
        all.push(point)?;
    }
    Ok(())
}

/// The first points of the blocks marked that are none of the end block.
fn first_points(
    alloc: Global,
    function: &Function,
    end: BlockId,
    entered: &[bool],
) -> Result<Items<Point>, AllocError>
    requires { end ≡ end_block_of function.now }
    ensures { IfOk result (λ all. all ≡ firsts_from function.now 0 entered.now) }
{
    let mut all = Items::new(alloc);
    for (block, is_entered) in entered.iter().enumerate() {
        push_outside_if(function, end, *is_entered, Point { block, at: 0 }, &mut all)?;
    }
    Ok(all)
}

/// Adds those of the points that are none of the end block.
fn push_outside(
    function: &Function,
    end: BlockId,
    points: &[Point],
    all: &mut Items<Point>,
) -> Result<(), AllocError>
    requires { end ≡ end_block_of function.now }
    ensures { OnOk result (all.new ≡ all.old ++ flat_map (outside_if function.now true) points.now) }
{
    for point in points {
        push_outside_if(function, end, true, *point, all)?;
    }
    Ok(())
}

/// The points behind a suspend.
pub fn points_behind(
    alloc: Global,
    function: &Function,
    graph: &mut PointGraph,
) -> Result<Items<Point>, AllocError>
    requires { IsGraphOf function.now graph.old }
    ensures points { IfOk result (λ points. AreBehind function.now points) }
    ensures kept { OnOk result (IsGraphOf function.now graph.new) }
{
    let end = end_block(function);
    let avoided = end_points(alloc, function, end)?;
    let entered = entered_blocks(alloc, function, graph)?;
    let mut all = first_points(alloc, function, end, entered.as_slice())?;
    let reached = graph.reached_from(alloc, function, all.as_slice(), avoided.as_slice())?;
    push_outside(function, end, reached.as_slice(), &mut all)?;
    Ok(all)
}
