//! Points of a function, and their places.

ghost use Rattle.std.specs.Prelude.{◌≡◌, ◌++◌, ◌+◌, IfOk, OnOk, MatchOption, None, Some, slice_get};
ghost use Rattle.flow_points.specs.ir_paths.Paths.{has_point as has_the_point, same_point};
ghost use Rattle.flow_points.specs.ir_paths.Windows.{instr_at as instr_at_point, points_from, points_in, points_where as points_where_of};
ghost use Rattle.rule_windows.specs.Points.{phi_count, place_of as place_of_point, point_in, point_of as point_of_place, pushed_if};

use flow_points::ir_paths_library::Point;
use ir_base::{BlockId, FuncId, Items, Place};
use ir_calls::InstrTest;
use ir_parts::ir_model_library::{Block, Function, Instr};
use ir_parts::{instr_place, next};
use std::alloc::{AllocError, Global};

/// Whether both are the same point.
pub fn is_same_point(a: Point, b: Point) -> bool
    ensures { result ≡ same_point a b }
{
    a.block == b.block && a.at == b.at
}

/// Whether the point is among these.
pub fn has_point(points: &[Point], point: Point) -> bool
    ensures { result ≡ has_the_point points.now point }
{
    for one in points {
        if is_same_point(point, *one) {
            return true;
        }
    }
    false
}

/// The instruction at a point, where there is one.
pub fn instr_at(function: &Function, point: Point) -> Option<&Instr>
    ensures { MatchOption result (instr_at_point function.now point ≡ None) (λ i. instr_at_point function.now point ≡ Some i.now) }
{
    match function.blocks.get(point.block) {
        None => None,
        Some(block) => block.instrs.get(point.at),
    }
}

fn phi_count(function: &Function, block: BlockId) -> usize
    ensures { result ≡ phi_count function.now block }
{
    match function.blocks.get(block) {
        None => 0,
        Some(block) => block.phis.len(),
    }
}

/// The place of a point, which counts the phis of its block.
pub fn place_of(func: FuncId, function: &Function, point: Point) -> Result<Place, AllocError>
    ensures { IfOk result (λ p. p ≡ place_of_point func function.now point) }
{
    match phi_count(function, point.block).checked_add(point.at) {
        None => Err(AllocError),
        Some(at) => Ok(instr_place(func, point.block, at)),
    }
}

/// The point of an instruction's place.
pub fn point_of(function: &Function, place: Place) -> Point
    ensures { result ≡ point_of_place function.now place }
{
    match (place.block, place.instr) {
        (Some(block), Some(at)) => Point {
            block,
            at: at.saturating_sub(phi_count(function, block)),
        },
        _ => Point { block: 0, at: 0 },
    }
}

fn push_if<T: InstrTest>(
    test: &T,
    all: &mut Items<Point>,
    instr: &Instr,
    point: Point,
) -> Result<(), AllocError>
    ensures { OnOk result (all.new ≡ pushed_if (T.instr_passes test.now instr.now) all.old point) }
{
    if test.passes(instr) {
        all.push(point)?;
    }
    Ok(())
}

#[tactic(auto, using(crate::proofs::Pushed::pushed_step))]
fn push_from<T: InstrTest>(
    test: &T,
    all: &mut Items<Point>,
    block: BlockId,
    instrs: &[Instr],
) -> Result<(), AllocError>
    ensures { OnOk result (all.new ≡ all.old ++ points_from (T.instr_passes test.now) block 0 instrs.now) }
{
    let mut at = 0;
    for instr in instrs {
        push_if(test, all, instr, Point { block, at })?;
        at = next(at)?;
    }
    Ok(())
}

fn push_in<T: InstrTest>(
    test: &T,
    all: &mut Items<Point>,
    blocks: &[Block],
) -> Result<(), AllocError>
    ensures { OnOk result (all.new ≡ all.old ++ points_in (T.instr_passes test.now) 0 blocks.now) }
{
    let mut at = 0;
    for block in blocks {
        push_from(test, all, at, block.instrs.as_slice())?;
        at = next(at)?;
    }
    Ok(())
}

/// The points of the function's instructions that pass the test, in order of the text.
pub fn points_where<T: InstrTest>(
    alloc: Global,
    test: &T,
    function: &Function,
) -> Result<Items<Point>, AllocError>
    ensures { IfOk result (λ all. all ≡ points_where_of (T.instr_passes test.now) function.now) }
{
    let mut all = Items::new(alloc);
    push_in(test, &mut all, function.blocks.as_slice())?;
    Ok(all)
}
