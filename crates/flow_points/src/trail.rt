//! The points that a search has found.

ghost use Rattle.std.specs.Prelude.{◌≡◌, OnOk, IsTrue, map, length};
ghost use Rattle.ir_paths.specs.Paths.{has_point, nexts, same_point};
ghost use Rattle.flow_points.specs.Edges.{AreIncoming, outgoing_of};
ghost use Rattle.flow_points.specs.Rows.{AreInside, AreMarked, is_inside, sizes_of};
ghost use Rattle.flow_points.specs.Search.{IsGrown, adjoins};

use crate::direction::Direction;
use crate::edges::{Edges, row_of};
use crate::marks::Marks;
use ir_paths::Point;
use ir_paths::ir_model_library::Function;
use std::alloc::AllocError;

/// Adds a point, if it isn't there.
fn note(point: Point, marks: &mut Marks, found: &mut Vec<Point>) -> Result<(), AllocError>
    requires inside { IsTrue (is_inside marks.old point) }
    requires marked { AreMarked marks.old found.old.items }
    ensures { OnOk result (IsGrown (λ q. same_point q point) marks.old found.old.items marks.new found.new.items) }
{
    if !marks.has(point) {
        found.push(point)?;
        marks.set(point, true);
    }
    Ok(())
}

fn note_all(points: &[Point], marks: &mut Marks, found: &mut Vec<Point>) -> Result<(), AllocError>
    requires inside { AreInside marks.old points.now }
    requires marked { AreMarked marks.old found.old.items }
    ensures { OnOk result (IsGrown (has_point points.now) marks.old found.old.items marks.new found.new.items) }
{
    for point in points {
        note(*point, marks, found)?;
    }
    Ok(())
}

/// Adds the points to which an edge leads from a point.
fn note_next(
    function: &Function,
    edges: &Edges,
    point: Point,
    marks: &mut Marks,
    found: &mut Vec<Point>,
) -> Result<(), AllocError>
    requires outgoing { edges.now.outgoing ≡ outgoing_of function.now }
    requires sizes { map length marks.old ≡ sizes_of function.now }
    requires marked { AreMarked marks.old found.old.items }
    ensures { OnOk result (IsGrown (λ q. adjoins function.now Direction.Forward point q) marks.old found.old.items marks.new found.new.items) }
{
    match function.blocks.get(point.block) {
        None => Ok(()),
        Some(block) => {
            if point.at < block.instrs.len() {
                let next = Point {
                    block: point.block,
                    at: point.at + 1,
                };
                note(next, marks, found)
            } else if point.at == block.instrs.len() {
                note_all(row_of(&edges.outgoing, point.block), marks, found)
            } else {
                Ok(())
            }
        }
    }
}

/// Adds the points from which an edge leads to a point.
fn note_previous(
    function: &Function,
    edges: &Edges,
    point: Point,
    marks: &mut Marks,
    found: &mut Vec<Point>,
) -> Result<(), AllocError>
    requires incoming { AreIncoming function.now edges.now.incoming }
    requires sizes { map length marks.old ≡ sizes_of function.now }
    requires marked { AreMarked marks.old found.old.items }
    ensures { OnOk result (IsGrown (λ q. adjoins function.now Direction.Backward point q) marks.old found.old.items marks.new found.new.items) }
{
    if point.at == 0 {
        return note_all(row_of(&edges.incoming, point.block), marks, found);
    }
    match function.blocks.get(point.block) {
        None => Ok(()),
        Some(block) => {
            if point.at <= block.instrs.len() {
                let previous = Point {
                    block: point.block,
                    at: point.at - 1,
                };
                note(previous, marks, found)
            } else {
                Ok(())
            }
        }
    }
}

/// Adds the points beside a point.
pub fn follow(
    function: &Function,
    edges: &Edges,
    direction: Direction,
    point: Point,
    marks: &mut Marks,
    found: &mut Vec<Point>,
) -> Result<(), AllocError>
    requires outgoing { edges.now.outgoing ≡ outgoing_of function.now }
    requires incoming { AreIncoming function.now edges.now.incoming }
    requires sizes { map length marks.old ≡ sizes_of function.now }
    requires marked { AreMarked marks.old found.old.items }
    ensures { OnOk result (IsGrown (λ q. adjoins function.now direction point q) marks.old found.old.items marks.new found.new.items) }
{
    match direction {
        Direction::Forward => note_next(function, edges, point, marks, found),
        Direction::Backward => note_previous(function, edges, point, marks, found),
    }
}
