//! The edges of a function, block by block.

ghost use Rattle.std.specs.Prelude.{◌≡◌, ◌<◌, ◌&&◌, ◌||◌, ◌++◌, ◌∷◌, ℕ, [], IfOk, OnOk, IsTrue, length, map, replicate};
ghost use Rattle.ir_paths.specs.ir_model.Names.{position_of};
ghost use Rattle.ir_paths.specs.Paths.{entry_point, has_point, nexts, same_point, targets};
ghost use Rattle.ir_paths.specs.declared.point.Point.{Point as ThePoint};
ghost use Rattle.flow_points.specs.Edges.{AreEntries, AreFiled, AreIncoming, HasPositions, outgoing_of};
ghost use Rattle.flow_points.specs.Rows.{row_at};

use crate::labels::{position, positions_of};
use ir_paths::Point;
use ir_paths::ir_base_library::{BlockId, Items, ValueId};
use ir_paths::ir_model_library::{Case, Function, Terminator};
use std::alloc::{AllocError, Global};

/// Where the blocks of labels stand; for each block the points to which its terminator leads; and for each block, and for
/// the position behind the last, the terminators that lead to it.
#[derive(Drop)]
pub struct Edges {
    pub labels: Items<BlockId>,
    pub outgoing: Items<Items<Point>>,
    pub incoming: Items<Items<Point>>,
}

/// The first point of the block of a label.
pub fn entry_of(function: &Function, labels: &Items<BlockId>, label: ValueId) -> Point
    requires { HasPositions function.now labels.now }
    ensures { result ≡ entry_point function.now label }
{
    Point {
        block: position(function, labels, label),
        at: 0,
    }
}

fn push_entry(
    function: &Function,
    labels: &Items<BlockId>,
    label: ValueId,
    all: &mut Items<Point>,
) -> Result<(), AllocError>
    requires { HasPositions function.now labels.now }
    ensures { OnOk result (all.new ≡ all.old ++ entry_point function.now label ∷ []) }
{
    all.push(entry_of(function, labels, label))?;
    Ok(())
}

fn push_cases(
    function: &Function,
    labels: &Items<BlockId>,
    cases: &[Case],
    all: &mut Items<Point>,
) -> Result<(), AllocError>
    requires { HasPositions function.now labels.now }
    ensures { OnOk result (all.new ≡ all.old ++ map (entry_point function.now) (map (λ k. k.target) cases.now)) }
{
    for case in cases {
        push_entry(function, labels, case.target, all)?;
    }
    Ok(())
}

/// The points to which a terminator leads.
fn entries_of(
    alloc: Global,
    function: &Function,
    labels: &Items<BlockId>,
    term: &Terminator,
) -> Result<Items<Point>, AllocError>
    requires { HasPositions function.now labels.now }
    ensures { IfOk result (λ all. all ≡ map (entry_point function.now) (targets term.now)) }
{
    let mut all = Items::new(alloc);
    match term {
        Terminator::Jump(label) => push_entry(function, labels, *label, &mut all)?,
        Terminator::Branch { yes, no, .. } => {
            push_entry(function, labels, *yes, &mut all)?;
            push_entry(function, labels, *no, &mut all)?;
        }
        Terminator::Switch { default, cases, .. } => {
            push_entry(function, labels, *default, &mut all)?;
            push_cases(function, labels, cases.as_slice(), &mut all)?;
        }
        Terminator::Ret(_) => (),
        Terminator::Unreachable => (),
    }
    Ok(all)
}

fn outgoing(
    alloc: Global,
    function: &Function,
    labels: &Items<BlockId>,
) -> Result<Items<Items<Point>>, AllocError>
    requires { HasPositions function.now labels.now }
    ensures { IfOk result (λ rows. rows ≡ outgoing_of function.now) }
{
    let mut rows = Items::new(alloc);
    for block in function.blocks.as_slice() {
        rows.push(entries_of(alloc, function, labels, &block.term)?)?;
    }
    Ok(rows)
}

/// Files the end of a block with the blocks of the points to which it leads.
fn file(points: &[Point], end: Point, rows: &mut Vec<Items<Point>>) -> Result<(), AllocError>
    requires { AreEntries (length rows.old.items) points.now }
    ensures { OnOk result (AreFiled points.now end rows.old.items rows.new.items) }
{
    for point in points {
        rows[point.block].push(end)?;
    }
    Ok(())
}

fn empty_rows(alloc: Global, count: usize) -> Result<Vec<Items<Point>>, AllocError>
    ensures { IfOk result (λ rows. rows.items ≡ replicate count []) }
{
    let mut rows = Vec::new(alloc);
    for _ in 0..count {
        rows.push(Items::new(alloc))?;
    }
    Ok(rows)
}

/// A row of a table, or the empty one.
pub fn row_of(rows: &Items<Items<Point>>, at: usize) -> &[Point]
    ensures { result.now ≡ row_at rows.now at }
{
    match rows.get(at) {
        None => &[],
        Some(row) => row.as_slice(),
    }
}

fn incoming(
    alloc: Global,
    function: &Function,
    outgoing: &Items<Items<Point>>,
) -> Result<Items<Items<Point>>, AllocError>
    requires { outgoing.now ≡ outgoing_of function.now }
    ensures { IfOk result (λ rows. AreIncoming function.now rows) }
{
    let blocks = function.blocks.as_slice();
    let mut rows = empty_rows(alloc, blocks.len())?;
    rows.push(Items::new(alloc))?;
    for block in 0..blocks.len() {
        let end = Point {
            block,
            at: blocks[block].instrs.len(),
        };
        file(row_of(outgoing, block), end, &mut rows)?;
    }
    Ok(Items::from_vec(rows))
}

/// The edges of a function.
pub fn edges_of(alloc: Global, function: &Function) -> Result<Edges, AllocError>
    ensures labels { IfOk result (λ edges. HasPositions function.now edges.labels) }
    ensures outgoing { IfOk result (λ edges. edges.outgoing ≡ outgoing_of function.now) }
    ensures incoming { IfOk result (λ edges. AreIncoming function.now edges.incoming) }
{
    let labels = positions_of(alloc, function)?;
    let outgoing = outgoing(alloc, function, &labels)?;
    let incoming = incoming(alloc, function, &outgoing)?;
    Ok(Edges {
        labels,
        outgoing,
        incoming,
    })
}
