//! Sets of points of a function.

ghost use Rattle.std.specs.Prelude.{◌≡◌, ◌++◌, ◌∷◌, ◌||◌, [], IfOk, OnOk, replicate, false, true};
ghost use Rattle.flow_points.specs.ir_paths.Paths.{same_point};
ghost use Rattle.flow_points.specs.ir_paths.declared.point.Point.{Point as ThePoint};
ghost use Rattle.flow_points.specs.Reached.{IsGraphOf, IsReached};
ghost use Rattle.flow_points.specs.Rows.{is_inside, is_marked, with_mark};
ghost use Rattle.rule_windows.specs.Sets.{AreIn, AreThose};

use flow_points::PointGraph;
use flow_points::ir_paths_library::Point;
use ir_base::Items;
use ir_parts::ir_model_library::Function;
use std::alloc::{AllocError, Global};
use std::marker::Model;

/// A set of points of a function, by a mark for each of them.
#[derive(Drop)]
pub struct PointSet {
    rows: Vec<Items<bool>>,
}

impl Model for PointSet {
    ghost use Rattle.std.specs.Prelude.{List, Bool};

    ghost Value = { List (List Bool) };

    ghost view = { λ s. s.rows.items };
}

fn blank_row(alloc: Global, count: usize) -> Result<Items<bool>, AllocError>
    ensures { IfOk result (λ row. row ≡ replicate count false ++ false ∷ []) }
{
    let mut row = Items::from_vec(vec![in alloc; false; count]?);
    row.push(false)?;
    Ok(row)
}

impl PointSet {
    /// The empty set.
    pub fn new(alloc: Global, function: &Function) -> Result<Self, AllocError>
        ensures { IfOk result (λ set. AreIn [] set) }
    {
        let mut rows = Vec::new(alloc);
        for block in function.blocks.as_slice() {
            rows.push(blank_row(alloc, block.instrs.len())?)?;
        }
        rows.push(blank_row(alloc, 0)?)?;
        Ok(PointSet { rows })
    }

    /// Whether the point is in the set.
    pub fn has(&self, point: Point) -> bool
        ensures { result ≡ is_marked self.now point }
    {
        match self.rows.get(point.block) {
            None => false,
            Some(row) => match row.get(point.at) {
                None => false,
                Some(mark) => *mark,
            },
        }
    }

    fn is_inside(&self, point: Point) -> bool
        ensures { result ≡ is_inside self.now point }
    {
        match self.rows.get(point.block) {
            None => false,
            Some(row) => point.at < row.len(),
        }
    }

    fn set(&mut self, point: Point)
        ensures { self.new ≡ with_mark self.old point true }
    {
        if point.block < self.rows.len() {
            self.rows[point.block].set(point.at, true);
        }
    }

    /// Puts a point into the set. There is no room for one that isn't the function's.
    pub fn add(&mut self, point: Point) -> Result<(), AllocError>
        ensures { OnOk result ((p : ThePoint) → is_marked self.new p ≡ (is_marked self.old p || same_point p point)) }
    {
        if !self.is_inside(point) {
            return Err(AllocError);
        }
        self.set(point);
        Ok(())
    }
}

/// The set of these points.
pub fn set_of(alloc: Global, function: &Function, points: &[Point]) -> Result<PointSet, AllocError>
    ensures { IfOk result (λ set. AreIn points.now set) }
{
    let mut set = PointSet::new(alloc, function)?;
    for point in points {
        set.add(*point)?;
    }
    Ok(set)
}

/// The set of the points to which a path leads from one of the starts with none of the points avoided between.
pub fn reached_set(
    alloc: Global,
    graph: &mut PointGraph,
    function: &Function,
    starts: &[Point],
    avoided: &[Point],
) -> Result<PointSet, AllocError>
    requires { IsGraphOf function.now graph.old }
    ensures set { IfOk result (λ set. AreThose (IsReached function.now starts.now avoided.now) set) }
    ensures kept { OnOk result (IsGraphOf function.now graph.new) }
{
    let found = graph.reached_from(alloc, function, starts, avoided)?;
    set_of(alloc, function, found.as_slice())
}
