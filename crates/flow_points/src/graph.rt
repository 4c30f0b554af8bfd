//! The graph, and its searches.

ghost use Rattle.std.specs.Prelude.{◌≡◌, IfOk, OnOk, filter, map, length};
ghost use Rattle.flow_points.specs.Edges.{AreIncoming, outgoing_of};
ghost use Rattle.flow_points.specs.Rows.{AreMarked, is_marked, sizes_of};
ghost use Rattle.flow_points.specs.Search.{IsGrown, IsSettled, adjoins_any, is_closed};

use crate::direction::Direction;
use crate::edges::{Edges, edges_of, entry_of};
use crate::marks::Marks;
use crate::trail::follow;
use ir_paths::Point;
use ir_paths::ir_base_library::{Items, ValueId};
use ir_paths::ir_model_library::Function;
use std::alloc::{AllocError, Global};

/// Adds the points beside the starts.
fn begin(
    function: &Function,
    edges: &Edges,
    direction: Direction,
    starts: &[Point],
    marks: &mut Marks,
    found: &mut Vec<Point>,
) -> Result<(), AllocError>
    requires outgoing { edges.now.outgoing ≡ outgoing_of function.now }
    requires incoming { AreIncoming function.now edges.now.incoming }
    requires sizes { map length marks.old ≡ sizes_of function.now }
    requires marked { AreMarked marks.old found.old.items }
    ensures { OnOk result (IsGrown (adjoins_any function.now direction starts.now) marks.old found.old.items marks.new found.new.items) }
{
    for start in starts {
        follow(function, edges, direction, *start, marks, found)?;
    }
    Ok(())
}

/// Goes on from each point that was found and whose mark among the limits is the one asked for.
fn settle(
    function: &Function,
    edges: &Edges,
    direction: Direction,
    limits: &Marks,
    goes_on: bool,
    marks: &mut Marks,
    found: &mut Vec<Point>,
) -> Result<(), AllocError>
    requires outgoing { edges.now.outgoing ≡ outgoing_of function.now }
    requires incoming { AreIncoming function.now edges.now.incoming }
    requires sizes { map length marks.old ≡ sizes_of function.now }
    requires marked { AreMarked marks.old found.old.items }
    ensures { OnOk result (IsSettled function.now direction (is_closed limits.now goes_on) marks.old found.old.items marks.new found.new.items) }
{
    let mut at = 0;
    while at < found.len() {
        let point = found[at];
        if limits.has(point) == goes_on {
            follow(function, edges, direction, point, marks, found)?;
        }
        at += 1;
    }
    Ok(())
}

/// Those of the points that are marked.
fn marked_among(alloc: Global, marks: &Marks, points: &[Point]) -> Result<Items<Point>, AllocError>
    ensures { IfOk result (λ all. all ≡ filter (is_marked marks.now) points.now) }
{
    let mut all = Items::new(alloc);
    for point in points {
        if marks.has(*point) {
            all.push(*point)?;
        }
    }
    Ok(all)
}

/// The points of one function as a graph. Each search follows an edge once at most, and takes no more time than what it
/// finds and avoids asks for.
#[derive(Drop)]
pub struct PointGraph {
    edges: Edges,
    found: Marks,
    avoided: Marks,
}

impl PointGraph {
    ghost use Rattle.std.specs.Prelude.{◌≡◌, IfOk, OnOk};
    ghost use Rattle.ir_paths.specs.Paths.{entry_point};
    ghost use Rattle.flow_points.specs.Reached.{AllLeadTo, AreInWindow, AreReached, IsGraphOf};
    ghost use Rattle.flow_points.specs.Search.{AreFound};

    /// The graph of a function.
    pub fn new(alloc: Global, function: &Function) -> Result<Self, AllocError>
        ensures { IfOk result (λ graph. IsGraphOf function.now graph) }
    {
        Ok(PointGraph {
            edges: edges_of(alloc, function)?,
            found: Marks::new(alloc, function)?,
            avoided: Marks::new(alloc, function)?,
        })
    }

    /// The first point of the block of a label.
    pub fn entry(&self, function: &Function, label: ValueId) -> Point
        requires { IsGraphOf function.now self.now }
        ensures { result ≡ entry_point function.now label }
    {
        entry_of(function, &self.edges.labels, label)
    }

    fn search(
        &mut self,
        alloc: Global,
        function: &Function,
        direction: Direction,
        starts: &[Point],
        avoided: &[Point],
    ) -> Result<Items<Point>, AllocError>
        requires { IsGraphOf function.now self.old }
        ensures found { IfOk result (λ found. AreFound function.now direction starts.now avoided.now found) }
        ensures kept { OnOk result (IsGraphOf function.now self.new) }
    {
        let mut found = Vec::new(alloc);
        self.avoided.set_all(avoided);
        begin(
            function,
            &self.edges,
            direction,
            starts,
            &mut self.found,
            &mut found,
        )?;
        settle(
            function,
            &self.edges,
            direction,
            &self.avoided,
            false,
            &mut self.found,
            &mut found,
        )?;
        self.avoided.clear_all(avoided);
        self.found.clear_all(found.as_slice());
        Ok(Items::from_vec(found))
    }

    /// The points to which a path of one edge or more leads from one of the starts, with none of the points avoided
    /// between. A start is among them where a path leads back to it, and a point avoided where a path ends there. After
    /// want of memory the graph is of no more use.
    pub fn reached_from(
        &mut self,
        alloc: Global,
        function: &Function,
        starts: &[Point],
        avoided: &[Point],
    ) -> Result<Items<Point>, AllocError>
        requires { IsGraphOf function.now self.old }
        ensures found { IfOk result (λ found. AreReached function.now starts.now avoided.now found) }
        ensures kept { OnOk result (IsGraphOf function.now self.new) }
    {
        self.search(alloc, function, Direction::Forward, starts, avoided)
    }

    /// The points from which a path of one edge or more leads to one of the goals, with none of the points avoided
    /// between. After want of memory the graph is of no more use.
    pub fn leading_to(
        &mut self,
        alloc: Global,
        function: &Function,
        goals: &[Point],
        avoided: &[Point],
    ) -> Result<Items<Point>, AllocError>
        requires { IsGraphOf function.now self.old }
        ensures found { IfOk result (λ found. AllLeadTo function.now goals.now avoided.now found) }
        ensures kept { OnOk result (IsGraphOf function.now self.new) }
    {
        self.search(alloc, function, Direction::Backward, goals, avoided)
    }

    /// The points in the window of a save with its suspend. After want of memory the graph is of no more use.
    pub fn window(
        &mut self,
        alloc: Global,
        function: &Function,
        save: Point,
        suspend: Point,
    ) -> Result<Items<Point>, AllocError>
        requires { IsGraphOf function.now self.old }
        ensures found { IfOk result (λ found. AreInWindow function.now save suspend found) }
        ensures kept { OnOk result (IsGraphOf function.now self.new) }
    {
        let ends = [save, suspend];
        let goals = [suspend];
        let starts = [save];
        let back = self.leading_to(alloc, function, &goals, &ends)?;
        let mut found = Vec::new(alloc);
        self.avoided.set_all(back.as_slice());
        self.avoided.clear_all(&ends);
        begin(
            function,
            &self.edges,
            Direction::Forward,
            &starts,
            &mut self.found,
            &mut found,
        )?;
        settle(
            function,
            &self.edges,
            Direction::Forward,
            &self.avoided,
            true,
            &mut self.found,
            &mut found,
        )?;
        let inside = marked_among(alloc, &self.avoided, found.as_slice())?;
        self.avoided.clear_all(back.as_slice());
        self.found.clear_all(found.as_slice());
        Ok(inside)
    }
}
