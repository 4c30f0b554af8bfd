//! The solver: a list of nodes whose facts have risen since their edges were followed.

ghost use Rattle.std.specs.Prelude.{◌≡◌, ◌<◌, ◌≤◌, ℕ, [], IfOk, OnOk, Some, length, slice_get};
ghost use Rattle.flow_solver.specs.Outgoing.{AreOutgoing, LeaveNode};
ghost use Rattle.flow_solver.specs.Paths.{AreKnown, AreStarts, HasNodes, IsLeastAbove};
ghost use Rattle.flow_solver.specs.Steps.{IsUnderway, left_of};

use crate::flow::Flow;
use crate::graph::Graph;
use crate::rows::{mostly_rise, outgoing, row_of, target};
use crate::state::{State, blank, fact_at, raise};
use ir_base::Short;
use std::alloc::{AllocError, Global};

/// The starts' own facts at their nodes.
fn begin<F: Flow>(
    alloc: Global,
    flow: &F,
    graph: &Graph,
    starts: &[(usize, F::Fact)],
) -> Result<State<F::Fact>, AllocError>
    requires edges { HasNodes graph.now.nodes graph.now.edges }
    requires known { AreKnown (F.domain flow.now) graph.now.edges }
    requires starts { AreStarts (F.domain flow.now) graph.now.nodes starts.now }
    ensures { IfOk result (λ s. IsUnderway (F.domain flow.now) graph.now.nodes graph.now.edges starts.now [] [] s.facts s.waiting s.todo.items) }
{
    let rises = mostly_rise(graph.edges.as_slice());
    let mut state = blank(alloc, flow, graph.nodes, rises)?;
    for (node, fact) in starts {
        raise(alloc, flow, &mut state, *node, fact)?;
    }
    Ok(state)
}

/// Carries the fact of a node over the edges that leave it.
fn visit<F: Flow>(
    alloc: Global,
    flow: &F,
    graph: &Graph,
    starts: &[(usize, F::Fact)],
    row: &[usize],
    node: usize,
    state: &mut State<F::Fact>,
) -> Result<(), AllocError>
    requires edges { HasNodes graph.now.nodes graph.now.edges }
    requires known { AreKnown (F.domain flow.now) graph.now.edges }
    requires starts { AreStarts (F.domain flow.now) graph.now.nodes starts.now }
    requires node { node < graph.now.nodes }
    requires row { LeaveNode graph.now.edges node row.now }
    requires underway { IsUnderway (F.domain flow.now) graph.now.nodes graph.now.edges starts.now [] row.now state.old.facts state.old.waiting state.old.todo.items }
    ensures underway { OnOk result (IsUnderway (F.domain flow.now) graph.now.nodes graph.now.edges starts.now [] [] state.new.facts state.new.waiting state.new.todo.items) }
    ensures left { OnOk result (left_of (F.domain flow.now) state.new.facts state.new.todo.items ≤ left_of (F.domain flow.now) state.old.facts state.old.todo.items) }
{
    for edge in row {
        let to = target(graph.edges.as_slice(), *edge);
        let carried = flow.transfer(alloc, *edge, fact_at(state, node))?;
        raise(alloc, flow, state, to, &carried)?;
    }
    Ok(())
}

/// Visits nodes until none waits.
fn settle<F: Flow>(
    alloc: Global,
    flow: &F,
    graph: &Graph,
    starts: &[(usize, F::Fact)],
    rows: &[Short<usize>],
    state: &mut State<F::Fact>,
) -> Result<(), AllocError>
    requires edges { HasNodes graph.now.nodes graph.now.edges }
    requires known { AreKnown (F.domain flow.now) graph.now.edges }
    requires starts { AreStarts (F.domain flow.now) graph.now.nodes starts.now }
    requires rows { AreOutgoing graph.now.nodes graph.now.edges rows.now }
    requires underway { IsUnderway (F.domain flow.now) graph.now.nodes graph.now.edges starts.now [] [] state.old.facts state.old.waiting state.old.todo.items }
    ensures { OnOk result (IsUnderway (F.domain flow.now) graph.now.nodes graph.now.edges starts.now [] [] state.new.facts state.new.waiting []) }
{
    while let Some(node) = state.todo.pop_front() {
        state.waiting.set(node, false);
        visit(alloc, flow, graph, starts, row_of(rows, node), node, state)?;
    }
    Ok(())
}

/// At each node the least upper bound of the facts that all paths from the starts carry there, and bottom where none leads.
/// It follows the edges of a node at most once for each time that the node's fact rose, and where most edges lead to higher
/// nodes those of lower nodes first, else those of higher ones.
pub fn solve<F: Flow>(
    alloc: Global,
    flow: &F,
    graph: &Graph,
    starts: &[(usize, F::Fact)],
) -> Result<Vec<F::Fact>, AllocError>
    requires edges { HasNodes graph.now.nodes graph.now.edges }
    requires known { AreKnown (F.domain flow.now) graph.now.edges }
    requires starts { AreStarts (F.domain flow.now) graph.now.nodes starts.now }
    ensures nodes { IfOk result (λ facts. length facts.items ≡ graph.now.nodes) }
    ensures least { IfOk result (λ facts. (node : ℕ) (fact : _) → slice_get facts.items node ≡ Some fact → IsLeastAbove (F.domain flow.now) graph.now.edges starts.now node fact) }
{
    let rows = outgoing(alloc, graph.nodes, graph.edges.as_slice())?;
    let mut state = begin(alloc, flow, graph, starts)?;
    settle(alloc, flow, graph, starts, rows.as_slice(), &mut state)?;
    Ok(state.facts.into_vec())
}
