//! The edges that get a block, by their targets.

ghost use Rattle.std.specs.Prelude.{◌≡◌, ◌∷◌, ◌++◌, IfOk, OnOk, [], length, replicate};
ghost use Rattle.pass_edges.specs.Edges.{edges_at, with_edge, with_edges, edge_table};

use crate::edge::Edge;
use ir_base::{Items, ValueId};
use ir_model::Function;
use std::alloc::{AllocError, Global};

/// For each label the edges that lead to it.
pub type EdgeTable = Vec<Items<Edge>>;

fn no_edges(alloc: Global, count: usize) -> Result<EdgeTable, AllocError>
    ensures { IfOk result (λ x. x.items ≡ replicate count []) }
{
    let mut table = Vec::new(alloc);
    for _at in 0..count {
        table.push(Items::new(alloc))?;
    }
    Ok(table)
}

fn note(table: &mut EdgeTable, edge: Edge) -> Result<(), AllocError>
    ensures { OnOk result (table.new.items ≡ with_edge table.old.items edge) }
{
    if edge.target < table.len() {
        table[edge.target].push(edge)?;
    }
    Ok(())
}

fn note_all(table: &mut EdgeTable, edges: &[Edge]) -> Result<(), AllocError>
    ensures { OnOk result (table.new.items ≡ with_edges table.old.items edges.now) }
{
    for edge in edges {
        note(table, *edge)?;
    }
    Ok(())
}

/// For each label the edges that lead to it, in order.
pub fn edge_table(
    alloc: Global,
    function: &Function,
    edges: &[Edge],
) -> Result<EdgeTable, AllocError>
    ensures { IfOk result (λ x. x.items ≡ edge_table function.now edges.now) }
{
    let mut table = no_edges(alloc, function.names.len())?;
    note_all(&mut table, edges)?;
    Ok(table)
}

/// The edges that lead to a label.
pub fn edges_at(table: &EdgeTable, label: ValueId) -> &[Edge]
    ensures { result.now ≡ edges_at table.now.items label }
{
    match table.get(label) {
        None => &[],
        Some(edges) => edges.as_slice(),
    }
}
