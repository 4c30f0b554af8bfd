//! The edges of a graph by the node they leave.

ghost use Rattle.std.specs.Prelude.{◌≡◌, ◌<◌, ◌∷◌, ◌++◌, [], IfOk, OnOk, Some, get_or, length, replicate, slice_get, slice_index_or, slice_set};
ghost use Rattle.flow_solver.specs.Paths.{HasNodes};
ghost use Rattle.flow_solver.specs.Outgoing.{AreOutgoing};

use ir_base::Short;
use std::alloc::{AllocError, Global};

fn empty_rows(alloc: Global, nodes: usize) -> Result<Vec<Short<usize>>, AllocError>
    ensures { IfOk result (λ rows. rows.items ≡ replicate nodes []) }
{
    let mut rows = Vec::new(alloc);
    for _ in 0..nodes {
        rows.push(Short::new(alloc))?;
    }
    Ok(rows)
}

/// Puts an edge into the row of a node.
fn file(rows: &mut Vec<Short<usize>>, node: usize, edge: usize) -> Result<(), AllocError>
    requires { node < length rows.old.items }
    ensures { OnOk result (rows.new.items ≡ slice_set rows.old.items node (get_or rows.old.items node [] ++ edge ∷ [])) }
{
    rows[node].push(edge)?;
    Ok(())
}

/// A list for each node, of the positions of the edges that leave it.
pub fn outgoing(
    alloc: Global,
    nodes: usize,
    edges: &[(usize, usize)],
) -> Result<Vec<Short<usize>>, AllocError>
    requires { HasNodes nodes edges.now }
    ensures { IfOk result (λ rows. AreOutgoing nodes edges.now rows.items) }
{
    let mut rows = empty_rows(alloc, nodes)?;
    for (edge, pair) in edges.iter().enumerate() {
        file(&mut rows, pair.0, edge)?;
    }
    Ok(rows)
}

/// Whether at least half of the edges lead to higher nodes.
pub fn mostly_rise(edges: &[(usize, usize)]) -> bool {
    let mut rising: usize = 0;
    let mut others: usize = 0;
    for (from, to) in edges {
        if *from < *to {
            rising = rising.saturating_add(1);
        } else {
            others = others.saturating_add(1);
        }
    }
    others <= rising
}

/// The node that an edge leads to.
pub fn target(edges: &[(usize, usize)], edge: usize) -> usize
    requires { edge < length edges.now }
    ensures { result ≡ (slice_index_or edges.now edge (0, 0)).1 }
{
    let (_, to) = edges[edge];
    to
}

/// The edges that leave a node.
pub fn row_of(rows: &[Short<usize>], node: usize) -> &[usize]
    requires { node < length rows.now }
    ensures { slice_get rows.now node ≡ Some result.now }
{
    rows[node].as_slice()
}
