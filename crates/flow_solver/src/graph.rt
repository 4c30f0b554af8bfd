//! Graphs as data.

use ir_base::Items;

/// A number of nodes, which are named from 0 on, and a list of edges, each a pair of the node it leaves and the node it
/// leads to. A pair may stand twice; an edge is named by its position in the list.
#[derive(Drop)]
pub struct Graph {
    pub nodes: usize,
    pub edges: Items<(usize, usize)>,
}
