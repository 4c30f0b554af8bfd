//! Sets of edges.

ghost use Rattle.std.specs.Prelude.{◌≡◌, ℕ, IfOk};
ghost use Rattle.frame_crossing.specs.EdgeUses.{has_edge};

use indexmap::IndexSet;
use ir_base::BlockId;
use std::alloc::{AllocError, Global};
use std::marker::Model;

/// A set of edges between blocks.
#[derive(Drop)]
pub struct EdgeSet {
    set: IndexSet<(BlockId, BlockId)>,
}

impl Model for EdgeSet {
    ghost use Rattle.std.specs.Prelude.{List, ℕ};

    ghost Value = { List (ℕ × ℕ) };

    ghost view = { λ s. s.set.keys };
}

impl EdgeSet {
    /// Whether an edge leads from one block to the other.
    pub fn has(&self, from: BlockId, to: BlockId) -> bool
        ensures { result ≡ has_edge self.now from to }
    {
        self.set.contains(&(from, to))
    }
}

/// The set of these edges.
pub fn edge_set(alloc: Global, edges: &[(BlockId, BlockId)]) -> Result<EdgeSet, AllocError>
    ensures { IfOk result (λ all. (from to : ℕ) → has_edge all from to ≡ has_edge edges.now from to) }
{
    let mut set = IndexSet::new(alloc);
    for edge in edges {
        set.insert(*edge)?;
    }
    Ok(EdgeSet { set })
}
