//! The nodes that the questions reach.

ghost use Rattle.std.specs.Prelude.{◌≡◌, ◌≤◌, ℕ, IfOk, Some, length, slice_get};
ghost use Rattle.flow_bits.specs.Reaching.{AnswersAt, StartAt};
ghost use Rattle.flow_solver.specs.Paths.{HasNodes};

use crate::kept::Kept;
use flow_solver::{Graph, solve};
use std::alloc::{AllocError, Global};

/// For each node a word whose bit c says whether a path leads there from a start whose word has the bit c, over edges whose
/// kept words have it.
pub fn reached(
    alloc: Global,
    graph: &Graph,
    starts: &[(usize, u64)],
    kept: &[u64],
) -> Result<Vec<u64>, AllocError>
    requires edges { HasNodes graph.now.nodes graph.now.edges }
    requires starts { StartAt graph.now.nodes starts.now }
    requires kept { length graph.now.edges ≤ length kept.now }
    ensures nodes { IfOk result (λ all. length all.items ≡ graph.now.nodes) }
    ensures words { IfOk result (λ all. (node word : ℕ) → slice_get all.items node ≡ Some word → AnswersAt graph.now.edges kept.now starts.now node word) }
{
    solve(alloc, &Kept { kept }, graph, starts)
}
