//! The blocks of a function as a graph, the kinds of its edges, and the blocks that paths reach.
//!
//! `successors`, `block_graph` and `edge_kind` are their definitions. `reach` and `after_end` give, in order of the
//! text, exactly the blocks that paths reach.
#![tactic(auto)]

mod edges;
mod kinds;
mod reaching;

pub use edges::{block_graph, successors};
pub use flow_bits::flow_solver_library::Graph;
pub use kinds::{EdgeKind, edge_kind};
pub use reaching::{after_end, reach};
pub use run_step as run_step_library;
