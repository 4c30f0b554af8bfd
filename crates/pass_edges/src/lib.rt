//! Blocks on the edges of coroutines: on each edge to a block that has phis, and on each resume and destroy edge.
//!
//! The pass is its definition, `with_edge_blocks`.
#![tactic(auto)]

mod blocks;
mod edge;
mod edges;
mod operands;
mod pass;
mod phis;
mod table;
mod terms;

pub use edge::Edge;
pub use pass::with_edge_blocks;
