//! Up to 64 questions about paths at once: to which nodes a path leads from the starts of a question, over edges that let
//! it through.
//!
//! `reached` answers them. Bit c of a node's word is set exactly where a path leads there from a start with that bit.
//! The words of the path's edges have it too.
#![tactic(auto)]

mod kept;
mod questions;

pub use flow_solver as flow_solver_library;
pub use flow_solver::Graph;
pub use questions::reached;
