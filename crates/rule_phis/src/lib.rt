//! The rule of edges: phis and the predecessors of their blocks, and the entry block (F1).
//!
//! It gives the first place of a function that breaks F1, by its sentence.
#![tactic(auto)]

mod edges;
mod numbers;
mod sources;

pub use edges::first_wrong_edge;
