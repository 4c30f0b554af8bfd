//! Which values cross which suspends: a value that is defined before a suspend and needed behind its resume or destroy edge
//! has to lie in the frame ("Coroutines in LLVM", "Coroutine Transformation").
//!
//! `crossing` gives exactly the values that cross suspends with their suspends, in order, said by paths
//! (`AreCrossing`).
#![tactic(auto)]

mod answer;
mod chunks;
mod edge_use;
mod edges;
mod far;
mod needed;
mod numbers;
mod pairs;
mod plan;
mod text;
mod values;
mod walk;

pub use answer::crossing;
pub use rule_shape as rule_shape_library;
