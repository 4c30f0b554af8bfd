//! The points of a function as a graph, and the points that paths lead to and come from.
//!
//! A point is found exactly where a path leads there, or leads from there, with none of the points avoided between.
//! The points of a window are exactly those between its save and its suspend.
#![tactic(auto)]

mod direction;
mod edges;
mod graph;
mod labels;
mod marks;
mod trail;

pub use graph::PointGraph;
pub use ir_paths as ir_paths_library;
