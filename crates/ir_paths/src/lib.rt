//! Points, edges and paths of a function; the windows of its saves, and the slots that are its ramp's alone.
//!
//! The searches for windows and ramp slots find exactly those that the paths say (`facts_are_right`).
#![tactic(auto)]

mod law;
mod point;

pub use ir_model as ir_model_library;
pub use ir_model::ir_base_library;
pub use law::facts_are_right;
pub use point::{Facts, Point, Window};
