//! A module as a source machine runs it: what it looks up of each function, in tables that are made once.
//!
//! What is found in the tables is what the definition searches.
#![tactic(auto)]

mod points;
mod program;
mod shape;
mod suspends;
mod table;

pub use points::{is_none_at, is_true_at, leaves, same_point};
pub use program::SourceProgram;
pub use run_step as run_step_library;
pub use shape::{Sought, args_of, first_point, result_at, result_of};
