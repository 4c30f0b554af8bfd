//! Values that cross suspends are kept in cells of the activation and in fields of the instance.
//!
//! The pass is its definition, `with_cells`.
#![tactic(auto)]

mod climbing;
mod keeping;
mod links;
mod moves;
mod names;
mod pass;
mod plan;
mod tables;
mod value_types;
mod written;

pub use keeping::kept_values;
pub use names::{cell_name, field_name};
pub use pass::with_cells;
