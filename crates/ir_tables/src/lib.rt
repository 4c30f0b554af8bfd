//! The items of a module by their names.
//!
//! Tables of names find what the definition searches.
#![tactic(auto)]

mod names;
mod table;

pub use names::Names;
pub use table::{NameTable, Named, find, table_of};
