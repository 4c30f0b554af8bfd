//! Tables of a function's locals.
//!
//! A table has room for as many names as are asked for, and refuses a note only beyond it.
#![tactic(auto)]

mod table;

pub use table::LocalTable;
