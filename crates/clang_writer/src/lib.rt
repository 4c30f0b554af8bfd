//! Lowered text with what native code needs of its original: the machine, linkage, and how values are passed.
//!
//! `to_clang` is equal to its definition, which speaks of the tokens of each line.
#![tactic(auto)]

mod dressed;
mod kept;
mod lowered;
mod names;

pub use kept::Kept;
pub use lowered::{Writing, to_clang};
