//! The first pass of lowering: saves are written out, and the uses of `coro.frame` become uses of begin's value.
//!
//! `early` is `early_module`.
#![tactic(auto)]

mod begin_name;
mod frames;
mod pass;
mod renaming;
mod saves;

pub use pass::early;
pub use renaming::Renaming;
