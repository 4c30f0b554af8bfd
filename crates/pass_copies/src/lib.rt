//! Frame slots that are used before begin have a temporary, which is copied at begin.
//!
//! The pass is its definition, `with_begin_copies`.
#![tactic(auto)]

mod blocks;
mod copying;
mod pass;
mod slot;
mod slots;
mod uses;
mod written;

pub use pass::with_begin_copies;
