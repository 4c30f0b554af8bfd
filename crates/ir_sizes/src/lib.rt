//! The sizes of types, where named ones are looked up in a table.
//!
//! The size of a type is 2^64 - 1 where it is more.
#![tactic(auto)]

mod extent;
mod level;
mod sizes;

pub use sizes::Sizes;
