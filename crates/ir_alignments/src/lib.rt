//! The alignments of types, where named ones are looked up in a table.
//!
//! The reading of types by a table is equal to its reading function. Lemmas join it to the grammar, both ways.
#![tactic(auto)]

mod level;
mod named_types;

pub use named_types::NamedTypes;
