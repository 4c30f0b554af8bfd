//! Reads a module from its text.
//!
//! `parse` is reading by the grammar. A module is told only where the text stands for it, and where a text stands for
//! one, that is told. Else it is `Syntax` with the greatest number of whole items with which the text begins. A text
//! stands for one module at most (`stands_for_one`).
#![tactic(auto)]

mod functions;
mod items;
mod known;
mod text;

pub use text::{Parsed, parse, stands_for_one};
