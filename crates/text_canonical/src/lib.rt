//! The canonical text of a module as a definition, that its symbols are in the grammar and stand for the module,
//! and the order of names that reading gives.
#![tactic(auto)]

pub mod canonical;
pub mod grammar;
pub mod order;
