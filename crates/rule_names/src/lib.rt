//! The rules of names: second definitions (N1), unknown names (N2) and reserved names (N3); and the search for the first
//! place of a module that breaks a rule.
//!
//! It gives the first place of a module that breaks N1, N2 or N3, each by its sentence.
#![tactic(auto)]

mod definitions;
mod items;
mod known;
mod numbers;
mod reserved;
mod stage;

pub use definitions::first_second_definition;
pub use items::{ModuleRule, first_place};
pub use known::{allocator_name, first_unknown_name};
pub use reserved::first_reserved_name;
pub use stage::{Stage, is_source};
