//! The generated module, by which lowering is measured.
//!
//! `generate` writes the canonical text of `generated_module`.
#![tactic(auto)]

mod coroutine;
mod ending;
mod entry;
mod function;
mod generated;
mod main_function;
mod names;
mod pieces;
mod places;
mod suspends;

pub use coroutine::Coroutine;
pub use generated::{generate, generated_module};
