//! The allocas of a function's entry block, which stand in its front.
#![tactic(auto)]

mod front;

pub use front::{allocas_of, with_front_allocas};
