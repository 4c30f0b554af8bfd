//! Readers of instructions, phis, terminators and blocks.
//!
//! The readers are equal to their reading functions. Lemmas join each to the grammar, both ways.
#![tactic(auto)]

mod blocks;
mod calls;
mod instrs;
mod loops;
mod terminators;

pub use blocks::{blocks_of, numbered};
pub use calls::result_of;
pub use instrs::align_or;
