//! Calls whose callees' frames lie in the caller ("Coroutines in LLVM", "Heap Allocation Elision").
//!
//! `elide` is `elided_module`. A given frame lies in an alloca of the caller, or in a field of the caller's own frame.
#![tactic(auto)]

mod calls;
mod elided;
mod fields;
mod given;
pub mod laws;
mod pass;
mod places;
mod sites;
mod tables;

pub use pass::elide;
