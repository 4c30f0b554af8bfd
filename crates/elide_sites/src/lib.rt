//! Which coroutines' frames may lie in a caller, and which calls put them there ("Coroutines in LLVM", "Heap Allocation
//! Elision" in the introduction).
//!
//! `elidable_callees` gives exactly the coroutines whose frames may lie in a caller (`AreElidable`). `elidable_sites`
//! gives exactly the calls, in functions that are no coroutines, whose frames may (`AreSites`). Both are in order of
//! the text. No pass uses them yet.
#![tactic(auto)]

mod destroyed;
mod elidable;
mod handles;
mod rows;
mod sites;

pub use elidable::elidable_callees;
pub use sites::elidable_sites;
