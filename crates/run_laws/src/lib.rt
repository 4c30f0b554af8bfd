//! The ordinary step in a changed module, one memory standing in another, and the step over both: laws that every
//! proof of a pass uses.
#![tactic(auto)]

pub mod access;
pub mod changed;
pub mod embedded;
pub mod memory;
pub mod transfer;
