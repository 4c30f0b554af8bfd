//! What building frames costs: how much is woven into a coroutine, by its names, and what a step of it pays for.
#![tactic(auto)]

pub mod bounds;
pub mod priced;
