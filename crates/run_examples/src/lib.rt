//! Runs of worked modules, computed by the check to their exact events, outcomes and counts of allocator calls.
//!
//! Fifteen runs of worked modules, sources, framed and lowered ones, come to their exact events, outcomes, causes,
//! places and allocator counts (`worked_runs`).
#![tactic(auto)]

mod law;

pub use law::worked_runs;
