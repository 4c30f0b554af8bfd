//! Splitting keeps meaning where calls give frames: what related states know of these, and what is asked of runs.
#![tactic(auto)]

pub mod whole;
