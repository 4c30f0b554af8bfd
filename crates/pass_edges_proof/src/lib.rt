//! Blocks on edges, and what a resume hands on: both keep meaning, and edges keep rules.
#![tactic(auto)]

pub mod edges;
pub mod kept;
