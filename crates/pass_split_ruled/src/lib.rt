//! Splitting keeps meaning where calls give frames, by the rules of the module with the ramps that they call.
#![tactic(auto)]

pub mod ramps;
