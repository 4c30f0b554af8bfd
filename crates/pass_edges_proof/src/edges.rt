//! Blocks on edges keep meaning and rules.

pub mod calls;
pub mod exit_rules;
pub mod front_rules;
pub mod numbers;
pub mod paths;
pub mod rules;
pub mod shape;
pub mod simulation;
pub mod sources;
pub mod spelled;
pub mod states;
pub mod threads;
pub mod unused_frames;
pub mod widths;
