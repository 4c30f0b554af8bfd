//! Frames in callers keep meaning: what is related stays related behind each step of a known kind.
#![tactic(auto)]

pub mod keeping;
pub mod starting;
pub mod worked;
