//! Sources and their framed forms with calls elided.
#![tactic(auto)]

pub mod elided;
