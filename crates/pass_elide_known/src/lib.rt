//! Where the framed run stands at an instruction, its step is of a known kind, by which the run that gives frames goes
//! on beside it or waits.
#![tactic(auto)]

pub mod known;
pub mod ready;
pub mod starting;
