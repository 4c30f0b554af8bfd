//! Eliding calls keeps meaning: where an entry is called, each step of the framed run is followed in the run that gives
//! frames.
#![tactic(auto)]

pub mod theorem;
