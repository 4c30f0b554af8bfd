//! Eliding calls keeps meaning: each step of the framed run is of a known kind, at an instruction and at the end of a
//! block. What steps ask of states of both runs is had in each of them.
#![tactic(auto)]

pub mod states;
pub mod steps;
