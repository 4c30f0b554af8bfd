//! Where callees are given frames, each step of the framed run at the end of a block is of a kind that has a law.
#![tactic(auto)]

pub mod apart;
pub mod ends;
pub mod starting;
