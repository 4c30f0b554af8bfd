//! What was lacking of states of both runs is had in each of them.
#![tactic(auto)]

pub mod asides;
pub mod ends;
pub mod slots;
pub mod states;
pub mod worked;
