//! Building frames keeps rules. What is proved of the passes before and behind it is passed on.
#![tactic(auto)]

pub mod frames;
