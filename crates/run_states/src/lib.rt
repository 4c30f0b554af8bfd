//! What holds in each state of a run, and states of runs that are cut to what is named, renamed or moved: they
//! speak of no pass.
#![tactic(auto)]

pub mod branches;
pub mod early_states;
pub mod expanded;
pub mod moved_states;
pub mod named;
pub mod order_meaning;
pub mod renamed;
pub mod saved;
pub mod shortened;
pub mod sound_states;
