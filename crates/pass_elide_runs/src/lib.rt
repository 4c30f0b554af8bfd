//! What holds in each state of the framed run, and of the run that gives frames.
#![tactic(auto)]

pub mod calls;
pub mod ends;
pub mod known;
pub mod modes;
pub mod shapes;
pub mod sizes;
pub mod slots;
pub mod standing;
pub mod waking;
