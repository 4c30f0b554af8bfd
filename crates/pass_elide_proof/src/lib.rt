//! Frames in callers keep meaning: the run in which callees are given frames does what the one does in which they
//! allocate them.
#![tactic(auto)]

pub mod assembling;
pub mod beginning;
pub mod calling;
pub mod code;
pub mod counts;
pub mod destroying;
pub mod edges;
pub mod ending;
pub mod frames;
pub mod handles;
pub mod intrinsics;
pub mod keeping;
pub mod kept_callers;
pub mod ordinary;
pub mod over;
pub mod own_slots;
pub mod placing;
pub mod releasing;
pub mod returning;
pub mod slots;
pub mod sound;
pub mod starting;
pub mod stepping;
pub mod waiting;
pub mod waking;
pub mod worked;
