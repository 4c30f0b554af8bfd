//! Frames are built in one step, from the meaning in which a resumed activation makes its slots anew to that of framed
//! forms. Steps by which coroutines are entered and left are followed here; all others in the crates below.
#![tactic(auto)]

pub mod anew;
pub mod beginning;
pub mod calling;
pub mod early;
pub mod ending;
pub mod entered;
pub mod entering;
pub mod from_edges;
pub mod jumping;
pub mod leaving;
pub mod located;
pub mod ramps;
pub mod returning;
pub mod waking;
