//! Frames that can't be too large: what stands in a coroutine bounds its frame, so no analysis has to be asked for that.
//!
//! `are_small` is true only where no frame of the module is too large (`NoneTooLarge`). A bound by what stands in a
//! coroutine is above its plain layout's end.
#![tactic(auto)]

mod bounds;
mod small;

pub use frame_contents as frame_contents_library;
pub use small::are_small;
