//! The facts about paths that a source machine looks up: the windows of saves, and the slots that are a ramp's alone.
//!
//! `windows_of` gives exactly the windows of a function's saves with their suspends, in order of the text.
//! `ramp_slots_of` gives exactly the ramp slots. `all_facts` gives facts that say what the paths say (`HaveFacts`).
#![tactic(auto)]

mod behind;
mod calls;
mod chains;
mod facts;
mod names;
mod slots;
mod tokens;
mod windows;

pub use facts::all_facts;
pub use slots::ramp_slots_of;
pub use windows::windows_of;
