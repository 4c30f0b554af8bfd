//! The meaning of a plain module, which has functions, bytes and calls alone.
//!
//! `run(n)` of a `PlainMachine` that made k steps is the plain outcome at k + n; `events()` and `allocs()` are its
//! counts. A step that finds no memory leaves the machine as it was.
#![tactic(auto)]

mod effects;
mod machine;
mod progress;
mod starting;
mod state;
mod stepping;

pub use machine::PlainMachine;
pub use progress::Progress;
pub use state::{PlainActivation, PlainState};
