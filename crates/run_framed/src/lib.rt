//! The meaning of a framed module: the source meaning, with a frame's bytes in the owned block ("Coroutines in LLVM"); and
//! the machine that runs it.
//!
//! The meaning is `FramedAt`, in terms of the one ordinary step. `FramedMachine` is given the facts about its
//! functions' paths. `run(n)` of a machine that made k steps is the framed outcome for these facts (`FramedSeenOf`)
//! at k + n; `events()` and `allocs()` are its counts. A step that finds no memory leaves the machine as it was.
#![tactic(auto)]

mod copies;
mod effects;
mod frames;
mod judging;
mod machine;
mod places;
mod program;
mod progress;
mod promise;
mod ramps;
mod reentry;
mod rights;
mod stepping;

pub use machine::FramedMachine;
