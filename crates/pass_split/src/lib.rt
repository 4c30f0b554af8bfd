//! Coroutines split into their parts: the ramp, and the functions that go on behind a suspend.
//!
//! `split` is `split_module`.
#![tactic(auto)]

mod given;
mod origin;
mod origins;
mod parts;
mod pass;
mod phis;
mod pieces;
mod piecing;
mod reached;

pub use pass::split;
