//! The framed form of a module: what coroutines keep behind their suspends goes into their frames ("Coroutines in LLVM",
//! "Coroutine Transformation").
//!
//! `frame_up` gives the framed form of a module (`IsFramedForm`): the small passes that build frames in a row on each
//! coroutine. They go by the values that cross suspends and the classes of slots, said by paths. They also go by the
//! blocks that paths reach before begin, and by the coroutine's layout.
#![tactic(auto)]

mod before;
mod coroutine;
mod offsets;
mod pass;
mod tables;

pub use pass::frame_up;
