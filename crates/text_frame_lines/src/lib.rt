//! Frame lines: what the frames of a lowered module's coroutines are, as comments before its text.
//!
//! `print_frames` writes the frame lines, which before any text are comments and say nothing (clause `comments`).
//! `read_frames` gives the frames exactly where all leading frame comments are of the form. So what was printed is
//! given back, whatever follows that is no frame comment.
#![tactic(auto)]

mod comments;
mod frames;

pub use comments::read_frames;
pub use frames::{FrameLine, print_frames};
