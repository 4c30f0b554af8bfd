//! The canonical text of modules.
//!
//! All types stand first, then all globals, declarations and functions, each on lines of their own, as LLVM's Language
//! Reference writes them. Labels, the names of parameters and alignments are always written. The frames of a lowered
//! module's coroutines stand before its text, in frame lines.
//!
//! `print_module` writes the canonical text. Where some text stands for the module, so does the printed one (clause
//! `read_back`). Behind frame lines a text stands for the same module (`frames_before_a_module`).
#![tactic(auto)]

mod blocks;
mod framed;
mod instrs;
mod items;

pub use framed::frames_before_a_module;
pub use items::print_module;
pub use text_frame_lines::{FrameLine, print_frames, read_frames};
