//! What stands where in a coroutine, by paths: nothing of it before begin or after the end (rule K5), and the windows of
//! saves (rule K6; "Coroutines in LLVM", "llvm.coro.save").
//!
//! It gives the first place that breaks K5 and K6, each said by paths (`IsFirstOutside`, `IsFirstWindow`).
#![tactic(auto)]

mod labels;
mod outside;
mod points;
mod sets;
mod tokens;
mod windows;

pub use ir_calls as ir_calls_library;
pub use ir_parts as ir_parts_library;
pub use outside::{first_outside, without_begin};
pub use points::{instr_at, place_of, point_of, points_where};
pub use sets::{PointSet, reached_set};
pub use tokens::{Tokens, tokens_of};
pub use windows::first_wrong_window;
