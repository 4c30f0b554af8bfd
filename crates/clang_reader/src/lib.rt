//! A text of clang as a text of the subset: each line becomes a line (Clang, "C++20 Coroutines" in "C++ Support in
//! Clang"; "Coroutines in LLVM", "Intrinsics").
//!
//! `from_clang` is equal to its definition, which speaks of the tokens of each line.
#![tactic(auto)]

mod bitcasts;
mod fault;
mod form;
mod laws;
mod line;
mod plain;
mod read;
mod written;

pub use fault::Fault;
pub use laws::chains_are_followed;
pub use read::{Reading, from_clang};
