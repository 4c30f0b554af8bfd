//! What the program answers, and which entries may be called: verdicts, texts of answers, and calls of entries.
//!
//! An entry is callable where it is a defined function and no coroutine, takes integers and gives an integer or nothing.
//! This crate knows no machine.
#![tactic(auto)]

mod entry;
mod texts;
mod verdict;

pub use entry::entry_call;
pub use texts::{not_callable, refused, shown, syntax_fault, told};
pub use verdict::{Answer, EntryCall, Verdict};
