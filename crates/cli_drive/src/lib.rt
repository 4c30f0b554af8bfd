//! The program as one call over a source and two sinks.
//!
//! `drive` does all. Its one clause on what happens (`ends`) says by the words what was read, what both outputs got to
//! the last byte, and the status. A command's answer is that of its definition to the whole input (`IsAnswer` of
//! `cli_answers`). A write fault to standard output is told on standard error, and nothing else is written. Help is given
//! where a word asks for it and nothing else is at fault.
//!
//! | Status | What the clause tells | What tests alone show |
//! |---|---|---|
//! | 0 | the command's answer to the last byte; of help, that it is asked for | the text of help |
//! | 1 | `syntax after N items`, or the first broken rule and its place | - |
//! | 2 | a list that is none, an entry that can't be called; nothing is read for words that are refused | the text of usage |
//! | 3, 4 | the calls seen within the bound, and the outcome | - |
//! | 5 | a read failed, the line says so, and nothing else is written | - |
//! | 6 | a part of the front of the text was written, and the line follows | - |
//! | 7 | the line, and that nothing else is written | when memory is wanting |
//! | 8 | more than 2^24 bytes are there, of which at most 2^24 + 1 were read | - |
//!
//! That the process ends with the status, and what the standard streams did with their bytes, is shown by tests of `main`.
//!
//! Its clause `headline` says that `lower` keeps the meaning: where the status is 0, the text that was written stands for a
//! module that does what the source does of the text that was read (`IsLoweredWhole`), by `compiler_theorem`. That module
//! breaks none of the rules of modules without coroutines, and has no coro intrinsic.
#![tactic(auto)]

mod program;

pub use program::{drive, tell};
