//! The words of the command line: which are taken, and what they ask for.
//!
//! `take_words` is the written definition of the commands over `clap`'s own contract. A list that isn't one is named,
//! `--args` before `--answers`. Help comes only where a word asks for it. `read_list` reads such a list.
#![tactic(auto)]

mod answer;
mod command;
mod list;
mod matched;
mod taken;
mod words;

pub use answer::Taken;
pub use list::read_list;
pub use taken::take_words;
pub use words::{CallReading, Form, Reading, RunWords, Words};
