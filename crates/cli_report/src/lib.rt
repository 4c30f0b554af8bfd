//! The lines that the program writes of places, events, outcomes and refusals.
#![tactic(auto)]

mod place;
mod refusal;
mod run;
mod word;

pub use place::push_place;
pub use refusal::{bad_list_text, not_callable_text, refused_text, syntax_text};
pub use run::{push_outcome, run_text};
