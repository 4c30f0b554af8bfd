//! What is seen of a source run, by the facts that are found.
//!
//! A source machine that is given facts which say what the paths say shows what the source means (`facts_suffice`).
#![tactic(auto)]

mod law;

pub use law::facts_suffice;
