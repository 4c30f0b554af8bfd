//! The first pass: it keeps meaning, rules, and what the analyses see.
#![tactic(auto)]

pub mod early;
