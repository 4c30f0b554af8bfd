//! What the passes that weave loads into coroutines keep of rules: fetches, cells, copies and addresses.
#![tactic(auto)]

pub mod addresses;
pub mod cells;
pub mod copies;
pub mod fetch;
