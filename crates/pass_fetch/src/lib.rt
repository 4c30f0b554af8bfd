//! Uses of some values that are fetched anew before each of them.
//!
//! The pass is its definition, `with_fetches`.
#![tactic(auto)]

mod blocks;
mod ends;
mod fetch;
mod instrs;
mod names;
mod operands;
mod phis;

pub use blocks::with_fetches;
pub use fetch::{Fetch, address_behind};
pub use instrs::push_fetched;
pub use names::with_numbered_names;
