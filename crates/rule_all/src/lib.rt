//! All rules in the one order of refusals.
//!
//! `first_refusal` gives the first broken of all these rules in the one order, with its first place. It gives none
//! exactly where none of them is broken (`IsRefused`), for sources and for plain modules.
#![tactic(auto)]

mod faults;
mod function;
mod order;

pub use faults::PathFaults;
pub use order::first_refusal;
pub use rule_modules::Refusal;
pub use rule_names::Stage;
