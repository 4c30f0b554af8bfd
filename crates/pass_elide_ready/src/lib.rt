//! Framed forms of accepted sources keep what elision asks of modules.
#![tactic(auto)]

pub mod asking;
pub mod crossing;
pub mod freed;
pub mod records;
pub mod rules;
pub mod shapes;
pub mod sites;
