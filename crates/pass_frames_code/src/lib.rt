//! Where the places of a coroutine are in its framed form, what stands there, and what straight lines of it do.
#![tactic(auto)]

pub mod agains;
pub mod code;
pub mod distanced;
pub mod distances;
pub mod entry;
pub mod fetched;
pub mod followed;
pub mod framings;
pub mod geps;
pub mod givens;
pub mod layers;
pub mod led;
pub mod lined;
pub mod lines;
pub mod moved;
pub mod offsets;
pub mod ordinary;
pub mod phis;
pub mod reached;
pub mod start;
pub mod stepping;
pub mod tests;
pub mod worked;
