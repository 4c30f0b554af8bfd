//! The distance of a `getelementptr` from its base, summed by instructions.
//!
//! What it makes is the definition's sum.
#![tactic(auto)]

mod offset;
mod sum;
mod types;
mod way;
mod ways;

pub use sum::push_distance;
pub use types::Types;
pub use way::Way;
