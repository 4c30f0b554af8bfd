//! The run of a source beside that of what it was lowered to.
//!
//! `compare` runs the source until it is over, or so many steps. Then it runs the lowered module up to the least step at
//! which that has the source's events, and has returned where the source has. That there is such a step is a premise: it
//! is what lowering promises (the prefix form of agreement). So there is no answer for disagreement.
#![tactic(auto)]

mod comparing;
mod reports;

pub use comparing::compare;
pub use reports::{Counts, Report};
