//! The limits of a module (L1), and the types of calls and of what is called (Y2).
//!
//! It gives the first place of a module that breaks L1 or Y2, each by its sentence.
#![tactic(auto)]

mod depth;
mod heights;
mod limits;
mod signatures;
mod wants;

pub use limits::first_past_limit;
pub use signatures::first_other_type;
pub use wants::{Basic, Demand, Wanted};
