//! The module rules in their order: limits, second definitions, unknown names, reserved names, and types of calls.
//!
//! `module_refusal` gives the first broken rule of L1, N1, N2, N3, Y2 and its first place. It gives none exactly
//! where none of them is broken, for sources and for plain modules.
#![tactic(auto)]

mod order;

pub use order::{Refusal, module_refusal};
