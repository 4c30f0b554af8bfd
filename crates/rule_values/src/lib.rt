//! The types of values: what each part of a function asks of its operands, and the initial values of globals (Y1).
//!
//! It gives the first place of a function (or global) that breaks Y1, by its sentence.
#![tactic(auto)]

mod fits;
mod geps;
mod initials;
mod instrs;
mod kinds;
mod switches;
mod table;
mod values;

pub use initials::first_wrong_initial;
pub use kinds::Kind;
pub use values::first_wrong_value;
