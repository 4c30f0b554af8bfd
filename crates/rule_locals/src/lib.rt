//! The rules of single functions that ask for no paths and no types of values: Y3, Y4, Y5, F3, P1, K1 and K13; and Y4 of
//! globals.
//!
//! It gives the first place of a function (or global) that breaks each of these rules, each by its sentence.
#![tactic(auto)]

mod addresses;
mod calls;
mod entries;
mod extents;
mod instrs;
mod intrinsics;
mod markers;
mod slots;
mod transfers;

pub use addresses::first_function_pointer;
pub use calls::first_closed_call;
pub use entries::first_late_alloca;
pub use extents::{first_misaligned_global, first_past_extent};
pub use instrs::{InstrRule, first_instr};
pub use intrinsics::first_misplaced_intrinsic;
pub use markers::first_other_mark;
pub use transfers::first_wrong_transfer;
