//! The operations on integers of a width, each given on whole numbers (LLVM Language Reference, "Binary Operations",
//! "Bitwise Binary Operations", "Conversion Operations").
//!
//! `binary`, `icmp`, `cast` and `select` are equal to their definitions on whole numbers. Each result is a number of
//! its width.
#![tactic(auto)]

mod casts;
mod compare;
mod num;
mod operation;
mod whole;

pub use casts::cast;
pub use compare::{icmp, select};
pub use ir_base as ir_base_library;
pub use num::Num;
pub use operation::binary;
pub use whole::{cut_signed, signed};
