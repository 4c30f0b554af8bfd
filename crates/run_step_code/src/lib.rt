//! Execution of the ordinary step: instructions, terminators, calls, and entering blocks and functions (LLVM Language
//! Reference, "Instruction Reference"), for any rights of access.
//!
//! `execute`, `make_slot`, `terminate` and `enter_label` do what the one definition of the ordinary step says.
#![tactic(auto)]

mod call;
mod enter;
mod instruction;
mod memory_step;
mod start;
mod terminator;

pub use call::set_result;
pub use enter::{enter_label, first_values, outcome_of, place_at};
pub use instruction::execute;
pub use memory_step::{deallocate, kill_slots, make_slot, risen};
pub use start::first_world;
pub use terminator::terminate;
