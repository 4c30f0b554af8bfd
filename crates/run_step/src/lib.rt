//! The ordinary step: what one instruction does that is no coro intrinsic (LLVM Language Reference, "Instruction
//! Reference"), in each of the three meanings, as a definition; and the code of what it stands on: programs with their
//! tables, operands and their values, sizes of types, operations on values.
//!
//! Operands, sizes and operations are equal to the one definition of the ordinary step. Tables of names, labels and
//! marks of allocas find what the definition searches.
#![tactic(auto)]

mod computing;
mod effect;
mod element;
mod extent;
mod function_table;
mod labels;
mod markers;
mod names;
mod operand;
mod program;
mod stack;
mod width;
mod world;

pub use computing::{by, choose, compare_at, compute, converted};
pub use effect::Effect;
pub use element::moved;
pub use labels::{position, positions_of};
pub use operand::{
    Values, access_of, from_number, literal, number_at, pointer_to, to_address, to_number,
    to_stored, truth, value_of_local,
};
pub use program::Program;
pub use stack::Stack;
pub use width::{bits, cut};
pub use world::{Slot, World};
