//! The memory of the modelled program: blocks of bytes, and pointers into them.
//!
//! `fresh`, `load`, `store`, `copy`, `compare`, `kill`, `own`, `start`, `end`, `disown` and `seal` are equal to their
//! definitions, with the first cause in its order. A refused call changes nothing. Only `new` and `fresh` take
//! memory.
#![tactic(auto)]

mod between;
mod block;
mod comparison;
mod contents;
mod decoded;
mod encoded;
mod memory;
mod pointer;
mod range;
mod rights;
mod transfer;

pub use block::{Byte, Kind, Life, MemoryBlock};
pub use contents::Contents;
pub use memory::Memory;
pub use pointer::{Access, BlockId, Offset, Pointer, Spot, Value};
pub use rights::{AccessRights, OwnerRights};
pub use run_ints as run_ints_library;
