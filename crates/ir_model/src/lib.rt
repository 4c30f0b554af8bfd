//! Modules of the IR as data: types, instructions, blocks, functions, globals.
//!
//! Copies and comparisons of whole modules are exact. `callee_of` tells intrinsics, allocators and other functions
//! apart by the one table. `first_result` finds the first result of an intrinsic's calls.
#![tactic(auto)]

mod calls;
mod instr;
mod ir_type;
mod module;
mod names;
mod operand;
mod table;

pub use calls::{is_same_intrinsic, result_of_call};
pub use instr::{Case, Incoming, Instr, Phi, Terminator};
pub use ir_base as ir_base_library;
pub use ir_type::{IntWidth, IrType, Node};
pub use module::{Block, Declaration, Frame, Function, GlobalItem, Module, Param, TypeItem};
pub use names::numbered_name;
pub use operand::{Allocator, Arg, Callee, Intrinsic, Operand};
pub use table::callee_of;
