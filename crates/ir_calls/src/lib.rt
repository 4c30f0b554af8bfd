//! The calls of a coroutine's intrinsics, their results and their operands ("Coroutines in LLVM", "Intrinsics").
//!
//! Calls of coro intrinsics, their results and operands are those of the definitions.
#![tactic(auto)]

mod calls;

pub use calls::{
    CallOf, InstrTest, call_result, first_call, is_call_of, is_final, is_null, is_number, is_true,
    is_value, operand_of, value_of_first,
};
