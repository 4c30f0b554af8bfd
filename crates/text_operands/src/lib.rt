//! The text of types, operands and the words of instructions.
//!
//! What it writes is the canonical text.
#![tactic(auto)]

mod operands;
mod types;
mod words;

pub use operands::{
    push_arg, push_args, push_callee, push_global, push_label, push_local, push_more_args,
    push_name, push_operand, push_result,
};
pub use types::{push_number, push_type};
pub use words::{binary_word, cast_word, pred_word, push_flag, push_flags};
