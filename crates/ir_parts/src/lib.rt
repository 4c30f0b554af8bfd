//! The parts of a function in order of the text, what stands in them, and the first of them that breaks a rule.
//!
//! `first_part` gives the first part of a function, in order of the text, that breaks a rule. The types, operands,
//! labels and definitions of each part are given too.
#![tactic(auto)]

mod contents;
mod defined;
mod rule;

pub use contents::{
    LabelTest, OperandTest, TypeTest, ending_labels_pass, ending_operands_pass, ending_types_pass,
    incoming_labels_pass, incoming_operands_pass, instr_operands_pass, instr_types_pass,
    signature_types_pass, types_pass,
};
pub use defined::{Definition, locals_of, result_of};
pub use ir_model as ir_model_library;
pub use rule::{
    FunctionRule, block_place, first_part, function_place, instr_place, item_place, next,
};
