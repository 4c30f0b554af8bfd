//! Lines of tokens, as clang writes its text: an instruction a line (LLVM Language Reference, "Identifiers").
#![tactic(auto)]

mod brackets;
mod lines;
mod listing;
mod spaced;
mod words;

pub use brackets::{Sret, closes, depth_after, of_sret, opens, sret_after};
pub use lines::first_line;
pub use listing::{Listed, tokens_of};
pub use spaced::push_line;
pub use words::{
    are_digits, at, begins, copied, has, is, is_at, is_digit, push_word, tokens_from, tokens_to,
};
