//! The tokens of the text: LLVM's assembly language as far as its integer subset needs it.
//!
//! `next_token` gives the longest token. It gives `BadByte` exactly where none begins, and `End` exactly where only
//! blanks and comments are left. A text has one list of tokens (`text_has_one_list_of_tokens`), and a token is of one
//! kind (`token_is_of_one_kind`).
#![tactic(auto)]

mod bytes;
mod law;
mod scan;
mod token;

pub use law::{text_has_one_list_of_tokens, token_is_of_one_kind};
pub use token::{Kind, Next, Span, Token, next_token};
