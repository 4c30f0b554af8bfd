//! What the tokens of the text say: words, names, numbers and marks.
//!
//! Its readers are equal to their reading functions. Lemmas join each to the grammar, both ways.
#![tactic(auto)]

mod ident;
mod listing;
mod names;
mod numbers;
mod sym;
mod word;

pub use ident::Ident;
pub use listing::{Symbols, symbols_of};
pub use sym::{Mark, Sym, sym_of};
pub use word::{Word, word_of};
