//! Laws of what texts say: names that are short, apart or of words, and what phrases of the grammar leave behind
//! them.

pub mod named_texts;
pub mod names_apart;
pub mod order_meaning;
pub mod order_rules;
pub mod spelled;
pub mod widths;
