//! The canonical spelling of names: how a name is written, and which name a spelling stands for.
//!
//! A number is written in digits. A text is written bare where it is a letter, `$`, `.`, `_` or `-` and then letters, digits
//! and these; else between quotes, as LLVM's Language Reference writes identifiers: `\\` stands for a backslash, and a
//! backslash and two upper case hexadecimal digits stand for `"` and bytes outside 32 to 126.
//!
//! `print_name` writes the canonical spelling. `entry_of` gives the name whose spelling the bytes are, and nothing
//! else.
#![tactic(auto)]

mod entry;
mod escape;
mod opened;
mod spelling;

pub use entry::entry_of;
pub use spelling::print_name;
