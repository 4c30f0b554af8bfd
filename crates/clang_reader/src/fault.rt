//! Why a line isn't taken.

use ir_base::Text;

/// Why a line isn't taken (LLVM Language Reference, "Identifiers" and "Calling Conventions").
#[derive(Debug, Drop)]
pub enum Fault {
    /// Somewhere no token begins.
    NoToken,
    /// The word names another calling convention than C's.
    Convention(Text),
}
