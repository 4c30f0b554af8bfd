//! Numbers that may be poison.

use ir_base::Word;

/// A number of a width, or poison (LLVM Language Reference, "Poison Values").
#[derive(Clone, Copy, Debug, PartialEq, Eq, Drop)]
pub enum Num {
    Poison,
    Is(Word),
}
