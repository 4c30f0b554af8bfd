//! Why a run is undefined.

ghost use Rattle.std.specs.Prelude.{◌≡◌};
ghost use Rattle.ir_base.specs.Words.{cause_word};

/// Why a run is undefined, as `run` prints it.
#[derive(Clone, Copy, Debug, PartialEq, Eq, Drop)]
pub enum Cause {
    /// A branch, a switch, an observed argument, an address, a size or an entry's result is poison, or a divisor is.
    Poison,
    /// A division by zero, or of the least value by -1.
    Div,
    /// `unreachable` was executed.
    Unreachable,
    /// An access to a dead block, or a promise of an instance that has ended.
    Dead,
    /// An access out of bounds, or an address that is null or a function.
    Bounds,
    /// An access whose alignment isn't met.
    Align,
    /// A store or copy into a constant.
    Constant,
    /// A copy of ranges that overlap without being equal.
    Overlap,
    /// An access to owned bytes, or a deallocation of an owned block that isn't allowed.
    Owned,
    /// A comparison of pointers that isn't defined.
    Compare,
    /// A deallocator on what it may not free.
    Free,
    /// `coro.begin` on a block that can't become a frame.
    Begin,
    /// A pointer that is no frame address where one is asked for.
    Frame,
    /// An instance that isn't in the state asked for.
    State,
    /// A promise asked for where there is none.
    Promise,
    /// An indirect call on no defined function or on one of another type.
    Call,
}

impl Cause {
    /// The word that the program prints.
    pub fn word(self) -> &'static str
        ensures { result.now ≡ cause_word self }
    {
        match self {
            Cause::Poison => "poison",
            Cause::Div => "div",
            Cause::Unreachable => "unreachable",
            Cause::Dead => "dead",
            Cause::Bounds => "bounds",
            Cause::Align => "align",
            Cause::Constant => "constant",
            Cause::Overlap => "overlap",
            Cause::Owned => "owned",
            Cause::Compare => "compare",
            Cause::Free => "free",
            Cause::Begin => "begin",
            Cause::Frame => "frame",
            Cause::State => "state",
            Cause::Promise => "promise",
            Cause::Call => "call",
        }
    }
}
