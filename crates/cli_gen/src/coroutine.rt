//! Which coroutine is generated.

/// A generated coroutine.
#[derive(Clone, Copy, Debug, PartialEq, Eq, Drop)]
pub struct Coroutine {
    /// Its number among the coroutines, from 0.
    pub number: u8,
    /// How many suspends it has.
    pub suspends: u8,
}
