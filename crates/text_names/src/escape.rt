//! Where a byte stands between quotes.

/// Where a byte stands between quotes.
#[derive(Clone, Copy, Debug, PartialEq, Eq)]
pub enum Escape {
    /// Outside an escape.
    Outside,
    /// Behind a backslash.
    Backslash,
    /// Behind a backslash and the first digit of a byte, which has this number.
    Digit(u8),
}
