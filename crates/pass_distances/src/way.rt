//! What an index adds to an address.

use ir_model::Arg;

/// What an index of a `getelementptr` adds to an address.
#[derive(Drop)]
pub enum Way {
    /// So many bytes.
    Bytes(u64),
    /// An index, which is taken with its sign, times so many bytes.
    Elements(Arg, u64),
}
