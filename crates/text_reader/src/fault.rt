//! Why symbols can't be read.

ghost use Rattle.std.specs.Prelude.{◌≡◌};
ghost use Rattle.text_reader.specs.declared.fault.ReadError.TheVariants.{Memory};

use std::alloc::{AllocError, AllocFailed};

/// Why symbols can't be read.
#[derive(Debug, Drop)]
pub enum ReadError {
    /// Want of memory.
    Memory,
    /// What is asked for doesn't stand there.
    Syntax,
}

impl From<AllocError> for ReadError {
    ghost from_gives = { λ _ e. e ≡ Memory };

    fn from(_e: AllocError) -> ReadError {
        ReadError::Memory
    }
}

impl<T: Drop> From<AllocFailed<T>> for ReadError {
    ghost from_gives = { λ _ e. e ≡ Memory };

    fn from(_e: AllocFailed<T>) -> ReadError {
        ReadError::Memory
    }
}
