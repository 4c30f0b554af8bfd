//! Sources and sinks.

ghost use Rattle.std.specs.Prelude.{ℕ, ◌-◌, ◌<◌, ◌≤◌, List, length, take, IfOk, MatchResult};
ghost use Rattle.std.specs.declared.option.Option.{Option};
ghost use Rattle.std.specs.Io.{ReadsAtMost, WritesAtMost};
ghost use Rattle.std.specs.Io.KnownBytes.{Appends, ReadConsumes};
ghost use Rattle.cli_io.specs.Faults.{HasCause, Succeeds};
ghost use Rattle.cli_io.specs.Parts.{AppendsPrefix};

use thiserror::Error;

/// A call failed, and was counted.
#[derive(Clone, Copy, Debug, PartialEq, Eq, Error)]
#[error("a read or a write failed")]
pub struct Failed;

/// What bytes are read from.
pub trait Source {
    /// The bytes that are left, where that is told.
    ghost left: { Self → Option (List ℕ) };

    /// The count of faults. It never falls.
    ghost faults: { Self → ℕ };

    /// No call from here on fails or counts a fault.
    ghost IsSure: { Self → Type 0 };

    /// Puts the next bytes at the buffer's start, and answers how many: none in a buffer that isn't empty only at the end
    /// of the input. A call that fails was counted, and has taken no byte.
    fn read_into(&mut self, buf: &mut [u8]) -> Result<usize, Failed>
        ensures bound { ReadsAtMost result buf.new }
        ensures bytes { ReadConsumes (left self.old) (left self.new) result buf.new }
        ensures cause { HasCause (faults self.old) (faults self.new) result }
        ensures sure { IsSure self.old → Succeeds (faults self.old) (faults self.new) result (λ _. IsSure self.new) };
}

/// What bytes are written to.
pub trait Sink {
    /// The bytes that are held, where that is told.
    ghost held: { Self → Option (List ℕ) };

    /// The count of faults. It never falls.
    ghost faults: { Self → ℕ };

    /// No call fails or counts a fault while so many bytes are written.
    ghost IsSureFor: { Self → ℕ → Type 0 };

    /// Adds a front of the piece, and answers its length: at least one byte of a piece that isn't empty. A call that fails
    /// was counted, and has added a prefix of its piece.
    fn write(&mut self, bytes: &[u8]) -> Result<usize, Failed>
        ensures bound { WritesAtMost result bytes.now }
        ensures some { 0 < length bytes.now → IfOk result (λ n. 0 < n) }
        ensures appended { MatchResult result
            (λ n. Appends (held self.old) (held self.new) (take n bytes.now))
            (λ _. AppendsPrefix (held self.old) (held self.new) bytes.now) }
        ensures cause { HasCause (faults self.old) (faults self.new) result }
        ensures sure { (room : ℕ) → IsSureFor self.old room → length bytes.now ≤ room
            → Succeeds (faults self.old) (faults self.new) result (λ n. IsSureFor self.new (room - n)) };
}
