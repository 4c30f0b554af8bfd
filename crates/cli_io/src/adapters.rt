//! Sources and sinks over std's readers and writers.

ghost use Rattle.std.specs.Prelude.{◌≡◌, ◌<◌, ◌≤◌, ℕ, length, take, true, IfOk, OnOk, MatchResult, is_err, if◌then◌else◌};
ghost use Rattle.std.specs.Io.{ReadsAtMost, WritesAtMost};
ghost use Rattle.std.specs.Io.KnownBytes.{Appends, ReadConsumes};
ghost use Rattle.cli_io.specs.Faults.{HasCause, Succeeds, risen};
ghost use Rattle.cli_io.specs.Parts.{AppendsPrefix};

use crate::calls::raised;
use crate::flushing::Flushing;
use crate::traits::{Failed, Sink, Source};
use std::io::{Read, Write};

/// A source over a reader. It tells what its reader tells, and counts each error.
#[derive(Drop)]
pub struct ReadSource<R: Read> {
    reader: R,
    faults: u64,
}

impl<R: Read> ReadSource<R> {
    /// The bytes of this reader, without a fault so far.
    pub fn new(reader: R) -> Self
        ensures left { ⟦<ReadSource<R> as Source>⟧.left result ≡ R.remaining reader }
        ensures faults { ⟦<ReadSource<R> as Source>⟧.faults result ≡ 0 }
    {
        ReadSource { reader, faults: 0 }
    }
}

impl<R: Read> Source for ReadSource<R> {
    ghost left = { λ s. R.remaining s.reader };

    ghost faults = { λ s. s.faults };

    ghost IsSure = { λ _. ⊥ };

    fn read_into(&mut self, buf: &mut [u8]) -> Result<usize, Failed>
        ensures bound { ReadsAtMost result buf.new }
        ensures bytes { ReadConsumes (R.remaining self.old.reader) (R.remaining self.new.reader) result buf.new }
        ensures cause { HasCause self.old.faults self.new.faults result }
        ensures counted { self.new.faults ≡ (if is_err result then risen self.old.faults else self.old.faults) }
        ensures sure { ⊥ → Succeeds self.old.faults self.new.faults result (λ _. ⊥) }
    {
        match self.reader.read(buf) {
            Ok(count) => Ok(count),
            Err(_) => {
                self.faults = raised(self.faults);
                Err(Failed)
            }
        }
    }
}

/// A sink over a writer, which is flushed after each write. It tells what its writer tells, and counts each error, and each
/// write that takes nothing of a piece that isn't empty.
#[derive(Drop)]
pub struct WriteSink<W: Write> {
    writer: Flushing<W>,
    faults: u64,
}

impl<W: Write> WriteSink<W> {
    /// What this writer holds, without a fault so far.
    pub fn new(writer: W) -> Self
        ensures held { ⟦<WriteSink<W> as Sink>⟧.held result ≡ W.contents writer }
        ensures faults { ⟦<WriteSink<W> as Sink>⟧.faults result ≡ 0 }
    {
        WriteSink {
            writer: Flushing::new(writer),
            faults: 0,
        }
    }

    fn fail(&mut self) -> Failed
        ensures writer { self.new.writer ≡ self.old.writer }
        ensures faults { self.new.faults ≡ risen self.old.faults }
        ensures later { self.old.faults ≤ self.new.faults }
    {
        self.faults = raised(self.faults);
        Failed
    }
}

impl<W: Write> Sink for WriteSink<W> {
    ghost held = { λ s. W.contents s.writer.writer };

    ghost faults = { λ s. s.faults };

    ghost IsSureFor = { λ _ _. ⊥ };

    fn write(&mut self, bytes: &[u8]) -> Result<usize, Failed>
        ensures bound { WritesAtMost result bytes.now }
        ensures some { 0 < length bytes.now → IfOk result (λ n. 0 < n) }
        ensures appended { MatchResult result
            (λ n. Appends (W.contents self.old.writer.writer) (W.contents self.new.writer.writer) (take n bytes.now))
            (λ _. AppendsPrefix (W.contents self.old.writer.writer) (W.contents self.new.writer.writer) bytes.now) }
        ensures cause { HasCause self.old.faults self.new.faults result }
        ensures counted { self.new.faults ≡ (if is_err result then risen self.old.faults else self.old.faults) }
        // What is told as written was flushed.
        ensures flushed { OnOk result (self.new.writer.flushed ≡ true) }
        ensures sure { (room : ℕ) → ⊥ → length bytes.now ≤ room → Succeeds self.old.faults self.new.faults result (λ _. ⊥) }
    {
        let Ok(count) = self.writer.write(bytes) else {
            return Err(self.fail());
        };
        if count == 0 && !bytes.is_empty() {
            return Err(self.fail());
        }
        match self.writer.flush() {
            Ok(()) => Ok(count),
            Err(_) => Err(self.fail()),
        }
    }
}
