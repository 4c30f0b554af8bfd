//! Writers that tell whether they were flushed.

ghost use Rattle.std.specs.Prelude.{◌≡◌, true, false, OnOk};
ghost use Rattle.std.specs.Io.{WritesAtMost};
ghost use Rattle.std.specs.Io.KnownBytes.{Keeps, WriteAppends};

use std::io::{Result, Write};

/// A writer, and whether it was flushed since it was written to. Of `flush` std says that the bytes stay, and no more. So
/// no clause says that this one flushes its writer.
#[derive(Drop)]
pub struct Flushing<W: Write> {
    writer: W,
    flushed: bool,
}

impl<W: Write> Flushing<W> {
    /// This writer, to which nothing was written.
    pub fn new(writer: W) -> Self
        ensures { result.writer ≡ writer }
    {
        Flushing {
            writer,
            flushed: true,
        }
    }

    /// Writes a front of the bytes, and answers its length. They wait for a flush.
    pub fn write(&mut self, bytes: &[u8]) -> Result<usize>
        ensures bound { WritesAtMost result bytes.now }
        ensures bytes { WriteAppends (W.contents self.old.writer) (W.contents self.new.writer) result bytes.now }
        ensures waits { self.new.flushed ≡ false }
    {
        self.flushed = false;
        self.writer.write(bytes)
    }

    /// Flushes the writer.
    pub fn flush(&mut self) -> Result<()>
        ensures bytes { Keeps (W.contents self.old.writer) (W.contents self.new.writer) }
        ensures flushed { OnOk result (self.new.flushed ≡ true) }
    {
        self.writer.flush()?;
        self.flushed = true;
        Ok(())
    }
}
