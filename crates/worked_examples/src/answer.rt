//! What the program answers.

ghost use Rattle.std.specs.Prelude.{◌<◌};

use cli_drive::drive;
use cli_io::{ByteSink, ByteSource};
use ir_base::Status;
use std::alloc::{AllocError, Global};

/// The status of a run, and what its two sinks hold.
#[derive(Drop)]
pub struct Answer {
    pub code: u8,
    pub out: Vec<u8>,
    pub err: Vec<u8>,
}

/// The words of a line with a space between them.
fn words_of(alloc: Global, line: &str) -> Result<Vec<String>, AllocError> {
    let mut words = Vec::new(alloc);
    for word in line.split(' ') {
        if !word.is_empty() {
            words.push(String::from_str(alloc, word)?)?;
        }
    }
    Ok(words)
}

/// What the program answers to the words of a line, over a source and two sinks.
fn answer_over(
    alloc: Global,
    line: &str,
    mut input: ByteSource,
    mut out: ByteSink,
    mut err: ByteSink,
) -> Result<Answer, AllocError> {
    let words = words_of(alloc, line)?;
    let status: Status = drive(alloc, &words, &mut input, &mut out, &mut err);
    Ok(Answer {
        code: status.code(),
        out: out.into_bytes(),
        err: err.into_bytes(),
    })
}

/// What the program answers to the words of a line and an input.
pub fn ask(alloc: Global, line: &str, text: &[u8]) -> Result<Answer, AllocError> {
    let input = ByteSource::new(Vec::from_slice(alloc, text)?, 4096, Vec::new(alloc));
    let out = ByteSink::with_room(alloc, 33_554_432, 4096, Vec::new(alloc))?;
    let err = ByteSink::with_room(alloc, 65_536, 4096, Vec::new(alloc))?;
    answer_over(alloc, line, input, out, err)
}

/// The calls of a source and two sinks that fail, each named by its number, 0 for none.
#[derive(Clone, Copy, Drop)]
pub struct Failing {
    pub read: usize,
    pub out: usize,
    pub err: usize,
}

/// Where no call fails.
pub const NONE: Failing = Failing {
    read: 0,
    out: 0,
    err: 0,
};

/// A sink of a room of so many bytes, of which each call takes a piece, and one call fails.
fn sink(alloc: Global, room: usize, piece: usize, fail: usize) -> Result<ByteSink, AllocError>
    requires { 0 < piece }
{
    ByteSink::with_room(alloc, room, piece, Vec::from_slice(alloc, &[fail as u64])?)
}

/// The same over a source and sinks of 16 bytes a call, where some calls fail.
pub fn ask_failing(
    alloc: Global,
    line: &str,
    text: &[u8],
    failing: Failing,
) -> Result<Answer, AllocError> {
    let reads = Vec::from_slice(alloc, &[failing.read as u64])?;
    let input = ByteSource::new(Vec::from_slice(alloc, text)?, 16, reads);
    let out = sink(alloc, 65_536, 16, failing.out)?;
    let err = sink(alloc, 65_536, 16, failing.err)?;
    answer_over(alloc, line, input, out, err)
}

/// The same, where standard output has so much room.
pub fn ask_in_room(
    alloc: Global,
    line: &str,
    text: &[u8],
    room: usize,
) -> Result<Answer, AllocError> {
    let input = ByteSource::new(Vec::from_slice(alloc, text)?, 16, Vec::new(alloc));
    let out = sink(alloc, room, 16, 0)?;
    let err = sink(alloc, 65_536, 16, 0)?;
    answer_over(alloc, line, input, out, err)
}
