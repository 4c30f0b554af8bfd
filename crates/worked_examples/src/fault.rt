//! Reads and writes that fail.
//!
//! A line of the file `faults` is `WORDS < FILE`. The words are answered to the module of the file over a source and sinks of
//! 16 bytes a call: with each read failing in turn, which is a read fault and writes nothing to standard output; with each
//! write to standard output failing in turn, which leaves what was written before, and is told; and with each write to
//! standard error failing in turn, be it of the answer or of such a fault. A line `unread WORDS` is of words that read
//! nothing: a read that fails changes nothing.

use crate::answer::{Answer, Failing, NONE, ask_failing};
use anyhow::Result;
use std::alloc::{AllocError, Global};
use std::fs;

const PIECE: usize = 16;

fn is_read_fault(answer: &Answer) -> bool {
    answer.code == 5 && answer.out.is_empty() && answer.err.as_slice() == b"read fault\n".as_slice()
}

/// How many bytes were written before a call failed.
fn held_before(call: usize) -> usize {
    call.saturating_sub(1).saturating_mul(PIECE)
}

/// Whether a run with this write to standard output failing wrote the pieces before it and no more, and told it.
fn is_write_fault(answer: &Answer, whole: &Answer, call: usize) -> bool {
    answer.code == 6
        && answer.out.len() == held_before(call)
        && whole.out.starts_with(answer.out.as_slice())
        && answer.err.as_slice() == b"write fault\n".as_slice()
}

/// Whether a run with this write to standard error failing wrote the pieces before it and no more.
fn is_untold(answer: &Answer, whole: &Answer, call: usize) -> bool {
    answer.code == 6
        && answer.out.as_slice() == whole.out.as_slice()
        && answer.err.len() == held_before(call)
        && whole.err.starts_with(answer.err.as_slice())
}

/// Whether a run with the first write to each output failing wrote nothing.
fn is_silent(answer: &Answer) -> bool {
    answer.code == 6 && answer.out.is_empty() && answer.err.is_empty()
}

/// The first failing read that isn't told as it should be, of the calls that a whole run makes.
fn wrong_read(alloc: Global, words: &str, text: &[u8]) -> Result<Option<usize>, AllocError> {
    for read in 1..text.len() / PIECE + 2 {
        if !is_read_fault(&ask_failing(alloc, words, text, Failing { read, ..NONE })?) {
            return Ok(Some(read));
        }
    }
    Ok(None)
}

/// The first failing write to standard output that isn't told as it should be.
fn wrong_write(alloc: Global, words: &str, text: &[u8]) -> Result<Option<usize>, AllocError> {
    let whole = ask_failing(alloc, words, text, NONE)?;
    for out in 1..whole.out.len().div_ceil(PIECE) + 1 {
        let told = ask_failing(alloc, words, text, Failing { out, ..NONE })?;
        if !is_write_fault(&told, &whole, out) {
            return Ok(Some(out));
        }
    }
    Ok(None)
}

/// The first failing write to standard error that leaves something else than the pieces before it.
fn wrong_telling(alloc: Global, words: &str, text: &[u8]) -> Result<Option<usize>, AllocError> {
    let whole = ask_failing(alloc, words, text, NONE)?;
    for err in 1..whole.err.len().div_ceil(PIECE) + 1 {
        let told = ask_failing(alloc, words, text, Failing { err, ..NONE })?;
        if !is_untold(&told, &whole, err) {
            return Ok(Some(err));
        }
    }
    let both = Failing {
        read: 0,
        out: 1,
        err: 1,
    };
    if !whole.out.is_empty() && !is_silent(&ask_failing(alloc, words, text, both)?) {
        return Ok(Some(0));
    }
    Ok(None)
}

/// Whether a read that fails changes nothing.
fn is_unread(alloc: Global, words: &str) -> Result<bool, AllocError> {
    let whole = ask_failing(alloc, words, b"", NONE)?;
    let failing = ask_failing(alloc, words, b"", Failing { read: 1, ..NONE })?;
    Ok(
        failing.code == whole.code
            && failing.out.as_slice() == whole.out.as_slice()
            && failing.err.as_slice() == whole.err.as_slice(),
    )
}

/// Writes which write faults are told otherwise.
fn run_writes(rt: &HostRuntime, line: &str, words: &str, text: &[u8]) -> Result<()> {
    if let Some(call) = wrong_write(rt.alloc(), words, text)? {
        println!(rt; "{line}: write {call} otherwise")?;
    }
    if let Some(call) = wrong_telling(rt.alloc(), words, text)? {
        println!(rt; "{line}: write {call} to standard error otherwise")?;
    }
    Ok(())
}

/// Runs the words of a line, and writes which faults are told otherwise. Whether the line has words.
pub fn run(rt: &HostRuntime, line: &str) -> Result<bool> {
    if let Some(words) = line.strip_prefix("unread ") {
        if !is_unread(rt.alloc(), words)? {
            println!(rt; "{line}: read")?;
        }
        run_writes(rt, line, words, b"")?;
        return Ok(true);
    }
    let Some((words, file)) = line.split_once(" < ") else {
        return Ok(false);
    };
    let text = fs::read(rt, file)?;
    if let Some(call) = wrong_read(rt.alloc(), words, &text)? {
        println!(rt; "{line}: read {call} otherwise")?;
    }
    run_writes(rt, line, words, &text)?;
    Ok(true)
}
