//! Outputs without room, inputs at the greatest length, and help.
//!
//! A line of the file `streams` is one of these, parted by `~`:
//!
//! - `room~N~WORDS < FILE~TEXT`: standard output has room for N bytes, and holds that text when the write fault is told.
//! - `comment~N~WORDS~STATUS~OUT~ERR`: the input is one comment of so many bytes.
//! - `help~WORDS`: help goes to standard output, and nothing is read.

use crate::answer::{Answer, Failing, NONE, ask, ask_failing, ask_in_room};
use anyhow::Result;
use std::alloc::{AllocError, Global};
use std::fs;

/// Whether these are the lines of what was written, each with its line feed.
fn is_line(alloc: Global, written: &[u8], line: &str) -> Result<bool, AllocError> {
    if line.is_empty() {
        return Ok(written.is_empty());
    }
    let wanted = format!(in alloc; "{line}\n")?;
    Ok(written == wanted.as_bytes())
}

/// Whether a full output holds the text, and the fault is told.
fn is_room(rt: &HostRuntime, line: &str) -> Result<bool> {
    let mut words = line.split('~');
    let (Some(room), Some(asked), Some(text)) = (words.next(), words.next(), words.next()) else {
        return Ok(false);
    };
    let (Ok(room), Some((asked, file))) = (room.parse::<u32>(), asked.split_once(" < ")) else {
        return Ok(false);
    };
    let answer = ask_in_room(rt.alloc(), asked, &fs::read(rt, file)?, room as usize)?;
    Ok(
        answer.code == 6
            && answer.out.as_slice() == text.as_bytes()
            && answer.err.as_slice() == b"write fault\n".as_slice(),
    )
}

/// A comment of so many bytes.
fn comment(alloc: Global, count: u32) -> Result<Vec<u8>, AllocError> {
    let mut text = Vec::new(alloc);
    for _ in 0..count {
        text.push(b';')?;
    }
    Ok(text)
}

/// Whether the answer to a comment of so many bytes is that of the line.
fn is_comment(rt: &HostRuntime, line: &str) -> Result<bool> {
    let mut words = line.split('~');
    let (Some(count), Some(asked), Some(code)) = (words.next(), words.next(), words.next()) else {
        return Ok(false);
    };
    let (Some(out), Some(err)) = (words.next(), words.next()) else {
        return Ok(false);
    };
    let (Ok(count), Ok(code)) = (count.parse::<u32>(), code.parse::<u8>()) else {
        return Ok(false);
    };
    let answer = ask(rt.alloc(), asked, &comment(rt.alloc(), count)?)?;
    Ok(
        answer.code == code
            && is_line(rt.alloc(), &answer.out, out)?
            && is_line(rt.alloc(), &answer.err, err)?,
    )
}

fn is_help_text(answer: &Answer) -> bool {
    answer.code == 0 && !answer.out.is_empty() && answer.err.is_empty()
}

/// Whether help is written, also where each read fails.
fn is_help(rt: &HostRuntime, words: &str) -> Result<bool> {
    let unread = Failing { read: 1, ..NONE };
    Ok(
        is_help_text(&ask(rt.alloc(), words, b"")?)
            && is_help_text(&ask_failing(rt.alloc(), words, b"", unread)?),
    )
}

/// Runs a line, and writes whether it is answered otherwise. Whether the line asks for something.
pub fn run(rt: &HostRuntime, line: &str) -> Result<bool> {
    let Some((kind, rest)) = line.split_once('~') else {
        return Ok(false);
    };
    let is_right = match kind {
        "room" => is_room(rt, rest)?,
        "comment" => is_comment(rt, rest)?,
        "help" => is_help(rt, rest)?,
        _ => false,
    };
    if !is_right {
        println!(rt; "{line}: otherwise")?;
    }
    Ok(true)
}
