//! Modules that hold many parts of one form: those at a limit, and one above it.
//!
//! A line of the file `limits` is `COUNT~HEAD~PART~TAIL~ANSWER`: the module is the head, the part so often, in which each `#`
//! is the number of the part in hexadecimal digits, counted from 0, and the tail. The answer is as in `refusals`; behind
//! `layout ` it is what `layout` writes, and behind `forms ` what `run --entry main` writes in each form, with `;` at the end of each
//! line.

use crate::answer::ask;
use crate::refusal::is_told;
use anyhow::Result;
use std::alloc::{AllocError, Global};

/// The words of a line.
#[derive(Drop)]
struct Limit<'a> {
    count: u32,
    head: &'a str,
    part: &'a str,
    tail: &'a str,
    told: &'a str,
}

fn limit_of(line: &str) -> Option<Limit<'_>> {
    let mut words = line.split('~');
    let count = words.next()?.parse::<u32>().ok()?;
    Some(Limit {
        count,
        head: words.next()?,
        part: words.next()?,
        tail: words.next()?,
        told: words.next()?,
    })
}

/// Adds the part of a number to a text.
fn push_part(alloc: Global, text: &mut String, part: &str, number: u32) -> Result<(), AllocError> {
    let digits = format!(in alloc; "{number:x}")?;
    let mut is_first = true;
    for piece in part.split('#') {
        if !is_first {
            text.push_str(digits.as_str())?;
        }
        text.push_str(piece)?;
        is_first = false;
    }
    Ok(())
}

impl Limit<'_> {
    fn text(&self, alloc: Global) -> Result<String, AllocError> {
        let mut text = String::from_str(alloc, self.head)?;
        for number in 0..self.count {
            push_part(alloc, &mut text, self.part, number)?;
        }
        text.push_str(self.tail)?;
        Ok(text)
    }
}

/// How the answer of a line is asked for.
#[derive(Clone, Copy)]
enum Asked {
    /// As what `check` answers.
    Check,
    /// As what `layout` writes.
    Layout,
    /// As what `run` writes in each form.
    Forms,
}

/// How the answer of a line is asked for, and what follows that in the line.
fn asking(line: &str) -> (Asked, &str) {
    if let Some(rest) = line.strip_prefix("layout ") {
        (Asked::Layout, rest)
    } else if let Some(rest) = line.strip_prefix("forms ") {
        (Asked::Forms, rest)
    } else {
        (Asked::Check, line)
    }
}

/// Whether the words write these lines of the text.
fn is_shown(rt: &HostRuntime, words: &str, text: &[u8], lines: &str) -> Result<bool> {
    let given = ask(rt.alloc(), words, text)?;
    let mut wanted = String::new(rt.alloc());
    for line in lines.split(';') {
        if !line.is_empty() {
            wanted.push_str(line)?;
            wanted.push('\n')?;
        }
    }
    Ok(given.out.as_slice() == wanted.as_bytes() && given.err.is_empty() && given.code == 0)
}

/// Whether `run` writes these lines of the text in each form.
fn is_run(rt: &HostRuntime, text: &[u8], lines: &str) -> Result<bool> {
    Ok(
        is_shown(rt, "run --form source --entry main", text, lines)?
            && is_shown(rt, "run --form lowered --entry main", text, lines)?
            && is_shown(rt, "run --plain --form lowered --entry main", text, lines)?,
    )
}

/// Checks the module of a line, and writes where it is answered otherwise. Whether the line has a module.
pub fn run(rt: &HostRuntime, line: &str) -> Result<bool> {
    let (asked, line) = asking(line);
    let Some(limit) = limit_of(line) else {
        return Ok(false);
    };
    let text = limit.text(rt.alloc())?;
    let is_so = match asked {
        Asked::Check => is_told(rt, "check", text.as_bytes(), limit.told)?,
        Asked::Layout => is_shown(rt, "layout", text.as_bytes(), limit.told)?,
        Asked::Forms => is_run(rt, text.as_bytes(), limit.told)?,
    };
    if !is_so {
        println!(rt; "{line}: otherwise")?;
    }
    Ok(true)
}
