//! Public calls on functions of the worked modules.
//!
//! A line of the file `calls` is `CALL FUNCTION WORDS < FILE ~ ANSWER`: the call, the position of a function of the file's
//! module, further numbers, and what the call gives, as numbers and names with spaces between. A call on the whole module names
//! no function.

use crate::sight::Sight;
use anyhow::Result;
use ir_model::Module;
use std::alloc::{AllocError, Global};
use std::fs;
use text_parser::{Parsed, parse};

/// The words of a line.
#[derive(Drop)]
struct Line<'a> {
    words: &'a str,
    file: &'a str,
    told: &'a str,
}

fn line_of(line: &str) -> Option<Line<'_>> {
    let (call, told) = line.split_once(" ~")?;
    let (words, file) = call.split_once(" < ")?;
    Some(Line {
        words,
        file,
        told: told.strip_prefix(" ").unwrap_or(told),
    })
}

/// The numbers among the words.
fn numbers_of(alloc: Global, words: &str) -> Result<Vec<usize>, AllocError> {
    let mut numbers = Vec::new(alloc);
    for word in words.split(' ') {
        if let Ok(number) = word.parse::<usize>() {
            numbers.push(number)?;
        }
    }
    Ok(numbers)
}

/// What a call gives on a module or a function of it.
fn given(alloc: Global, words: &str, module: &Module) -> Result<String, AllocError> {
    let numbers = numbers_of(alloc, words)?;
    let mut sight = Sight::new(alloc);
    if numbers.is_empty() {
        sight.look_over(alloc, words, module)?;
    }
    if let [func, rest @ ..] = numbers.as_slice() {
        if let Some(function) = module.functions.get(*func) {
            sight.look(alloc, words, function, rest)?;
        }
    }
    Ok(sight.into_text())
}

/// Makes the call of a line, and writes where it gives something else. Whether the line has a call.
pub fn run(rt: &HostRuntime, line: &str) -> Result<bool> {
    let Some(call) = line_of(line) else {
        return Ok(false);
    };
    let text = fs::read(rt, call.file)?;
    let Parsed::Module(module) = parse(rt.alloc(), &text)? else {
        println!(rt; "{line}: no module")?;
        return Ok(true);
    };
    let found = given(rt.alloc(), call.words, &module)?;
    if found.as_str() != call.told {
        println!(rt; "{line}: {found}")?;
    }
    Ok(true)
}
