//! Texts that are cut behind each of their tokens.
//!
//! The file `cuts` names modules. What is before a cut stands for a module where the cut is at the end of an item; else it begins
//! with the whole items before.

use crate::refusal::is_told;
use anyhow::Result;
use std::fs;
use text_lexer::{Next, next_token};

/// Whether what is left of a text begins with an item, or nothing is left.
fn is_item_next(rest: &[u8]) -> bool {
    let rest = rest.trim_ascii_start();
    rest.is_empty() || rest.starts_with(b"declare ") || rest.starts_with(b"define ")
}

/// Whether a text that begins with so many whole items is answered so.
fn is_answered(rt: &HostRuntime, text: &[u8], ends: bool, items: usize) -> Result<bool> {
    if ends {
        return is_told(rt, "check", text, "");
    }
    let told = format!(in rt.alloc(); "syntax after {items} items")?;
    is_told(rt, "check", text, told.as_str())
}

/// Cuts a text behind each token, and writes where what is before is answered otherwise.
fn cut_all(rt: &HostRuntime, file: &str, text: &[u8]) -> Result<()> {
    let mut at = 0usize;
    let mut items = 0usize;
    for _ in 0..text.len() {
        if at > text.len() {
            return Ok(());
        }
        let Next::Tok(token) = next_token(text, at) else {
            return Ok(());
        };
        at = token.span.end;
        let (before, rest) = text.split_at(at);
        let ends = is_item_next(rest);
        if ends {
            items = items.saturating_add(1);
        }
        if !is_answered(rt, before, ends, items)? {
            println!(rt; "{file} cut at {at}: otherwise")?;
        }
    }
    Ok(())
}

/// Cuts the module of a line. Whether the line names one.
pub fn run(rt: &HostRuntime, line: &str) -> Result<bool> {
    if line.is_empty() || line.starts_with("#") {
        return Ok(false);
    }
    let text = fs::read(rt, line)?;
    cut_all(rt, line, &text)?;
    Ok(true)
}
