//! One line.

ghost use Rattle.std.specs.Prelude.{◌≡◌, IfOk, MatchOption, None, Some};
ghost use Rattle.clang_reader.specs.Read as spec;

use crate::bitcasts::{Bitcasts, replaced};
use crate::fault::Fault;
use crate::form::form_of;
use crate::plain::plain;
use crate::written::written_as;
use clang_tokens::{Listed, begins, is};
use ir_base::{Data, Items, Text};
use std::alloc::{AllocError, Global};

/// What a line becomes.
#[derive(Drop)]
pub enum LineRead {
    /// These tokens.
    Gives(Items<Text>),
    /// Nothing: the line isn't taken.
    Stops(Fault),
}

fn begins_small(token: &[u8]) -> bool
    ensures { result ≡ spec.begins_small token.now }
{
    match token {
        [] => false,
        [first, ..] => b'a' <= *first && *first <= b'z',
    }
}

fn ends_cc(token: &[u8]) -> bool
    ensures { result ≡ spec.ends_cc token.now }
{
    if token.len() < 2 {
        return false;
    }
    let (_, tail) = token.split_at(token.len() - 2);
    is(tail, b"cc")
}

fn is_kernel(token: &[u8]) -> bool
    ensures { result ≡ spec.is_kernel token.now }
{
    is(token, b"aarch64_vector_pcs")
        || is(token, b"aarch64_sve_vector_pcs")
        || is(token, b"ptx_kernel")
        || is(token, b"ptx_device")
        || is(token, b"spir_kernel")
        || is(token, b"spir_func")
        || is(token, b"amdgpu_kernel")
}

/// Whether a word names another calling convention than C's.
fn is_convention(token: &[u8]) -> bool
    ensures { result ≡ spec.is_convention token.now }
{
    (begins_small(token) && ends_cc(token) && !is(token, b"ccc")) || is_kernel(token)
}

fn first_convention(tokens: &[Text]) -> Option<&Text>
    ensures { MatchOption result (spec.first_convention tokens.now ≡ None) (λ t. spec.first_convention tokens.now ≡ Some t.now) }
{
    for token in tokens {
        if is_convention(token.as_bytes()) {
            return Some(token);
        }
    }
    None
}

fn behind_spaces(line: &[u8]) -> &[u8]
    ensures { result.now ≡ spec.behind_spaces line.now }
{
    let mut rest = line;
    while let [first, more @ ..] = rest {
        if *first != b' ' {
            return rest;
        }
        rest = more;
    }
    rest
}

/// Whether a debug record stands on the line.
fn is_debug(line: &[u8]) -> bool
    ensures { result ≡ spec.is_debug line.now }
{
    begins(b"#dbg_", behind_spaces(line))
}

fn plain_read(
    alloc: Global,
    bitcasts: &Bitcasts,
    number: u64,
    tokens: &[Text],
) -> Result<LineRead, AllocError>
    ensures { IfOk result (λ r. r ≡ spec.plain_read bitcasts.now.all number tokens.now) }
{
    let form = form_of(tokens);
    let tokens = replaced(alloc, bitcasts, tokens)?;
    Ok(LineRead::Gives(written_as(alloc, form, number, tokens)?))
}

fn listed_read(
    alloc: Global,
    bitcasts: &Bitcasts,
    number: u64,
    listed: &Listed,
) -> Result<LineRead, AllocError>
    ensures { IfOk result (λ r. r ≡ spec.listed_read bitcasts.now.all number listed.now) }
{
    if !listed.whole {
        return Ok(LineRead::Stops(Fault::NoToken));
    }
    let tokens = listed.tokens.as_slice();
    match first_convention(tokens) {
        Some(word) => Ok(LineRead::Stops(Fault::Convention(word.copied(alloc)?))),
        None => {
            let plain = plain(alloc, tokens)?;
            plain_read(alloc, bitcasts, number, plain.as_slice())
        }
    }
}

/// What a line becomes.
pub fn line_read(
    alloc: Global,
    bitcasts: &Bitcasts,
    number: u64,
    line: &[u8],
    listed: &Listed,
) -> Result<LineRead, AllocError>
    ensures { IfOk result (λ r. r ≡ spec.line_read bitcasts.now.all number line.now listed.now) }
{
    if is_debug(line) {
        return Ok(LineRead::Gives(Items::new(alloc)));
    }
    listed_read(alloc, bitcasts, number, listed)
}
