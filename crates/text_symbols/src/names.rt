//! Names by their spelling.

ghost use Rattle.std.specs.Prelude.{◌≡◌, ◌<◌, true, IfOk, option_map};
ghost use Rattle.text_symbols.specs.Names.{is_hex, hex_value, byte_at, unescaped, has_zero, text_name, number_name, name_of, inside};

use crate::numbers::{are_digits, value_of};
use ir_base::{Name, Text};
use std::alloc::{AllocError, Global};

fn is_hex(b: u8) -> bool
    ensures { result ≡ is_hex b }
{
    (b'0' <= b && b <= b'9') || (b'a' <= b && b <= b'f') || (b'A' <= b && b <= b'F')
}

/// The number of a hexadecimal digit.
fn hex_value(b: u8) -> u8
    requires { is_hex b ≡ true }
    ensures value { result ≡ hex_value b }
    ensures bound { result < 16 }
{
    if b <= b'9' {
        b - b'0'
    } else if b <= b'F' {
        b - b'A' + 10
    } else {
        b - b'a' + 10
    }
}

/// The byte that stands first between quotes, and what stands behind its spelling.
fn byte_of(text: &[u8]) -> Option<(u8, &[u8])>
    ensures { option_map (λ x. (x.0, x.1.now)) result ≡ byte_at text.now }
{
    match text {
        [] => None,
        [b'\\', b'\\', rest @ ..] => Some((b'\\', rest)),
        [b'\\', high, low, rest @ ..] if is_hex(*high) && is_hex(*low) => {
            Some((hex_value(*high) * 16 + hex_value(*low), rest))
        }
        [b, rest @ ..] => Some((*b, rest)),
    }
}

/// The bytes that the text between two quotes stands for.
#[tactic(auto, using(crate::proofs::Unescaped::bytes_turn))]
fn unescaped(alloc: Global, text: &[u8]) -> Result<Vec<u8>, AllocError>
    ensures { IfOk result (λ v. v.items ≡ unescaped text.now) }
{
    let mut bytes = Vec::new(alloc);
    let mut rest = text;
    while let Some((b, after)) = byte_of(rest) {
        if after.len() >= rest.len() {
            break;
        }
        bytes.push(b)?;
        rest = after;
    }
    Ok(bytes)
}

fn has_zero(bytes: &[u8]) -> bool
    ensures { result ≡ has_zero bytes.now }
{
    for b in bytes {
        if *b == 0 {
            return true;
        }
    }
    false
}

fn text_name(alloc: Global, bytes: &[u8]) -> Result<Option<Name>, AllocError>
    ensures { IfOk result (λ n. n ≡ text_name bytes.now) }
{
    if bytes.is_empty() || has_zero(bytes) {
        return Ok(None);
    }
    Ok(Some(Name::Text(Text::from_bytes(alloc, bytes)?)))
}

fn number_name(digits: &[u8]) -> Option<Name>
    ensures { result ≡ number_name digits.now }
{
    match value_of(digits) {
        Some(n) if n <= u64::from(u32::MAX) => Some(Name::Number(n as u32)),
        _ => None,
    }
}

/// The bytes between the quotes of a quoted text.
fn inside(bytes: &[u8]) -> &[u8]
    ensures { result.now ≡ inside bytes.now }
{
    match bytes {
        [inside @ .., _] => inside,
        [] => bytes,
    }
}

/// The name that is spelled so, plain or quoted.
pub fn name_of(alloc: Global, bytes: &[u8]) -> Result<Option<Name>, AllocError>
    ensures { IfOk result (λ n. n ≡ name_of bytes.now) }
{
    match bytes {
        [b'"', quoted @ ..] => {
            let text = unescaped(alloc, inside(quoted))?;
            text_name(alloc, text.as_slice())
        }
        _ => {
            if are_digits(bytes) {
                Ok(number_name(bytes))
            } else {
                text_name(alloc, bytes)
            }
        }
    }
}
