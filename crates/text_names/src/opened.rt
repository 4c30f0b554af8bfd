//! Reading what stands between quotes.

ghost use Rattle.std.specs.Prelude.{◌≡◌, ◌<◌, ◌≤◌, IfOk, IfSome, option_to_list, length};
ghost use Rattle.text_names.specs.Opened as spec;
ghost use Rattle.text_names.specs.Opened.{InRange};

use crate::escape::Escape;
use crate::spelling::is_digit;
use std::alloc::{AllocError, Global};

fn hex_value(byte: u8) -> u8
    ensures value { result ≡ spec.hex_value byte }
    ensures small { result < 16 }
{
    if is_digit(byte) {
        byte - b'0'
    } else if b'A' <= byte && byte <= b'F' {
        byte - 55
    } else {
        0
    }
}

/// What a byte is read as, if it ends one.
fn given(at: Escape, byte: u8) -> Option<u8>
    requires { InRange at }
    ensures { option_to_list result ≡ spec.gives at byte }
{
    match at {
        Escape::Outside if byte == b'\\' || byte == b'"' => None,
        Escape::Outside => Some(byte),
        Escape::Backslash if byte == b'\\' => Some(byte),
        Escape::Backslash => None,
        Escape::Digit(high) => Some(high * 16 + hex_value(byte)),
    }
}

/// Where the next byte stands.
fn after(at: Escape, byte: u8) -> Escape
    ensures next { result ≡ spec.after at byte }
    ensures small { InRange result }
{
    match at {
        Escape::Outside if byte == b'\\' => Escape::Backslash,
        Escape::Backslash if byte != b'\\' => Escape::Digit(hex_value(byte)),
        _ => Escape::Outside,
    }
}

/// The bytes that these stand for between quotes. Quotes themselves fall away.
pub fn opened(alloc: Global, bytes: &[u8]) -> Result<Vec<u8>, AllocError>
    ensures { IfOk result (λ v. v.items ≡ spec.opened Escape.Outside bytes.now) }
{
    let mut text = Vec::with_capacity(alloc, bytes.len())?;
    let mut at = Escape::Outside;
    for byte in bytes {
        if let Some(read) = given(at, *byte) {
            text.push(read)?;
        }
        at = after(at, *byte);
    }
    Ok(text)
}
