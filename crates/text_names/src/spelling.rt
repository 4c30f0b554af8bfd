//! How a name is written.

ghost use Rattle.std.specs.Prelude.{◌≡◌, ◌<◌, ◌++◌, ◌∷◌, [], OnOk, IfOk, decimal};
ghost use Rattle.std.specs.List.{list_all};
ghost use Rattle.text_names.specs.Spelling as spec;

use ir_base::Name;
use itoa::Buffer;
use std::alloc::AllocError;

fn is_start(byte: u8) -> bool
    ensures { result ≡ spec.is_start byte }
{
    byte.is_ascii_alphabetic() || byte == b'$' || byte == b'.' || byte == b'_' || byte == b'-'
}

/// Whether a byte is a digit.
pub fn is_digit(byte: u8) -> bool
    ensures { result ≡ spec.is_digit byte }
{
    byte.is_ascii_digit()
}

fn is_plain(byte: u8) -> bool
    ensures { result ≡ spec.is_plain byte }
{
    is_start(byte) || is_digit(byte)
}

fn are_plain(bytes: &[u8]) -> bool
    ensures { result ≡ list_all spec.is_plain bytes.now }
{
    bytes.iter().all(|byte| is_plain(*byte))
}

fn is_bare(text: &[u8]) -> bool
    ensures { result ≡ spec.is_bare text.now }
{
    match text {
        [] => false,
        [first, rest @ ..] => is_start(*first) && are_plain(rest),
    }
}

/// Whether the first byte is a digit.
pub fn begins_with_digit(bytes: &[u8]) -> bool
    ensures { result ≡ spec.begins_with_digit bytes.now }
{
    match bytes {
        [] => false,
        [first, ..] => is_digit(*first),
    }
}

fn hex_digit(digit: u8) -> u8
    requires { digit < 16 }
    ensures { result ≡ spec.hex_digit digit }
{
    if digit < 10 { b'0' + digit } else { 55 + digit }
}

/// Writes a byte that stands between quotes.
fn push_escaped(byte: u8, out: &mut Vec<u8>) -> Result<(), AllocError>
    ensures { OnOk result (out.new.items ≡ out.old.items ++ spec.escaped byte) }
{
    if byte == b'\\' {
        out.extend_from_slice(b"\\\\")
    } else if byte == b'"' || byte < 32 || 126 < byte {
        out.extend_from_slice(&[b'\\', hex_digit(byte / 16), hex_digit(byte % 16)])
    } else {
        out.extend_from_slice(&[byte])
    }
}

fn push_inside(text: &[u8], out: &mut Vec<u8>) -> Result<(), AllocError>
    ensures { OnOk result (out.new.items ≡ out.old.items ++ spec.inside text.now) }
{
    for byte in text {
        push_escaped(*byte, out)?;
    }
    Ok(())
}

fn push_text(text: &[u8], out: &mut Vec<u8>) -> Result<(), AllocError>
    ensures { OnOk result (out.new.items ≡ out.old.items ++ spec.text_spelling text.now) }
{
    if is_bare(text) {
        return out.extend_from_slice(text);
    }
    out.push(b'"')?;
    push_inside(text, out)?;
    out.push(b'"')?;
    Ok(())
}

/// Writes the canonical spelling of a name behind the other bytes. Where memory is wanting, a part of it may have been written.
pub fn print_name(name: &Name, out: &mut Vec<u8>) -> Result<(), AllocError>
    ensures { OnOk result (out.new.items ≡ out.old.items ++ spec.spelling name.now) }
{
    match name {
        Name::Number(number) => {
            let mut buffer = Buffer::new();
            out.extend_from_slice(buffer.format(*number).as_bytes())
        }
        Name::Text(text) => push_text(text.as_bytes(), out),
    }
}
