//! How long what stands at the front of a text is.

ghost use Rattle.std.specs.Prelude.{◌≡◌, ◌≤◌, ◌<◌, ◌^◌, length, IfSome, IfNone};
ghost use Rattle.std.specs.List.{prefix_len};
ghost use Rattle.text_lexer.specs.Bytes.{is_name_byte, is_digit};
ghost use Rattle.text_lexer.specs.Token.{IsLongest, HasNone};
ghost use Rattle.text_lexer.specs.Scan.{blank_len, close_len, any_name_len, is_label, plain_token_at, token_at, behind};

use crate::bytes::{is_digit, is_mark, is_name_byte, is_word_start};
use crate::token::Kind;

pub fn blank_len(text: &[u8]) -> usize
    ensures value { result ≡ blank_len text.now }
    ensures bound { result ≤ length text.now }
{
    let mut in_comment = false;
    for (i, b) in text.iter().enumerate() {
        if in_comment {
            in_comment = *b != b'\n';
        } else if *b == b';' {
            in_comment = true;
        } else if !(*b == b' ' || *b == b'\t' || *b == b'\r' || *b == b'\n') {
            return i;
        }
    }
    text.len()
}

pub fn name_len(text: &[u8]) -> usize
    ensures value { result ≡ prefix_len is_name_byte text.now }
    ensures bound { result ≤ length text.now }
{
    for (i, b) in text.iter().enumerate() {
        if !is_name_byte(*b) {
            return i;
        }
    }
    text.len()
}

pub fn digits_len(text: &[u8]) -> usize
    ensures value { result ≡ prefix_len is_digit text.now }
    ensures bound { result ≤ length text.now }
{
    for (i, b) in text.iter().enumerate() {
        if !is_digit(*b) {
            return i;
        }
    }
    text.len()
}

/// How many bytes follow an opening quote, the closing one with them, or 0 where none closes.
pub fn close_len(text: &[u8]) -> usize
    ensures value { result ≡ close_len text.now }
    ensures bound { result ≤ length text.now }
{
    for (i, b) in text.iter().enumerate() {
        if *b == b'"' {
            return i + 1;
        }
    }
    0
}

/// The length of a plain or quoted name, or 0 where none begins.
pub fn any_name_len(text: &[u8]) -> usize
    ensures value { result ≡ any_name_len text.now }
    ensures bound { result ≤ length text.now }
{
    match text {
        [b'"', rest @ ..] => match close_len(rest) {
            0 => 0,
            n => n + 1,
        },
        _ => name_len(text),
    }
}

fn is_label(text: &[u8]) -> bool
    ensures { result ≡ is_label text.now }
{
    let n = any_name_len(text);
    0 < n && n < text.len() && text[n] == b':'
}

fn behind(kind: Kind, n: usize) -> Option<(Kind, usize)>
    requires { n < 2 ^ 63 }
    ensures { result ≡ behind kind n }
{
    if n == 0 { None } else { Some((kind, n + 1)) }
}

fn plain_token_at(text: &[u8]) -> Option<(Kind, usize)>
    ensures { result ≡ plain_token_at text.now }
{
    let [first, rest @ ..] = text else {
        return None;
    };
    let b = *first;
    if is_word_start(b) {
        Some((Kind::Word, name_len(text)))
    } else if is_digit(b) {
        Some((Kind::Int, digits_len(text)))
    } else if b == b'-' {
        behind(Kind::Int, digits_len(rest))
    } else if b == b'"' {
        behind(Kind::String, close_len(rest))
    } else if b == b'%' {
        behind(Kind::Local, any_name_len(rest))
    } else if b == b'@' {
        behind(Kind::Global, any_name_len(rest))
    } else if b == b'#' {
        behind(Kind::Group, digits_len(rest))
    } else if b == b'!' {
        Some((Kind::Meta, name_len(rest) + 1))
    } else if is_mark(b) {
        Some((Kind::Mark, 1))
    } else {
        None
    }
}

/// The kind and the length of the token at the front of the text.
#[tactic(auto, using(crate::proofs::Tokens::longest_token, crate::proofs::Tokens::no_token))]
pub fn token_at(text: &[u8]) -> Option<(Kind, usize)>
    ensures value { result ≡ token_at text.now }
    ensures longest { IfSome result (λ found. IsLongest text.now found.0 found.1) }
    ensures none { IfNone result (HasNone text.now) }
{
    front_token(text)
}

fn front_token(text: &[u8]) -> Option<(Kind, usize)>
    ensures { result ≡ token_at text.now }
{
    if is_label(text) {
        Some((Kind::Label, any_name_len(text) + 1))
    } else {
        plain_token_at(text)
    }
}
