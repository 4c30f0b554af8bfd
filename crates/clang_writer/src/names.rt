//! Numbers become texts, since LLVM wants numbers in order (LLVM Language Reference, "Identifiers").

ghost use Rattle.std.specs.Prelude.{◌≡◌, ◌++◌, ◌∷◌, [], IfOk, OnOk, drop};
ghost use Rattle.clang_writer.specs.Dressed as spec;

use clang_tokens::{are_digits as all_digits, is_digit, push_word};
use ir_base::{Items, Text};
use std::alloc::{AllocError, Global};

fn are_digits(bytes: &[u8]) -> bool
    ensures { result ≡ spec.are_digits bytes.now }
{
    !bytes.is_empty() && all_digits(bytes)
}

/// Digits, and a colon behind them.
fn is_number_label(token: &[u8]) -> bool
    ensures { result ≡ spec.is_number_label token.now }
{
    match token {
        [] => false,
        [first, rest @ ..] => is_digit(*first) && tail_is_label(rest),
    }
}

fn tail_is_label(bytes: &[u8]) -> bool
    ensures { result ≡ spec.tail_is_label bytes.now }
{
    let mut rest = bytes;
    while let [byte, more @ ..] = rest {
        if *byte == b':' {
            return more.is_empty();
        }
        if !is_digit(*byte) {
            return false;
        }
        rest = more;
    }
    false
}

fn is_number(token: &[u8]) -> bool
    ensures { result ≡ spec.is_number token.now }
{
    match token {
        [] => false,
        [first, rest @ ..] => *first == b'%' && are_digits(rest),
    }
}

fn push_joined(
    alloc: Global,
    front: &[u8],
    back: &[u8],
    out: &mut Items<Text>,
) -> Result<(), AllocError>
    ensures { OnOk result (out.new ≡ out.old ++ (front.now ++ back.now) ∷ []) }
{
    let mut bytes = Vec::new(alloc);
    bytes.extend_from_slice(front)?;
    bytes.extend_from_slice(back)?;
    push_word(alloc, out, &bytes)
}

fn push_renamed(alloc: Global, token: &[u8], out: &mut Items<Text>) -> Result<(), AllocError>
    ensures { OnOk result (out.new ≡ out.old ++ spec.renamed token.now ∷ []) }
{
    if is_number(token) {
        let (_, digits) = token.split_at(1.min(token.len()));
        push_joined(alloc, b"%$c.n.", digits, out)
    } else if is_number_label(token) {
        push_joined(alloc, b"$c.n.", token, out)
    } else {
        push_word(alloc, out, token)
    }
}

/// The tokens, a text for each number (LLVM Language Reference, "Identifiers").
pub fn all_renamed(alloc: Global, tokens: &[Text]) -> Result<Items<Text>, AllocError>
    ensures { IfOk result (λ r. r ≡ spec.all_renamed tokens.now) }
{
    let mut out = Items::new(alloc);
    for token in tokens {
        push_renamed(alloc, token.as_bytes(), &mut out)?;
    }
    Ok(out)
}
