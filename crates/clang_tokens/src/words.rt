//! What single tokens are (LLVM Language Reference, "Identifiers").

ghost use Rattle.std.specs.Prelude.{◌≡◌, ◌++◌, ◌∷◌, [], IfOk, OnOk, drop, take};
ghost use Rattle.std.specs.List.{list_all};
ghost use Rattle.text_lexer.specs.Bytes.{is_digit};
ghost use Rattle.clang_tokens.specs.Words as spec;

use ir_base::{Data, Items, Text};
use std::alloc::{AllocError, Global};

/// The token at a position, and no byte where there is none.
pub fn at(tokens: &[Text], i: usize) -> &[u8]
    ensures { result.now ≡ spec.at i tokens.now }
{
    match tokens.get(i) {
        Some(token) => token.as_bytes(),
        None => b"",
    }
}

/// Whether these are the same bytes.
pub fn is(bytes: &[u8], word: &[u8]) -> bool
    ensures { result ≡ spec.same bytes.now word.now }
{
    bytes == word
}

/// Whether the token at a position is this one.
pub fn is_at(tokens: &[Text], i: usize, word: &[u8]) -> bool
    ensures { result ≡ spec.is_at i tokens.now word.now }
{
    is(at(tokens, i), word)
}

/// Whether bytes begin with a head.
pub fn begins(head: &[u8], bytes: &[u8]) -> bool
    ensures { result ≡ spec.begins head.now bytes.now }
{
    let mut wanted = head;
    let mut given = bytes;
    loop {
        match wanted {
            [] => return true,
            [x, more_wanted @ ..] => match given {
                [] => return false,
                [y, more_given @ ..] => {
                    if *x != *y {
                        return false;
                    }
                    wanted = more_wanted;
                    given = more_given;
                }
            },
        }
    }
}

/// Whether a word of this spelling stands in a line.
pub fn has(word: &[u8], tokens: &[Text]) -> bool
    ensures { result ≡ spec.has word.now tokens.now }
{
    for token in tokens {
        if token.as_bytes() == word {
            return true;
        }
    }
    false
}

/// Whether a byte is a decimal digit.
pub fn is_digit(byte: u8) -> bool
    ensures { result ≡ is_digit byte }
{
    b'0' <= byte && byte <= b'9'
}

/// Whether all bytes are digits.
pub fn are_digits(bytes: &[u8]) -> bool
    ensures { result ≡ list_all is_digit bytes.now }
{
    bytes.iter().all(|byte| is_digit(*byte))
}

/// The tokens from a position on.
pub fn tokens_from(tokens: &[Text], from: usize) -> &[Text]
    ensures { result.now ≡ drop from tokens.now }
{
    let (_, rest) = tokens.split_at(from.min(tokens.len()));
    rest
}

/// The tokens before a position.
pub fn tokens_to(tokens: &[Text], to: usize) -> &[Text]
    ensures { result.now ≡ take to tokens.now }
{
    let (front, _) = tokens.split_at(to.min(tokens.len()));
    front
}

/// Puts a word behind tokens.
pub fn push_word(alloc: Global, tokens: &mut Items<Text>, word: &[u8]) -> Result<(), AllocError>
    ensures { OnOk result (tokens.new ≡ tokens.old ++ word.now ∷ []) }
{
    tokens.push(Text::from_bytes(alloc, word)?)?;
    Ok(())
}

/// Puts copies of tokens behind others.
pub fn copied(alloc: Global, more: &[Text], tokens: &mut Items<Text>) -> Result<(), AllocError>
    ensures { OnOk result (tokens.new ≡ tokens.old ++ more.now) }
{
    for token in more {
        push_word(alloc, tokens, token.as_bytes())?;
    }
    Ok(())
}
