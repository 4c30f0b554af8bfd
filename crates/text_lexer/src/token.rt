//! Tokens.

ghost use Rattle.std.specs.Prelude.{◌≡◌, ◌≤◌, ◌↔◌, length};
ghost use Rattle.text_lexer.specs.Next.{IfTok, IfBadByte, IsTokenAfter, IsBlankFrom, IsNoToken};
ghost use Rattle.text_lexer.specs.Tokens.{IsFirst, bytes_of};

use crate::scan::{blank_len, token_at};

/// What a token is, by the forms of LLVM's assembly language.
#[derive(Clone, Copy, Debug, PartialEq, Eq, Drop)]
pub enum Kind {
    /// A name, plain or quoted, and a colon.
    Label,
    /// A letter, `$`, `.` or `_`, then bytes of a name.
    Word,
    /// An optional minus, then digits.
    Int,
    /// Bytes between two quotes.
    String,
    /// `%` and a name, plain or quoted.
    Local,
    /// `@` and a name, plain or quoted.
    Global,
    /// `#` and digits.
    Group,
    /// `!`, then bytes of a name or none.
    Meta,
    /// One of `= , ( ) [ ] { } : | *`.
    Mark,
}

/// The bytes from `start` to before `end` of the text.
#[derive(Clone, Copy, Debug, PartialEq, Eq, Drop)]
pub struct Span {
    pub start: usize,
    pub end: usize,
}

/// A token of a text.
#[derive(Clone, Copy, Debug, PartialEq, Eq, Drop)]
pub struct Token {
    pub kind: Kind,
    pub span: Span,
}

impl Token {
    /// The token's bytes, out of the text in which it stands.
    pub fn bytes<'a>(&self, text: &'a [u8]) -> &'a [u8]
        requires order { self.now.span.start ≤ self.now.span.end }
        requires within { self.now.span.end ≤ length text.now }
        ensures { result.now ≡ bytes_of text.entry.now self.now }
    {
        let (front, _) = text.split_at(self.span.end);
        let (_, bytes) = front.split_at(self.span.start);
        bytes
    }
}

/// What follows in a text.
#[derive(Clone, Copy, Debug, PartialEq, Eq, Drop)]
pub enum Next {
    /// The longest token behind the blanks and comments.
    Tok(Token),
    /// Blanks and comments alone are left.
    End,
    /// No token begins at this byte, the first that is neither blank nor of a comment.
    BadByte(usize),
}

/// The token behind the blanks and comments that stand at a place of the text. It takes no memory.
pub fn next_token(text: &[u8], at: usize) -> Next
    requires { at ≤ length text.now }
    ensures token { IfTok result (λ t. IsTokenAfter text.now at t.kind t.span.start t.span.end) }
    ensures end { (result ≡ Next.End) ↔ IsBlankFrom text.now at }
    ensures bad_byte { IfBadByte result (λ place. IsNoToken text.now at place) }

    // The same as a function: what follows is the first token of the text from the place on.
    ensures first { IsFirst text.now at result }
{
    let (_, rest) = text.split_at(at);
    let start = at + blank_len(rest);
    if start == text.len() {
        return Next::End;
    }
    let (_, rest) = text.split_at(start);
    match token_at(rest) {
        Some((kind, len)) => Next::Tok(Token {
            kind,
            span: Span {
                start,
                end: start + len,
            },
        }),
        None => Next::BadByte(start),
    }
}
