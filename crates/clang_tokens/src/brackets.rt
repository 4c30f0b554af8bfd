//! Brackets in a line, and the attribute `sret(..)` (LLVM Language Reference, "Parameter Attributes").

ghost use Rattle.std.specs.Prelude.{◌≡◌, ◌<◌, ◌^◌};
ghost use Rattle.clang_tokens.specs.Brackets as spec;

use crate::words::is;

/// Where a token stands beside `sret` and the bracketed type behind it (LLVM Language Reference, "Parameter Attributes").
#[derive(Clone, Copy, Debug, PartialEq, Eq)]
pub enum Sret {
    /// Elsewhere.
    Outside,
    /// Right behind the word.
    Word,
    /// In its brackets, in which so many others are open.
    Inside(u64),
}

/// Whether a token is an opening bracket: of parameters, array types or structure types (LLVM Language Reference, "Type
/// System").
pub fn opens(token: &[u8]) -> bool
    ensures { result ≡ spec.opens token.now }
{
    is(token, b"(") || is(token, b"[") || is(token, b"{")
}

/// Whether a token is a closing bracket (LLVM Language Reference, "Type System").
pub fn closes(token: &[u8]) -> bool
    ensures { result ≡ spec.closes token.now }
{
    is(token, b")") || is(token, b"]") || is(token, b"}")
}

/// How many brackets are open behind a token (LLVM Language Reference, "Type System").
pub fn depth_after(depth: u64, token: &[u8]) -> u64
    requires { depth < 2 ^ 63 }
    ensures { result ≡ spec.depth_after depth token.now }
{
    if opens(token) {
        depth + 1
    } else if closes(token) {
        depth.saturating_sub(1)
    } else {
        depth
    }
}

/// Where the token behind stands beside `sret(..)` (LLVM Language Reference, "Parameter Attributes").
pub fn sret_after(at: Sret, token: &[u8]) -> Sret
    requires { spec.Bounded at (2 ^ 63) }
    ensures { result ≡ spec.sret_after at token.now }
{
    match at {
        Sret::Outside if is(token, b"sret") => Sret::Word,
        Sret::Outside => Sret::Outside,
        Sret::Word if is(token, b"(") => Sret::Inside(0),
        Sret::Word if is(token, b"sret") => Sret::Word,
        Sret::Word => Sret::Outside,
        Sret::Inside(depth) if closes(token) && depth == 0 => Sret::Outside,
        Sret::Inside(depth) => Sret::Inside(depth_after(depth, token)),
    }
}

/// Whether a token is one of `sret` and the bracketed type behind it (LLVM Language Reference, "Parameter Attributes").
pub fn of_sret(at: Sret, token: &[u8]) -> bool
    ensures { result ≡ spec.of_sret at token.now }
{
    match at {
        Sret::Outside => is(token, b"sret"),
        Sret::Word => is(token, b"(") || is(token, b"sret"),
        Sret::Inside(_) => true,
    }
}
