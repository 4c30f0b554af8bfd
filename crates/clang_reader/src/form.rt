//! The lines of clang that the subset lacks.

ghost use Rattle.std.specs.Prelude.{◌≡◌, ◌≤◌};
ghost use Rattle.clang_reader.specs.Forms as spec;

use clang_tokens::{are_digits, at, begins, is_at};
use ir_base::Text;

/// What a line is.
#[derive(Clone, Copy, Debug, PartialEq, Eq)]
pub enum Form {
    /// `%b = bitcast ptr V to ptr`.
    Bitcast,
    /// The await of an awaiter that answers nothing.
    Void,
    /// The await of an awaiter that answers yes or no.
    Bool,
    /// The await of an awaiter that answers a handle.
    Handle,
    /// A `memset` of few bytes.
    Memset,
    /// What does nothing.
    Idle,
    /// Any other line.
    Other,
}

fn ends(i: usize, tokens: &[Text]) -> bool
    ensures { result ≡ spec.ends i tokens.now }
{
    is_at(tokens, i, b"") || is_at(tokens, i, b",")
}

/// Whether a line is a bitcast of a pointer to a pointer.
pub fn is_bitcast(tokens: &[Text]) -> bool
    ensures { result ≡ spec.is_bitcast tokens.now }
{
    begins(b"%", at(tokens, 0))
        && is_at(tokens, 1, b"=")
        && is_at(tokens, 2, b"bitcast")
        && is_at(tokens, 3, b"ptr")
        && is_at(tokens, 5, b"to")
        && is_at(tokens, 6, b"ptr")
        && ends(7, tokens)
}

fn is_await(name: &[u8], i: usize, tokens: &[Text]) -> bool
    requires { i ≤ 4 }
    ensures { result ≡ spec.is_await name.now i tokens.now }
{
    is_at(tokens, i, name)
        && is_at(tokens, i + 1, b"(")
        && is_at(tokens, i + 2, b"ptr")
        && is_at(tokens, i + 4, b",")
        && is_at(tokens, i + 5, b"ptr")
        && is_at(tokens, i + 7, b",")
        && is_at(tokens, i + 8, b"ptr")
        && is_at(tokens, i + 10, b")")
}

fn calls_void(tokens: &[Text]) -> bool
    ensures { result ≡ spec.calls_void tokens.now }
{
    is_at(tokens, 0, b"call") && is_at(tokens, 1, b"void")
}

fn is_void(tokens: &[Text]) -> bool
    ensures { result ≡ spec.is_void tokens.now }
{
    calls_void(tokens) && is_await(b"@llvm.coro.await.suspend.void", 2, tokens)
}

fn is_bool(tokens: &[Text]) -> bool
    ensures { result ≡ spec.is_bool tokens.now }
{
    is_at(tokens, 1, b"=")
        && is_at(tokens, 2, b"call")
        && is_at(tokens, 3, b"i1")
        && is_await(b"@llvm.coro.await.suspend.bool", 4, tokens)
}

fn is_handle(tokens: &[Text]) -> bool
    ensures { result ≡ spec.is_handle tokens.now }
{
    calls_void(tokens) && is_await(b"@llvm.coro.await.suspend.handle", 2, tokens)
}

/// Where the pointer of a `memset` stands.
pub fn memset_place(tokens: &[Text]) -> usize
    ensures value { result ≡ spec.memset_place tokens.now }
    ensures near { result ≤ 7 }
{
    if is_at(tokens, 5, b"align") { 7 } else { 5 }
}

/// The value of decimal digits, as far as it is at most 999.
#[tactic(auto, using(crate::proofs::Values::large_stays))]
pub fn value_of(digits: &[u8]) -> u64
    ensures { result ≡ spec.value_of 0 digits.now }
{
    let mut value: u64 = 0;
    for digit in digits {
        if 999 < value {
            return value;
        }
        value = value * 10 + u64::from(digit.saturating_sub(b'0'));
    }
    value
}

fn is_small(token: &[u8]) -> bool
    ensures { result ≡ spec.is_small token.now }
{
    !token.is_empty() && are_digits(token) && value_of(token) <= 256
}

fn sets_few(i: usize, tokens: &[Text]) -> bool
    requires { i ≤ 7 }
    ensures { result ≡ spec.sets_few i tokens.now }
{
    is_at(tokens, i + 1, b",")
        && is_at(tokens, i + 2, b"i8")
        && is_at(tokens, i + 4, b",")
        && is_at(tokens, i + 5, b"i64")
        && is_small(at(tokens, i + 6))
        && is_at(tokens, i + 7, b",")
        && is_at(tokens, i + 8, b"i1")
        && is_at(tokens, i + 9, b"false")
        && is_at(tokens, i + 10, b")")
}

fn is_memset(tokens: &[Text]) -> bool
    ensures { result ≡ spec.is_memset tokens.now }
{
    calls_void(tokens)
        && is_at(tokens, 2, b"@llvm.memset.p0.i64")
        && is_at(tokens, 3, b"(")
        && is_at(tokens, 4, b"ptr")
        && sets_few(memset_place(tokens), tokens)
}

fn is_idle(tokens: &[Text]) -> bool
    ensures { result ≡ spec.is_idle tokens.now }
{
    (calls_void(tokens) && is_at(tokens, 2, b"@llvm.assume"))
        || ((is_at(tokens, 0, b"call") || is_at(tokens, 0, b"declare"))
            && is_at(tokens, 1, b"void")
            && begins(b"@llvm.dbg.", at(tokens, 2)))
}

/// Which form a line has.
pub fn form_of(tokens: &[Text]) -> Form
    ensures { result ≡ spec.form_of tokens.now }
{
    if is_bitcast(tokens) {
        Form::Bitcast
    } else if is_void(tokens) {
        Form::Void
    } else if is_bool(tokens) {
        Form::Bool
    } else if is_handle(tokens) {
        Form::Handle
    } else if is_memset(tokens) {
        Form::Memset
    } else if is_idle(tokens) {
        Form::Idle
    } else {
        Form::Other
    }
}
