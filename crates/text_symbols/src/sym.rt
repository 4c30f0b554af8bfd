//! What a token says.

ghost use Rattle.std.specs.Prelude.{◌≡◌, IfOk};
ghost use Rattle.text_symbols.specs.Names.{name_of, inside};
ghost use Rattle.text_symbols.specs.Numbers.{without_zeros};
ghost use Rattle.text_symbols.specs.Sym.{mark_of, mark_number, integer_of, sym_of, behind_first};

use crate::ident::Ident;
use crate::names::name_of;
use crate::numbers::{value_of, without_zeros};
use crate::word::{Word, word_of};
use ir_base::Items;
use std::alloc::{AllocError, Global};
use text_lexer::Kind;

/// A mark of punctuation.
#[derive(Clone, Copy, Debug, PartialEq, Eq, Drop)]
pub enum Mark {
    Equals,
    Comma,
    OpenRound,
    CloseRound,
    OpenSquare,
    CloseSquare,
    OpenCurly,
    CloseCurly,
    Colon,
    Bar,
    Star,
}

/// What a token says.
#[derive(Drop)]
pub enum Sym {
    Label(Ident),
    Word(Word),
    /// An integer without a minus.
    Int(u64),
    /// An integer with a minus, by its absolute value: `-0` isn't `0`.
    Negative(u64),
    /// An integer whose absolute value is 2^64 or more.
    LongInt,
    Str,
    Local(Ident),
    Global(Ident),
    /// A group by the digits of its number, without leading zeros.
    Group(Items<u8>),
    Meta,
    Mark(Mark),
}

impl Mark {
    pub fn number(self) -> u8
        ensures { result ≡ mark_number self }
    {
        self as u8
    }
}

fn mark_of(bytes: &[u8]) -> Mark
    ensures { result ≡ mark_of bytes.now }
{
    match bytes {
        [b'=', ..] => Mark::Equals,
        [b',', ..] => Mark::Comma,
        [b'(', ..] => Mark::OpenRound,
        [b')', ..] => Mark::CloseRound,
        [b'[', ..] => Mark::OpenSquare,
        [b']', ..] => Mark::CloseSquare,
        [b'{', ..] => Mark::OpenCurly,
        [b'}', ..] => Mark::CloseCurly,
        [b':', ..] => Mark::Colon,
        [b'|', ..] => Mark::Bar,
        _ => Mark::Star,
    }
}

fn integer_of(bytes: &[u8]) -> Sym
    ensures { result ≡ integer_of bytes.now }
{
    match bytes {
        [b'-', digits @ ..] => match value_of(digits) {
            None => Sym::LongInt,
            Some(n) => Sym::Negative(n),
        },
        _ => match value_of(bytes) {
            None => Sym::LongInt,
            Some(n) => Sym::Int(n),
        },
    }
}

fn behind_first(bytes: &[u8]) -> &[u8]
    ensures { result.now ≡ behind_first bytes.now }
{
    match bytes {
        [] => bytes,
        [_, rest @ ..] => rest,
    }
}

fn before_last(bytes: &[u8]) -> &[u8]
    ensures { result.now ≡ inside bytes.now }
{
    match bytes {
        [] => bytes,
        [front @ .., _] => front,
    }
}

fn ident_of(alloc: Global, bytes: &[u8]) -> Result<Ident, AllocError>
    ensures { IfOk result (λ i. i ≡ name_of bytes.now) }
{
    let name = name_of(alloc, bytes)?;
    Ident::new(alloc, name)
}

fn group_of(alloc: Global, digits: &[u8]) -> Result<Items<u8>, AllocError>
    ensures { IfOk result (λ g. g ≡ without_zeros digits.now) }
{
    Ok(Items::from_vec(without_zeros(digits).to_vec(alloc)?))
}

/// What a token of the kind says by its bytes.
#[tactic(auto, unfolding(crate::specs::Sym::sym_of))]
pub fn sym_of(alloc: Global, kind: Kind, bytes: &[u8]) -> Result<Sym, AllocError>
    ensures { IfOk result (λ s. s ≡ sym_of (kind, bytes.now)) }
{
    match kind {
        Kind::Label => Ok(Sym::Label(ident_of(alloc, before_last(bytes))?)),
        Kind::Word => Ok(Sym::Word(word_of(bytes))),
        Kind::Int => Ok(integer_of(bytes)),
        Kind::String => Ok(Sym::Str),
        Kind::Local => Ok(Sym::Local(ident_of(alloc, behind_first(bytes))?)),
        Kind::Global => Ok(Sym::Global(ident_of(alloc, behind_first(bytes))?)),
        Kind::Group => Ok(Sym::Group(group_of(alloc, behind_first(bytes))?)),
        Kind::Meta => Ok(Sym::Meta),
        Kind::Mark => Ok(Sym::Mark(mark_of(bytes))),
    }
}
