//! Attributes and balanced texts, which are passed over.

ghost use Rattle.std.specs.Prelude.{◌≡◌, [], ◌∷◌, Some};
ghost use Rattle.text_reader.specs.Reading.{Gives};
ghost use Rattle.text_reader.specs.Attrs.{bracket_of, behind_close, behind_round, behind_integer, behind_equals, attr_at, attrs_at, behind_attrs};

use crate::fault::ReadError;
use crate::groups::Groups;
use std::alloc::Global;
use text_symbols::{Mark, Sym, Word};

/// What a symbol does to the brackets that are open. A bracket that opens is named by the one that closes it.
#[derive(Clone, Copy, Debug, PartialEq, Eq, Drop)]
pub enum Bracket {
    No,
    Opens(Mark),
    Closes(Mark),
}

fn bracket_of(symbol: &Sym) -> Bracket
    ensures { result ≡ bracket_of symbol.now }
{
    match symbol {
        Sym::Mark(Mark::OpenRound) => Bracket::Opens(Mark::CloseRound),
        Sym::Mark(Mark::OpenSquare) => Bracket::Opens(Mark::CloseSquare),
        Sym::Mark(Mark::OpenCurly) => Bracket::Opens(Mark::CloseCurly),
        Sym::Mark(Mark::CloseRound) => Bracket::Closes(Mark::CloseRound),
        Sym::Mark(Mark::CloseSquare) => Bracket::Closes(Mark::CloseSquare),
        Sym::Mark(Mark::CloseCurly) => Bracket::Closes(Mark::CloseCurly),
        _ => Bracket::No,
    }
}

/// The symbols behind a balanced text and the bracket that closes it.
#[tactic(auto, using(crate::proofs::BracketSteps::plain_turn, crate::proofs::BracketSteps::open_turn, crate::proofs::BracketSteps::other_turn, crate::proofs::BracketSteps::last_turn, crate::proofs::BracketSteps::close_turn))]
pub fn balanced_of(alloc: Global, symbols: &[Sym], close: Mark) -> Result<&[Sym], ReadError>
    ensures { Gives (λ x. x.now) result (behind_close symbols.now (close ∷ [])) }
{
    let mut innermost = close;
    let mut outer: Vec<Mark> = Vec::new(alloc);
    let mut rest = symbols;
    while let [symbol, after @ ..] = rest {
        match bracket_of(symbol) {
            Bracket::No => {}
            Bracket::Opens(mark) => {
                outer.push(innermost)?;
                innermost = mark;
            }
            Bracket::Closes(mark) => {
                if mark.number() != innermost.number() {
                    return Err(ReadError::Syntax);
                }
                match outer.pop() {
                    None => return Ok(after),
                    Some(next) => innermost = next,
                }
            }
        }
        rest = after;
    }
    Err(ReadError::Syntax)
}

/// The symbols behind a balanced text in round brackets, where one stands there.
fn round_of(alloc: Global, symbols: &[Sym]) -> Result<&[Sym], ReadError>
    ensures { Gives (λ x. x.now) result (Some (behind_round symbols.now)) }
{
    match symbols {
        [Sym::Mark(Mark::OpenRound), inside @ ..] => {
            match balanced_of(alloc, inside, Mark::CloseRound) {
                Ok(rest) => Ok(rest),
                Err(ReadError::Syntax) => Ok(symbols),
                Err(ReadError::Memory) => Err(ReadError::Memory),
            }
        }
        _ => Ok(symbols),
    }
}

fn integer_of(symbols: &[Sym]) -> Result<(bool, &[Sym]), ReadError>
    ensures { Gives (λ x. (x.0, x.1.now)) result (behind_integer symbols.now) }
{
    match symbols {
        [Sym::Int(_), rest @ ..] => Ok((false, rest)),
        [Sym::Negative(_), rest @ ..] => Ok((false, rest)),
        _ => Err(ReadError::Syntax),
    }
}

fn equals_of(symbols: &[Sym]) -> &[Sym]
    ensures { result.now ≡ behind_equals symbols.now }
{
    match symbols {
        [Sym::Mark(Mark::Equals), rest @ ..] => rest,
        _ => symbols,
    }
}

/// Whether an attribute makes a coroutine, and the symbols behind it.
#[tactic(auto, unfolding(crate::specs::Attrs::attr_at))]
fn attr_of<'a>(
    alloc: Global,
    groups: &Groups,
    symbols: &'a [Sym],
) -> Result<(bool, &'a [Sym]), ReadError>
    ensures { Gives (λ x. (x.0, x.1.now)) result (attr_at groups.now symbols.entry.now) }
{
    match symbols {
        [Sym::Word(Word::Attr), rest @ ..] => Ok((false, round_of(alloc, rest)?)),
        [Sym::Word(Word::Comdat), rest @ ..] => Ok((false, round_of(alloc, rest)?)),
        [Sym::Word(Word::Align), rest @ ..] => integer_of(equals_of(rest)),
        [Sym::Word(Word::Presplitcoroutine), rest @ ..] => Ok((true, rest)),
        [Sym::Group(number), rest @ ..] => Ok((groups.contains(number), rest)),
        [Sym::Str, Sym::Mark(Mark::Equals), Sym::Str, rest @ ..] => Ok((false, rest)),
        [Sym::Str, rest @ ..] => Ok((false, rest)),
        _ => Err(ReadError::Syntax),
    }
}

/// Whether one of the attributes makes a coroutine, where the groups hold those that do, and the symbols behind them all.
#[tactic(auto, using(crate::proofs::AttrSteps::attrs_turn_found, crate::proofs::AttrSteps::attrs_turn_first, crate::proofs::AttrSteps::attrs_end, crate::proofs::AttrSteps::attrs_stuck))]
pub fn attrs_of<'a>(
    alloc: Global,
    groups: &Groups,
    symbols: &'a [Sym],
) -> Result<(bool, &'a [Sym]), ReadError>
    ensures { Gives (λ x. (x.0, x.1.now)) result (Some (attrs_at groups.now symbols.entry.now)) }
{
    let mut coroutine = false;
    let mut rest = symbols;
    loop {
        match attr_of(alloc, groups, rest) {
            Ok((marks, after)) => {
                if after.len() >= rest.len() {
                    return Ok((coroutine, rest));
                }
                coroutine = coroutine || marks;
                rest = after;
            }
            Err(ReadError::Syntax) => return Ok((coroutine, rest)),
            Err(ReadError::Memory) => return Err(ReadError::Memory),
        }
    }
}

/// The symbols behind attributes that aren't kept.
pub fn behind_attrs(alloc: Global, symbols: &[Sym]) -> Result<&[Sym], ReadError>
    ensures { Gives (λ x. x.now) result (Some (behind_attrs symbols.now)) }
{
    let none = Groups::new(alloc);
    let (_, rest) = attrs_of(alloc, &none, symbols)?;
    Ok(rest)
}
