//! Readers of values, labels and alignments.

ghost use Rattle.std.specs.Prelude.{◌≡◌};
ghost use Rattle.text_reader.specs.Reading.{Gives};
ghost use Rattle.text_reader.specs.Values.{named_at, word_value, constant_at, value_at, typed_at, arg_at, local_at, global_at, target_at, align_at};

use crate::attrs::behind_attrs;
use crate::fault::ReadError;
use crate::locals::Locals;
use crate::types::type_of;
use ir_base::{Data, Name, ValueId};
use ir_model::{Arg, Operand};
use std::alloc::Global;
use text_symbols::{Ident, Mark, Sym, Word};

/// A value of one word.
fn word_value(word: Word) -> Option<Operand>
    ensures { result ≡ word_value word }
{
    match word {
        Word::True => Some(Operand::True),
        Word::False => Some(Operand::False),
        Word::Null => Some(Operand::Null),
        Word::None => Some(Operand::None),
        Word::Poison => Some(Operand::Poison),
        _ => None,
    }
}

/// The name in a symbol.
pub fn name_of(alloc: Global, ident: &Ident) -> Result<Name, ReadError>
    ensures { Gives (λ x. x) result ident.now }
{
    match ident.name() {
        Some(name) => Ok(name.copied(alloc)?),
        None => Err(ReadError::Syntax),
    }
}

/// The position of the name that is written, which is added where it is new.
pub fn place_of(alloc: Global, names: &mut Locals, ident: &Ident) -> Result<ValueId, ReadError>
    ensures { Gives (λ x. (x, names.new)) result (named_at names.old ident.now) }
{
    let name = name_of(alloc, ident)?;
    Ok(names.place(name)?)
}

/// A local's position among the names, and the symbols behind it.
pub fn local_of<'a>(
    alloc: Global,
    names: &mut Locals,
    symbols: &'a [Sym],
) -> Result<(ValueId, &'a [Sym]), ReadError>
    ensures { Gives (λ x. (x.0, names.new, x.1.now)) result (local_at names.old symbols.entry.now) }
{
    match symbols {
        [Sym::Local(ident), rest @ ..] => Ok((place_of(alloc, names, ident)?, rest)),
        _ => Err(ReadError::Syntax),
    }
}

/// The name of a global or a function, and the symbols behind it.
pub fn global_of(alloc: Global, symbols: &[Sym]) -> Result<(Name, &[Sym]), ReadError>
    ensures { Gives (λ x. (x.0, x.1.now)) result (global_at symbols.now) }
{
    match symbols {
        [Sym::Global(ident), rest @ ..] => Ok((name_of(alloc, ident)?, rest)),
        _ => Err(ReadError::Syntax),
    }
}

/// A value that holds no local, and the symbols behind it.
pub fn constant_of(alloc: Global, symbols: &[Sym]) -> Result<(Operand, &[Sym]), ReadError>
    ensures { Gives (λ x. (x.0, x.1.now)) result (constant_at symbols.now) }
{
    match symbols {
        [Sym::Global(ident), rest @ ..] => Ok((Operand::Global(name_of(alloc, ident)?), rest)),
        [Sym::Int(n), rest @ ..] => Ok((Operand::Number(i128::from(*n)), rest)),
        [Sym::Negative(n), rest @ ..] => Ok((Operand::Number(-i128::from(*n)), rest)),
        [Sym::Word(word), rest @ ..] => match word_value(*word) {
            Some(value) => Ok((value, rest)),
            None => Err(ReadError::Syntax),
        },
        _ => Err(ReadError::Syntax),
    }
}

/// A value, and the symbols behind it.
#[tactic(auto, unfolding(crate::specs::Values::value_at))]
pub fn value_of<'a>(
    alloc: Global,
    names: &mut Locals,
    symbols: &'a [Sym],
) -> Result<(Operand, &'a [Sym]), ReadError>
    ensures { Gives (λ x. (x.0, names.new, x.1.now)) result (value_at names.old symbols.entry.now) }
{
    match symbols {
        [Sym::Local(ident), rest @ ..] => {
            let id = place_of(alloc, names, ident)?;
            Ok((Operand::Local(id), rest))
        }
        _ => constant_of(alloc, symbols),
    }
}

/// A type and a value, and the symbols behind them.
#[tactic(auto, unfolding(crate::specs::Values::typed_at))]
pub fn typed_of<'a>(
    alloc: Global,
    names: &mut Locals,
    symbols: &'a [Sym],
) -> Result<(Arg, &'a [Sym]), ReadError>
    ensures { Gives (λ x. (x.0, names.new, x.1.now)) result (typed_at names.old symbols.entry.now) }
{
    let (ty, rest) = type_of(alloc, symbols)?;
    let (value, rest) = value_of(alloc, names, rest)?;
    Ok((Arg { ty, value }, rest))
}

/// An argument of a call, and the symbols behind it.
#[tactic(auto, unfolding(crate::specs::Values::arg_at))]
pub fn arg_of<'a>(
    alloc: Global,
    names: &mut Locals,
    symbols: &'a [Sym],
) -> Result<(Arg, &'a [Sym]), ReadError>
    ensures { Gives (λ x. (x.0, names.new, x.1.now)) result (arg_at names.old symbols.entry.now) }
{
    let (ty, rest) = type_of(alloc, symbols)?;
    let rest = behind_attrs(alloc, rest)?;
    let (value, rest) = value_of(alloc, names, rest)?;
    Ok((Arg { ty, value }, rest))
}

/// The position of the label that is branched to, and the symbols behind it.
pub fn target_of<'a>(
    alloc: Global,
    names: &mut Locals,
    symbols: &'a [Sym],
) -> Result<(ValueId, &'a [Sym]), ReadError>
    ensures { Gives (λ x. (x.0, names.new, x.1.now)) result (target_at names.old symbols.entry.now) }
{
    match symbols {
        [Sym::Word(Word::Label), rest @ ..] => local_of(alloc, names, rest),
        _ => Err(ReadError::Syntax),
    }
}

/// The alignment that is written there, and the symbols behind it. A negative one, which no rule allows, counts as 0.
pub fn align_of(symbols: &[Sym]) -> (Option<u64>, &[Sym])
    ensures { (result.0, result.1.now) ≡ align_at symbols.now }
{
    match symbols {
        [
            Sym::Mark(Mark::Comma),
            Sym::Word(Word::Align),
            Sym::Int(n),
            rest @ ..,
        ] => { (Some(*n), rest) }
        [
            Sym::Mark(Mark::Comma),
            Sym::Word(Word::Align),
            Sym::Negative(_),
            rest @ ..,
        ] => (Some(0), rest),
        _ => (None, symbols),
    }
}
