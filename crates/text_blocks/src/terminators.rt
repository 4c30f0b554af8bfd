//! Readers of phis and terminators.

ghost use Rattle.std.specs.Prelude.{◌≡◌, [], ◌∷◌};
ghost use Rattle.text_reader.specs.Reading.{Gives};
ghost use Rattle.text_blocks.specs.Terminators.{incoming_at, next_incoming_at, begins_incoming, incomings_at, phi_line_at, begins_phi, branch_at, br_at, case_at, begins_case, switch_at, ret_at, ended_at, terminator_at};

use crate::loops::{cases_of, incomings_behind};
use ir_base::ValueId;
use ir_model::{Case, Incoming, IntWidth, Phi, Terminator};
use std::alloc::Global;
use text_reader::{
    Locals, ReadError, local_of, mark_of, metadata_of, place_of, target_of, type_of, typed_of,
    value_of,
};
use text_symbols::{Mark, Sym, Word};

/// `[`, a value, a comma, a label and `]`.
#[tactic(auto, unfolding(crate::specs::Terminators::incoming_at))]
fn incoming_of<'a>(
    alloc: Global,
    names: &mut Locals,
    symbols: &'a [Sym],
) -> Result<(Incoming, &'a [Sym]), ReadError>
    ensures { Gives (λ x. (x.0, names.new, x.1.now)) result (incoming_at names.old symbols.entry.now) }
{
    let rest = mark_of(symbols, Mark::OpenSquare)?;
    let (value, rest) = value_of(alloc, names, rest)?;
    let rest = mark_of(rest, Mark::Comma)?;
    let (from, rest) = local_of(alloc, names, rest)?;
    let rest = mark_of(rest, Mark::CloseSquare)?;
    Ok((Incoming { value, from }, rest))
}

/// A comma and one more.
pub fn next_incoming_of<'a>(
    alloc: Global,
    names: &mut Locals,
    symbols: &'a [Sym],
) -> Result<(Incoming, &'a [Sym]), ReadError>
    ensures { Gives (λ x. (x.0, names.new, x.1.now)) result (next_incoming_at names.old symbols.entry.now) }
{
    let rest = mark_of(symbols, Mark::Comma)?;
    incoming_of(alloc, names, rest)
}

pub fn begins_incoming(symbols: &[Sym]) -> bool
    ensures { result ≡ begins_incoming symbols.now }
{
    match symbols {
        [Sym::Mark(Mark::Comma), Sym::Mark(Mark::OpenSquare), ..] => true,
        _ => false,
    }
}

/// What stands behind a name, `=` and `phi`.
#[tactic(auto, unfolding(crate::specs::Terminators::incomings_at))]
fn incomings_of<'a>(
    alloc: Global,
    names: &mut Locals,
    id: ValueId,
    symbols: &'a [Sym],
) -> Result<(Phi, &'a [Sym]), ReadError>
    ensures { Gives (λ x. (x.0, names.new, x.1.now)) result (incomings_at id names.old symbols.entry.now) }
{
    let (ty, rest) = type_of(alloc, symbols)?;
    let (first, rest) = incoming_of(alloc, names, rest)?;
    let (incoming, rest) = incomings_behind(alloc, names, first, rest)?;
    let phi = Phi {
        result: id,
        ty,
        incoming,
    };
    Ok((phi, metadata_of(rest)))
}

/// A phi and its metadata.
#[tactic(auto, unfolding(crate::specs::Terminators::phi_line_at))]
pub fn phi_line_of<'a>(
    alloc: Global,
    names: &mut Locals,
    symbols: &'a [Sym],
) -> Result<(Phi, &'a [Sym]), ReadError>
    ensures { Gives (λ x. (x.0, names.new, x.1.now)) result (phi_line_at names.old symbols.entry.now) }
{
    match symbols {
        [
            Sym::Local(ident),
            Sym::Mark(Mark::Equals),
            Sym::Word(Word::Phi),
            rest @ ..,
        ] => {
            let id = place_of(alloc, names, ident)?;
            incomings_of(alloc, names, id, rest)
        }
        _ => Err(ReadError::Syntax),
    }
}

pub fn begins_phi(symbols: &[Sym]) -> bool
    ensures { result ≡ begins_phi symbols.now }
{
    match symbols {
        [
            Sym::Local(_),
            Sym::Mark(Mark::Equals),
            Sym::Word(Word::Phi),
            ..
        ] => true,
        _ => false,
    }
}

#[tactic(auto, unfolding(crate::specs::Terminators::branch_at))]
fn branch_of<'a>(
    alloc: Global,
    names: &mut Locals,
    symbols: &'a [Sym],
) -> Result<(Terminator, &'a [Sym]), ReadError>
    ensures { Gives (λ x. (x.0, names.new, x.1.now)) result (branch_at names.old symbols.entry.now) }
{
    let (cond, rest) = value_of(alloc, names, symbols)?;
    let rest = mark_of(rest, Mark::Comma)?;
    let (yes, rest) = target_of(alloc, names, rest)?;
    let rest = mark_of(rest, Mark::Comma)?;
    let (no, rest) = target_of(alloc, names, rest)?;
    Ok((Terminator::Branch { cond, yes, no }, rest))
}

#[tactic(auto, unfolding(crate::specs::Terminators::br_at))]
fn br_of<'a>(
    alloc: Global,
    names: &mut Locals,
    symbols: &'a [Sym],
) -> Result<(Terminator, &'a [Sym]), ReadError>
    ensures { Gives (λ x. (x.0, names.new, x.1.now)) result (br_at names.old symbols.entry.now) }
{
    match symbols {
        [Sym::Word(Word::Int(IntWidth::I1)), rest @ ..] => branch_of(alloc, names, rest),
        _ => {
            let (label, rest) = target_of(alloc, names, symbols)?;
            Ok((Terminator::Jump(label), rest))
        }
    }
}

/// A type, a value, a comma and a label.
#[tactic(auto, unfolding(crate::specs::Terminators::case_at))]
pub fn case_of<'a>(
    alloc: Global,
    names: &mut Locals,
    symbols: &'a [Sym],
) -> Result<(Case, &'a [Sym]), ReadError>
    ensures { Gives (λ x. (x.0, names.new, x.1.now)) result (case_at names.old symbols.entry.now) }
{
    let (arg, rest) = typed_of(alloc, names, symbols)?;
    let rest = mark_of(rest, Mark::Comma)?;
    let (target, rest) = target_of(alloc, names, rest)?;
    Ok((Case { arg, target }, rest))
}

pub fn begins_case(symbols: &[Sym]) -> bool
    ensures { result ≡ begins_case symbols.now }
{
    match symbols {
        [Sym::Mark(Mark::CloseSquare), ..] => false,
        _ => true,
    }
}

#[tactic(auto, unfolding(crate::specs::Terminators::switch_at))]
fn switch_of<'a>(
    alloc: Global,
    names: &mut Locals,
    symbols: &'a [Sym],
) -> Result<(Terminator, &'a [Sym]), ReadError>
    ensures { Gives (λ x. (x.0, names.new, x.1.now)) result (switch_at names.old symbols.entry.now) }
{
    let (Case { arg, target }, rest) = case_of(alloc, names, symbols)?;
    let rest = mark_of(rest, Mark::OpenSquare)?;
    let (cases, rest) = cases_of(alloc, names, rest)?;
    let rest = mark_of(rest, Mark::CloseSquare)?;
    Ok((
        Terminator::Switch {
            arg,
            default: target,
            cases,
        },
        rest,
    ))
}

#[tactic(auto, unfolding(crate::specs::Terminators::ret_at))]
fn ret_of<'a>(
    alloc: Global,
    names: &mut Locals,
    symbols: &'a [Sym],
) -> Result<(Terminator, &'a [Sym]), ReadError>
    ensures { Gives (λ x. (x.0, names.new, x.1.now)) result (ret_at names.old symbols.entry.now) }
{
    match symbols {
        [Sym::Word(Word::Void), rest @ ..] => Ok((Terminator::Ret(None), rest)),
        _ => {
            let (arg, rest) = typed_of(alloc, names, symbols)?;
            Ok((Terminator::Ret(Some(arg)), rest))
        }
    }
}

/// A terminator behind its word.
fn ended_of<'a>(
    alloc: Global,
    names: &mut Locals,
    word: Word,
    symbols: &'a [Sym],
) -> Result<(Terminator, &'a [Sym]), ReadError>
    ensures { Gives (λ x. (x.0, names.new, x.1.now)) result (ended_at word names.old symbols.entry.now) }
{
    match word {
        Word::Br => br_of(alloc, names, symbols),
        Word::Switch => switch_of(alloc, names, symbols),
        Word::Ret => ret_of(alloc, names, symbols),
        Word::Unreachable => Ok((Terminator::Unreachable, symbols)),
        _ => Err(ReadError::Syntax),
    }
}

/// A terminator and its metadata.
#[tactic(auto, unfolding(crate::specs::Terminators::terminator_at))]
pub fn terminator_of<'a>(
    alloc: Global,
    names: &mut Locals,
    symbols: &'a [Sym],
) -> Result<(Terminator, &'a [Sym]), ReadError>
    ensures { Gives (λ x. (x.0, names.new, x.1.now)) result (terminator_at names.old symbols.entry.now) }
{
    match symbols {
        [Sym::Word(word), rest @ ..] => {
            let (terminator, rest) = ended_of(alloc, names, *word, rest)?;
            Ok((terminator, metadata_of(rest)))
        }
        _ => Err(ReadError::Syntax),
    }
}
