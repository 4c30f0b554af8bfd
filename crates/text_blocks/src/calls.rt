//! Readers of calls, and of any instruction.

ghost use Rattle.std.specs.Prelude.{◌≡◌, [], ◌∷◌};
ghost use Rattle.text_reader.specs.Many.{after, many_at};
ghost use Rattle.text_reader.specs.Reading.{Gives};
ghost use Rattle.text_blocks.specs.Calls.{result_at, callee_at, begins_comma, next_arg_at, args_at, call_at, tail_call_at, assigned_at, effect_at, instr_at, instr_line_at, begins_effect, begins_instr};

use crate::instrs::{alloca_of, binary_of, cast_of, gep_of, icmp_of, load_of, select_of, store_of};
use crate::loops::args_behind;
use ir_alignments::NamedTypes;
use ir_base::{Short, ValueId};
use ir_model::{Arg, Callee, Instr, IrType, callee_of as named_callee};
use std::alloc::Global;
use text_reader::{
    Locals, ReadError, arg_of, behind_attrs, mark_of, metadata_of, name_of, place_of, type_of,
};
use text_symbols::{Mark, Sym, Word};

/// `void`, or a type.
#[tactic(auto, unfolding(crate::specs::Calls::result_at))]
pub fn result_of(alloc: Global, symbols: &[Sym]) -> Result<(Option<IrType>, &[Sym]), ReadError>
    ensures { Gives (λ x. (x.0, x.1.now)) result (result_at symbols.now) }
{
    match symbols {
        [Sym::Word(Word::Void), rest @ ..] => Ok((None, rest)),
        _ => {
            let (ty, rest) = type_of(alloc, symbols)?;
            Ok((Some(ty), rest))
        }
    }
}

/// What is called.
#[tactic(auto, unfolding(crate::specs::Calls::callee_at))]
fn callee_of<'a>(
    alloc: Global,
    names: &mut Locals,
    symbols: &'a [Sym],
) -> Result<(Callee, &'a [Sym]), ReadError>
    ensures { Gives (λ x. (x.0, names.new, x.1.now)) result (callee_at names.old symbols.entry.now) }
{
    match symbols {
        [Sym::Global(ident), rest @ ..] => {
            let name = name_of(alloc, ident)?;
            Ok((named_callee(name), rest))
        }
        [Sym::Local(ident), rest @ ..] => {
            let id = place_of(alloc, names, ident)?;
            Ok((Callee::Local(id), rest))
        }
        _ => Err(ReadError::Syntax),
    }
}

/// A comma and an argument.
pub fn next_arg_of<'a>(
    alloc: Global,
    names: &mut Locals,
    symbols: &'a [Sym],
) -> Result<(Arg, &'a [Sym]), ReadError>
    ensures { Gives (λ x. (x.0, names.new, x.1.now)) result (next_arg_at names.old symbols.entry.now) }
{
    let rest = mark_of(symbols, Mark::Comma)?;
    arg_of(alloc, names, rest)
}

/// Arguments with commas between, or none, and the bracket that closes them.
#[tactic(auto, unfolding(crate::specs::Calls::args_at))]
fn args_of<'a>(
    alloc: Global,
    names: &mut Locals,
    symbols: &'a [Sym],
) -> Result<(Short<Arg>, &'a [Sym]), ReadError>
    ensures { Gives (λ x. (x.0, names.new, x.1.now)) result (args_at names.old symbols.entry.now) }
{
    if let [Sym::Mark(Mark::CloseRound), rest @ ..] = symbols {
        return Ok((Short::new(alloc), rest));
    }
    let (first, rest) = arg_of(alloc, names, symbols)?;
    let (all, rest) = args_behind(alloc, names, first, rest)?;
    Ok((all, mark_of(rest, Mark::CloseRound)?))
}

/// What stands behind `call`.
#[tactic(auto, unfolding(crate::specs::Calls::call_at))]
fn call_of<'a>(
    alloc: Global,
    names: &mut Locals,
    result_id: Option<ValueId>,
    must_tail: bool,
    symbols: &'a [Sym],
) -> Result<(Instr, &'a [Sym]), ReadError>
    ensures { Gives (λ x. (x.0, names.new, x.1.now)) result (call_at result_id must_tail names.old symbols.entry.now) }
{
    let rest = behind_attrs(alloc, symbols)?;
    let (ty, rest) = result_of(alloc, rest)?;
    let (callee, rest) = callee_of(alloc, names, rest)?;
    let rest = mark_of(rest, Mark::OpenRound)?;
    let (args, rest) = args_of(alloc, names, rest)?;
    let rest = behind_attrs(alloc, rest)?;
    Ok((
        Instr::Call {
            result: result_id,
            must_tail,
            ty,
            callee,
            args,
        },
        rest,
    ))
}

/// What stands behind `tail`, `notail` or `musttail`.
fn tail_call_of<'a>(
    alloc: Global,
    names: &mut Locals,
    result_id: Option<ValueId>,
    must_tail: bool,
    symbols: &'a [Sym],
) -> Result<(Instr, &'a [Sym]), ReadError>
    ensures { Gives (λ x. (x.0, names.new, x.1.now)) result (tail_call_at result_id must_tail names.old symbols.entry.now) }
{
    match symbols {
        [Sym::Word(Word::Call), rest @ ..] => call_of(alloc, names, result_id, must_tail, rest),
        _ => Err(ReadError::Syntax),
    }
}

/// What stands behind a name and `=`.
#[tactic(auto, unfolding(crate::specs::Calls::assigned_at))]
fn assigned_of<'a>(
    alloc: Global,
    types: &NamedTypes,
    names: &mut Locals,
    id: ValueId,
    word: Word,
    symbols: &'a [Sym],
) -> Result<(Instr, &'a [Sym]), ReadError>
    ensures { Gives (λ x. (x.0, names.new, x.1.now)) result (assigned_at types.now id word names.old symbols.entry.now) }
{
    match word {
        Word::Bin(op) => binary_of(alloc, names, id, op, symbols),
        Word::Icmp => icmp_of(alloc, names, id, symbols),
        Word::Select => select_of(alloc, names, id, symbols),
        Word::Cast(op) => cast_of(alloc, names, id, op, symbols),
        Word::Alloca => alloca_of(alloc, types, names, id, symbols),
        Word::Load => load_of(alloc, types, names, id, symbols),
        Word::Getelementptr => gep_of(alloc, names, id, symbols),
        Word::Call => call_of(alloc, names, Some(id), false, symbols),
        Word::Tail | Word::Notail => tail_call_of(alloc, names, Some(id), false, symbols),
        Word::Musttail => tail_call_of(alloc, names, Some(id), true, symbols),
        _ => Err(ReadError::Syntax),
    }
}

/// An instruction without a result, behind its word.
#[tactic(auto, unfolding(crate::specs::Calls::effect_at))]
fn effect_of<'a>(
    alloc: Global,
    types: &NamedTypes,
    names: &mut Locals,
    word: Word,
    symbols: &'a [Sym],
) -> Result<(Instr, &'a [Sym]), ReadError>
    ensures { Gives (λ x. (x.0, names.new, x.1.now)) result (effect_at types.now word names.old symbols.entry.now) }
{
    match word {
        Word::Store => store_of(alloc, types, names, symbols),
        Word::Call => call_of(alloc, names, None, false, symbols),
        Word::Tail | Word::Notail => tail_call_of(alloc, names, None, false, symbols),
        Word::Musttail => tail_call_of(alloc, names, None, true, symbols),
        _ => Err(ReadError::Syntax),
    }
}

#[tactic(auto, unfolding(crate::specs::Calls::instr_at))]
fn instr_of<'a>(
    alloc: Global,
    types: &NamedTypes,
    names: &mut Locals,
    symbols: &'a [Sym],
) -> Result<(Instr, &'a [Sym]), ReadError>
    ensures { Gives (λ x. (x.0, names.new, x.1.now)) result (instr_at types.now names.old symbols.entry.now) }
{
    match symbols {
        [
            Sym::Local(ident),
            Sym::Mark(Mark::Equals),
            Sym::Word(word),
            rest @ ..,
        ] => {
            let id = place_of(alloc, names, ident)?;
            assigned_of(alloc, types, names, id, *word, rest)
        }
        [Sym::Word(word), rest @ ..] => effect_of(alloc, types, names, *word, rest),
        _ => Err(ReadError::Syntax),
    }
}

/// An instruction and its metadata.
#[tactic(auto, unfolding(crate::specs::Calls::instr_line_at))]
pub fn instr_line_of<'a>(
    alloc: Global,
    types: &NamedTypes,
    names: &mut Locals,
    symbols: &'a [Sym],
) -> Result<(Instr, &'a [Sym]), ReadError>
    ensures { Gives (λ x. (x.0, names.new, x.1.now)) result (instr_line_at types.now names.old symbols.entry.now) }
{
    let (instr, rest) = instr_of(alloc, types, names, symbols)?;
    Ok((instr, metadata_of(rest)))
}

pub fn begins_comma(symbols: &[Sym]) -> bool
    ensures { result ≡ begins_comma symbols.now }
{
    match symbols {
        [Sym::Mark(Mark::Comma), ..] => true,
        _ => false,
    }
}

fn begins_effect(word: Word) -> bool
    ensures { result ≡ begins_effect word }
{
    match word {
        Word::Store | Word::Call | Word::Tail | Word::Notail | Word::Musttail => true,
        _ => false,
    }
}

/// Whether an instruction begins there, and no terminator.
pub fn begins_instr(symbols: &[Sym]) -> bool
    ensures { result ≡ begins_instr symbols.now }
{
    match symbols {
        [Sym::Local(_), ..] => true,
        [Sym::Word(word), ..] => begins_effect(*word),
        _ => false,
    }
}
