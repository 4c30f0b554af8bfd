//! Readers of blocks.

ghost use Rattle.std.specs.Prelude.{◌≡◌, [], ◌∷◌};
ghost use Rattle.text_reader.specs.Reading.{Gives};
ghost use Rattle.text_reader.specs.Values.{named_at};
ghost use Rattle.text_blocks.specs.Blocks.{body_at, labelled_at, begins_label, numbered, entry_at, blocks_at};

use crate::loops::{blocks_behind, instrs_of, phis_of};
use crate::terminators::terminator_of;
use ir_alignments::NamedTypes;
use ir_base::{Items, Name, ValueId};
use ir_model::Block;
use std::alloc::Global;
use text_reader::{Locals, ReadError, mark_of, place_of};
use text_symbols::{Mark, Sym};

/// Phis, instructions and a terminator, behind the label.
#[tactic(auto, unfolding(crate::specs::Blocks::body_at))]
fn body_of<'a>(
    alloc: Global,
    types: &NamedTypes,
    names: &mut Locals,
    label: ValueId,
    symbols: &'a [Sym],
) -> Result<(Block, &'a [Sym]), ReadError>
    ensures { Gives (λ x. (x.0, names.new, x.1.now)) result (body_at types.now label names.old symbols.entry.now) }
{
    let (phis, rest) = phis_of(alloc, names, symbols)?;
    let (instrs, rest) = instrs_of(alloc, types, names, rest)?;
    let (term, rest) = terminator_of(alloc, names, rest)?;
    Ok((
        Block {
            label,
            phis,
            instrs,
            term,
        },
        rest,
    ))
}

/// A block and its label.
#[tactic(auto, unfolding(crate::specs::Blocks::labelled_at))]
pub fn labelled_of<'a>(
    alloc: Global,
    types: &NamedTypes,
    names: &mut Locals,
    symbols: &'a [Sym],
) -> Result<(Block, &'a [Sym]), ReadError>
    ensures { Gives (λ x. (x.0, names.new, x.1.now)) result (labelled_at types.now names.old symbols.entry.now) }
{
    match symbols {
        [Sym::Label(ident), rest @ ..] => {
            let label = place_of(alloc, names, ident)?;
            body_of(alloc, types, names, label, rest)
        }
        _ => Err(ReadError::Syntax),
    }
}

pub fn begins_label(symbols: &[Sym]) -> bool
    ensures { result ≡ begins_label symbols.now }
{
    match symbols {
        [Sym::Label(_), ..] => true,
        _ => false,
    }
}

/// A number as a name, below 2^32.
pub fn numbered(number: usize) -> Option<Name>
    ensures { result ≡ numbered number }
{
    if number <= u32::MAX as usize {
        Some(Name::Number(number as u32))
    } else {
        None
    }
}

/// The label of a first block that isn't written: the number of the parameters that have a number.
fn unwritten_label(names: &mut Locals, numbers: usize) -> Result<ValueId, ReadError>
    ensures { Gives (λ x. (x, names.new)) result (named_at names.old (numbered numbers)) }
{
    match numbered(numbers) {
        Some(name) => Ok(names.place(name)?),
        None => Err(ReadError::Syntax),
    }
}

/// The first block, whose label may be left out.
#[tactic(auto, unfolding(crate::specs::Blocks::entry_at))]
fn entry_of<'a>(
    alloc: Global,
    types: &NamedTypes,
    names: &mut Locals,
    numbers: usize,
    symbols: &'a [Sym],
) -> Result<(Block, &'a [Sym]), ReadError>
    ensures { Gives (λ x. (x.0, names.new, x.1.now)) result (entry_at types.now numbers names.old symbols.entry.now) }
{
    match symbols {
        [Sym::Label(ident), rest @ ..] => {
            let label = place_of(alloc, names, ident)?;
            body_of(alloc, types, names, label, rest)
        }
        _ => {
            let label = unwritten_label(names, numbers)?;
            body_of(alloc, types, names, label, symbols)
        }
    }
}

/// Blocks in curly brackets.
#[tactic(auto, unfolding(crate::specs::Blocks::blocks_at))]
pub fn blocks_of<'a>(
    alloc: Global,
    types: &NamedTypes,
    names: &mut Locals,
    numbers: usize,
    symbols: &'a [Sym],
) -> Result<(Items<Block>, &'a [Sym]), ReadError>
    ensures { Gives (λ x. (x.0, names.new, x.1.now)) result (blocks_at types.now numbers names.old symbols.entry.now) }
{
    let rest = mark_of(symbols, Mark::OpenCurly)?;
    let (first, rest) = entry_of(alloc, types, names, numbers, rest)?;
    let (all, rest) = blocks_behind(alloc, types, names, first, rest)?;
    let rest = mark_of(rest, Mark::CloseCurly)?;
    Ok((all, rest))
}
