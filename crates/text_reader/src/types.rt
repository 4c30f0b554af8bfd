//! Readers of types.

ghost use Rattle.std.specs.Prelude.{◌≡◌, ◌<◌, [], length, IfOk};
ghost use Rattle.ir_model.specs.Ty.{structure, to_tys};
ghost use Rattle.text_reader.specs.Reading.{Gives};
ghost use Rattle.text_reader.specs.Types.{word_type, begin_at, end_at, type_at};

use crate::fault::ReadError;
use ir_base::{Data, Items};
use ir_model::IrType;
use std::alloc::Global;
use text_symbols::{Mark, Sym, Word};

/// An array or a structure whose end hasn't been read.
#[derive(Drop)]
pub enum Open {
    Array(u64),
    Struct(Items<IrType>),
}

/// What a step of the reader comes to.
#[derive(Drop)]
pub enum Step {
    Whole(IrType),
    Inside(Open),
}

/// A type of one word.
fn word_type(word: Word) -> Option<IrType>
    ensures { result ≡ word_type word }
{
    match word {
        Word::Int(width) => Some(IrType::int(width)),
        Word::Ptr => Some(IrType::pointer()),
        Word::Token => Some(IrType::token()),
        _ => None,
    }
}

/// What stands where a type begins.
fn begin_of(alloc: Global, symbols: &[Sym]) -> Result<(Step, &[Sym]), ReadError>
    ensures value { Gives (λ x. (x.0, x.1.now)) result (begin_at symbols.now) }
    ensures shorter { IfOk result (λ x. length x.1.now < length symbols.now) }
{
    match symbols {
        [Sym::Word(word), rest @ ..] => match word_type(*word) {
            Some(ty) => Ok((Step::Whole(ty), rest)),
            None => Err(ReadError::Syntax),
        },
        [Sym::Local(ident), rest @ ..] => match ident.name() {
            Some(name) => Ok((Step::Whole(IrType::named(name.copied(alloc)?)), rest)),
            None => Err(ReadError::Syntax),
        },
        [
            Sym::Mark(Mark::OpenSquare),
            Sym::Int(count),
            Sym::Word(Word::X),
            rest @ ..,
        ] => Ok((Step::Inside(Open::Array(*count)), rest)),
        [
            Sym::Mark(Mark::OpenCurly),
            Sym::Mark(Mark::CloseCurly),
            rest @ ..,
        ] => Ok((Step::Whole(IrType::structure(Vec::new(alloc))), rest)),
        [Sym::Mark(Mark::OpenCurly), rest @ ..] => {
            Ok((Step::Inside(Open::Struct(Items::new(alloc))), rest))
        }
        _ => Err(ReadError::Syntax),
    }
}

/// A structure that keeps no more room than its fields need, since structures may nest as deep as the text is long.
fn structure_of(fields: Items<IrType>) -> IrType
    ensures { result ≡ structure (to_tys fields) }
{
    let mut fields = fields.into_vec();
    fields.shrink_to_fit();
    IrType::structure(fields)
}

/// What stands behind a type inside something open.
fn end_of(
    alloc: Global,
    ty: IrType,
    outer: Open,
    symbols: &[Sym],
) -> Result<(Step, &[Sym]), ReadError>
    ensures value { Gives (λ x. (x.0, x.1.now)) result (end_at ty outer symbols.now) }
    ensures shorter { IfOk result (λ x. length x.1.now < length symbols.now) }
{
    match (outer, symbols) {
        (Open::Array(count), [Sym::Mark(Mark::CloseSquare), rest @ ..]) => {
            Ok((Step::Whole(IrType::array(alloc, count, ty)?), rest))
        }
        (Open::Struct(mut fields), [Sym::Mark(Mark::CloseCurly), rest @ ..]) => {
            fields.push(ty)?;
            Ok((Step::Whole(structure_of(fields)), rest))
        }
        (Open::Struct(mut fields), [Sym::Mark(Mark::Comma), rest @ ..]) => {
            fields.push(ty)?;
            Ok((Step::Inside(Open::Struct(fields)), rest))
        }
        _ => Err(ReadError::Syntax),
    }
}

/// The type at the front of the symbols, and the symbols behind it. It keeps what is open on a stack of its own, since a
/// text may nest as deep as it is long.
#[tactic(auto, using(crate::proofs::TypeSteps::type_begun, crate::proofs::TypeSteps::type_not_begun, crate::proofs::TypeSteps::inside_fault, crate::proofs::TypeSteps::whole_fault))]
pub fn type_of(alloc: Global, symbols: &[Sym]) -> Result<(IrType, &[Sym]), ReadError>
    ensures { Gives (λ x. (x.0, x.1.now)) result (type_at symbols.now) }
{
    let mut outers: Vec<Open> = Vec::new(alloc);
    let (mut step, mut rest) = begin_of(alloc, symbols)?;
    loop {
        let (next, after) = match step {
            Step::Inside(outer) => {
                outers.push(outer)?;
                begin_of(alloc, rest)?
            }
            Step::Whole(ty) => match outers.pop() {
                None => return Ok((ty, rest)),
                Some(outer) => end_of(alloc, ty, outer, rest)?,
            },
        };
        step = next;
        rest = after;
    }
}
