//! Readers of items.

ghost use Rattle.std.specs.Prelude.{◌≡◌, ◌<◌, Some, OnOk, IfOk};
ghost use Rattle.text_reader.specs.Reading.{Gives};
ghost use Rattle.text_parser.specs.Items.{source_at, target_at, comdat_at, kept_group, attributes_at, type_item_at, constant_word, scalar, scalar_at, is_init, init_at, global_item_at, behind_distinct, node_at, metadata_at, declaration_at, function_at, worded_at, item_at, items_at};

use crate::functions::{declare_of, define_of};
use crate::known::Known;
use ir_base::Items;
use ir_model::{Declaration, Function, GlobalItem, IrType, Module, Operand, TypeItem};
use std::alloc::{AllocError, Global};
use text_blocks::align_or;
use text_reader::{
    Groups, ReadError, align_of, attrs_of, balanced_of, behind_attrs, constant_of, mark_of,
    metadata_of, name_of, type_of,
};
use text_symbols::{Ident, Mark, Sym, Word};

/// An item. Those that aren't kept are skipped, but a group of attributes that makes coroutines.
#[derive(Drop)]
pub enum Item {
    Skipped,
    Group(Items<u8>),
    Type(TypeItem),
    Global(GlobalItem),
    Declaration(Declaration),
    Function(Function),
}

/// What was read of the items so far: the kept parts, the groups that make coroutines, and how many items there were.
#[derive(Drop)]
pub struct Draft {
    pub parts: Module,
    pub groups: Groups,
    pub count: usize,
}

fn source_of(symbols: &[Sym]) -> Result<(Item, &[Sym]), ReadError>
    ensures { Gives (λ x. (x.0, x.1.now)) result (source_at symbols.now) }
{
    match symbols {
        [Sym::Mark(Mark::Equals), Sym::Str, rest @ ..] => Ok((Item::Skipped, rest)),
        _ => Err(ReadError::Syntax),
    }
}

fn target_of(symbols: &[Sym]) -> Result<(Item, &[Sym]), ReadError>
    ensures { Gives (λ x. (x.0, x.1.now)) result (target_at symbols.now) }
{
    match symbols {
        [Sym::Word(_), Sym::Mark(Mark::Equals), Sym::Str, rest @ ..] => Ok((Item::Skipped, rest)),
        _ => Err(ReadError::Syntax),
    }
}

fn comdat_of(symbols: &[Sym]) -> Result<(Item, &[Sym]), ReadError>
    ensures { Gives (λ x. (x.0, x.1.now)) result (comdat_at symbols.now) }
{
    match symbols {
        [
            Sym::Mark(Mark::Equals),
            Sym::Word(Word::Comdat),
            Sym::Word(_),
            rest @ ..,
        ] => Ok((Item::Skipped, rest)),
        _ => Err(ReadError::Syntax),
    }
}

/// The digits of a group that is kept.
fn group_of(alloc: Global, coroutine: bool, digits: &Items<u8>) -> Result<Item, AllocError>
    ensures { IfOk result (λ i. i ≡ kept_group coroutine digits.now) }
{
    if coroutine {
        let digits = digits.as_slice().to_vec(alloc)?;
        Ok(Item::Group(Items::from_vec(digits)))
    } else {
        Ok(Item::Skipped)
    }
}

#[tactic(auto, unfolding(crate::specs::Items::attributes_at))]
fn attributes_of(alloc: Global, symbols: &[Sym]) -> Result<(Item, &[Sym]), ReadError>
    ensures { Gives (λ x. (x.0, x.1.now)) result (attributes_at symbols.now) }
{
    match symbols {
        [
            Sym::Group(digits),
            Sym::Mark(Mark::Equals),
            Sym::Mark(Mark::OpenCurly),
            rest @ ..,
        ] => {
            let none = Groups::new(alloc);
            let (coroutine, rest) = attrs_of(alloc, &none, rest)?;
            let rest = mark_of(rest, Mark::CloseCurly)?;
            Ok((group_of(alloc, coroutine, digits)?, rest))
        }
        _ => Err(ReadError::Syntax),
    }
}

#[tactic(auto, unfolding(crate::specs::Items::type_item_at))]
fn type_item_of<'a>(
    alloc: Global,
    ident: &Ident,
    symbols: &'a [Sym],
) -> Result<(Item, &'a [Sym]), ReadError>
    ensures { Gives (λ x. (x.0, x.1.now)) result (type_item_at ident.now symbols.entry.now) }
{
    match symbols {
        [Sym::Mark(Mark::OpenCurly), ..] => {
            let name = name_of(alloc, ident)?;
            let (ty, rest) = type_of(alloc, symbols)?;
            Ok((Item::Type(TypeItem { name, ty }), rest))
        }
        _ => Err(ReadError::Syntax),
    }
}

/// Whether `global` or `constant` stands there.
fn constant_word(symbols: &[Sym]) -> Result<(bool, &[Sym]), ReadError>
    ensures { Gives (λ x. (x.0, x.1.now)) result (constant_word symbols.now) }
{
    match symbols {
        [Sym::Word(Word::Global), rest @ ..] => Ok((false, rest)),
        [Sym::Word(Word::Constant), rest @ ..] => Ok((true, rest)),
        _ => Err(ReadError::Syntax),
    }
}

fn scalar(word: Word) -> Option<IrType>
    ensures { result ≡ scalar word }
{
    match word {
        Word::Int(width) => Some(IrType::int(width)),
        Word::Ptr => Some(IrType::pointer()),
        _ => None,
    }
}

/// The type of a global.
fn scalar_of(symbols: &[Sym]) -> Result<(IrType, &[Sym]), ReadError>
    ensures { Gives (λ x. (x.0, x.1.now)) result (scalar_at symbols.now) }
{
    match symbols {
        [Sym::Word(word), rest @ ..] => match scalar(*word) {
            Some(ty) => Ok((ty, rest)),
            None => Err(ReadError::Syntax),
        },
        _ => Err(ReadError::Syntax),
    }
}

fn is_init(value: &Operand) -> bool
    ensures { result ≡ is_init value.now }
{
    match value {
        Operand::None | Operand::Poison => false,
        _ => true,
    }
}

/// An initial value.
#[tactic(auto, unfolding(crate::specs::Items::init_at))]
fn init_of(alloc: Global, symbols: &[Sym]) -> Result<(Operand, &[Sym]), ReadError>
    ensures { Gives (λ x. (x.0, x.1.now)) result (init_at symbols.now) }
{
    let (value, rest) = constant_of(alloc, symbols)?;
    if is_init(&value) {
        Ok((value, rest))
    } else {
        Err(ReadError::Syntax)
    }
}

#[tactic(auto, unfolding(crate::specs::Items::global_item_at))]
fn global_item_of<'a>(
    alloc: Global,
    known: &Known,
    ident: &Ident,
    symbols: &'a [Sym],
) -> Result<(Item, &'a [Sym]), ReadError>
    ensures { Gives (λ x. (x.0, x.1.now)) result (global_item_at known.now ident.now symbols.entry.now) }
{
    let name = name_of(alloc, ident)?;
    let rest = behind_attrs(alloc, symbols)?;
    let (constant, rest) = constant_word(rest)?;
    let (ty, rest) = scalar_of(rest)?;
    let (init, rest) = init_of(alloc, rest)?;
    let (written, rest) = align_of(rest);
    let align = align_or(&known.types, &ty, written);
    Ok((
        Item::Global(GlobalItem {
            name,
            constant,
            ty,
            init,
            align,
        }),
        metadata_of(rest),
    ))
}

fn distinct_of(symbols: &[Sym]) -> &[Sym]
    ensures { result.now ≡ behind_distinct symbols.now }
{
    match symbols {
        [Sym::Word(Word::Distinct), rest @ ..] => rest,
        _ => symbols,
    }
}

/// A node of metadata.
fn node_of(alloc: Global, symbols: &[Sym]) -> Result<&[Sym], ReadError>
    ensures { Gives (λ x. x.now) result (node_at symbols.now) }
{
    match symbols {
        [Sym::Meta, Sym::Mark(Mark::OpenCurly), rest @ ..] => {
            balanced_of(alloc, rest, Mark::CloseCurly)
        }
        [Sym::Meta, Sym::Mark(Mark::OpenRound), rest @ ..] => {
            balanced_of(alloc, rest, Mark::CloseRound)
        }
        _ => Err(ReadError::Syntax),
    }
}

#[tactic(auto, unfolding(crate::specs::Items::metadata_at))]
fn metadata_item_of(alloc: Global, symbols: &[Sym]) -> Result<(Item, &[Sym]), ReadError>
    ensures { Gives (λ x. (x.0, x.1.now)) result (metadata_at symbols.now) }
{
    let rest = node_of(alloc, distinct_of(symbols))?;
    Ok((Item::Skipped, rest))
}

fn declaration_of(alloc: Global, symbols: &[Sym]) -> Result<(Item, &[Sym]), ReadError>
    ensures { Gives (λ x. (x.0, x.1.now)) result (declaration_at symbols.now) }
{
    let (declaration, rest) = declare_of(alloc, symbols)?;
    Ok((Item::Declaration(declaration), rest))
}

fn function_of<'a>(
    alloc: Global,
    known: &Known,
    symbols: &'a [Sym],
) -> Result<(Item, &'a [Sym]), ReadError>
    ensures { Gives (λ x. (x.0, x.1.now)) result (function_at known.now symbols.entry.now) }
{
    let (function, rest) = define_of(alloc, known, symbols)?;
    Ok((Item::Function(function), rest))
}

/// An item behind its first word.
fn worded_of<'a>(
    alloc: Global,
    known: &Known,
    word: Word,
    symbols: &'a [Sym],
) -> Result<(Item, &'a [Sym]), ReadError>
    ensures { Gives (λ x. (x.0, x.1.now)) result (worded_at known.now word symbols.entry.now) }
{
    match word {
        Word::SourceFilename => source_of(symbols),
        Word::Target => target_of(symbols),
        Word::Dollar => comdat_of(symbols),
        Word::Attributes => attributes_of(alloc, symbols),
        Word::Declare => declaration_of(alloc, symbols),
        Word::Define => function_of(alloc, known, symbols),
        _ => Err(ReadError::Syntax),
    }
}

#[tactic(auto, unfolding(crate::specs::Items::item_at))]
fn item_of<'a>(
    alloc: Global,
    known: &Known,
    symbols: &'a [Sym],
) -> Result<(Item, &'a [Sym]), ReadError>
    ensures { Gives (λ x. (x.0, x.1.now)) result (item_at known.now symbols.entry.now) }
{
    match symbols {
        [Sym::Word(word), rest @ ..] => worded_of(alloc, known, *word, rest),
        [
            Sym::Local(ident),
            Sym::Mark(Mark::Equals),
            Sym::Word(Word::Type),
            rest @ ..,
        ] => type_item_of(alloc, ident, rest),
        [Sym::Global(ident), Sym::Mark(Mark::Equals), rest @ ..] => {
            global_item_of(alloc, known, ident, rest)
        }
        [Sym::Meta, Sym::Mark(Mark::Equals), rest @ ..] => metadata_item_of(alloc, rest),
        _ => Err(ReadError::Syntax),
    }
}

impl Draft {
    ghost use Rattle.text_parser.specs.Items.{no_items, with_item};

    /// No items.
    fn new(alloc: Global) -> Self
        ensures { result ≡ no_items }
    {
        Draft {
            parts: Module {
                types: Items::new(alloc),
                globals: Items::new(alloc),
                declarations: Items::new(alloc),
                functions: Items::new(alloc),
            },
            groups: Groups::new(alloc),
            count: 0,
        }
    }

    /// Adds an item.
    fn add(&mut self, item: Item) -> Result<(), AllocError>
        requires { self.old.count < usize.MAX }
        ensures { OnOk result (self.new ≡ with_item self.old item) }
    {
        match item {
            Item::Skipped => {}
            Item::Group(digits) => self.groups.add(digits)?,
            Item::Type(item) => self.parts.types.push(item)?,
            Item::Global(item) => self.parts.globals.push(item)?,
            Item::Declaration(item) => self.parts.declarations.push(item)?,
            Item::Function(item) => self.parts.functions.push(item)?,
        }
        self.count += 1;
        Ok(())
    }
}

/// All items, and the symbols that are left.
#[tactic(auto, using(crate::proofs::ItemSteps::items_begun, crate::proofs::ItemSteps::items_turn, crate::proofs::ItemSteps::items_end, crate::proofs::ItemSteps::items_stuck))]
pub fn items_of<'a>(
    alloc: Global,
    known: &Known,
    symbols: &'a [Sym],
) -> Result<(Draft, &'a [Sym]), AllocError>
    ensures { IfOk result (λ x. (x.0, x.1.now) ≡ items_at known.now symbols.entry.now) }
{
    let mut draft = Draft::new(alloc);
    let mut rest = symbols;
    loop {
        match item_of(alloc, known, rest) {
            Ok((item, after)) => {
                if after.len() >= rest.len() {
                    return Ok((draft, rest));
                }
                draft.add(item)?;
                rest = after;
            }
            Err(ReadError::Syntax) => return Ok((draft, rest)),
            Err(ReadError::Memory) => return Err(AllocError),
        }
    }
}
