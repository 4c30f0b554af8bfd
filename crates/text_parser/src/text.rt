//! Reads a whole text.

ghost use Rattle.std.specs.Prelude.{◌≡◌, ℕ, List, IfOk};
ghost use Rattle.text_grammar.specs.Text.{StandsFor};
ghost use Rattle.ir_model.specs.declared.module.Module.{Module};
ghost use Rattle.text_parser.specs.Known.{nothing};
ghost use Rattle.text_parser.specs.Items.{items_at};
ghost use Rattle.text_parser.specs.Reading.{IsReading};
ghost use Rattle.text_parser.specs.Parse.{module_at, is_all, answer, read_symbols, read_module};

use crate::items::{Draft, items_of};
use crate::known::Known;
use ir_alignments::NamedTypes;
use ir_base::Items;
use ir_model::Module;
use std::alloc::{AllocError, Global};
use text_reader::Groups;
use text_symbols::{Sym, Symbols, symbols_of};

/// The module that a text stands for, or with how many whole items the text begins where it stands for none.
#[derive(Drop)]
pub enum Parsed {
    Module(Module),
    Syntax { items: usize },
}

/// The module that symbols are whose items were all read once: they are read again where their alignments or coroutines
/// hang on what an item tells that may come later.
fn module_of(alloc: Global, first: Draft, symbols: &[Sym]) -> Result<Parsed, AllocError>
    requires { first ≡ (items_at nothing symbols.now).0 }
    ensures { IfOk result (λ p. p ≡ module_at first symbols.now) }
{
    let Draft { parts, groups, .. } = first;
    if parts.types.len() == 0 && groups.is_empty() {
        return Ok(Parsed::Module(parts));
    }
    let Module { types, .. } = parts;
    let known = Known {
        types: NamedTypes::new(alloc, types)?,
        groups,
    };
    let (draft, _) = items_of(alloc, &known, symbols)?;
    let Draft { parts, .. } = draft;
    Ok(Parsed::Module(parts))
}

/// Whether nothing is left, of symbols that are all of the text.
fn is_all(rest: &[Sym], whole: bool) -> bool
    ensures { result ≡ is_all rest.now whole }
{
    match rest {
        [] => whole,
        _ => false,
    }
}

/// The answer, where all items were read once.
fn answer_of(alloc: Global, first: Draft, all: bool, symbols: &[Sym]) -> Result<Parsed, AllocError>
    requires { first ≡ (items_at nothing symbols.now).0 }
    ensures { IfOk result (λ p. p ≡ answer first all symbols.now) }
{
    if all {
        module_of(alloc, first, symbols)
    } else {
        Ok(Parsed::Syntax { items: first.count })
    }
}

fn read_symbols(alloc: Global, symbols: &Symbols) -> Result<Parsed, AllocError>
    ensures { IfOk result (λ p. p ≡ read_symbols symbols.now) }
{
    let nothing = Known {
        types: NamedTypes::new(alloc, Items::new(alloc))?,
        groups: Groups::new(alloc),
    };
    let all = symbols.symbols.as_slice();
    let (first, rest) = items_of(alloc, &nothing, all)?;
    answer_of(alloc, first, is_all(rest, symbols.whole), all)
}

/// The reading function's answer.
#[tactic(auto, unfolding(crate::specs::Parse::read_module))]
fn read(alloc: Global, text: &[u8]) -> Result<Parsed, AllocError>
    ensures { IfOk result (λ p. p ≡ read_module text.now) }
{
    let symbols = symbols_of(alloc, text)?;
    read_symbols(alloc, &symbols)
}

/// Reads the module that a text of LLVM's assembly language stands for (its integer subset, with coroutines), or tells
/// with how many whole items the text begins.
#[tactic(auto, using(crate::proofs::TextRead::reading_of))]
pub fn parse(alloc: Global, text: &[u8]) -> Result<Parsed, AllocError>
    // What is told is what the grammar says: the text stands for the module, or for none.
    ensures reading { IfOk result (λ p. IsReading text.now p) }
    // Nothing of the grammar is refused, nor taken for another module.
    ensures told { IfOk result (λ p. (m : Module) → StandsFor text.now m → p ≡ Parsed.Module m) }
    // The same as a function.
    ensures value { IfOk result (λ p. p ≡ read_module text.now) }
{
    read(alloc, text)
}

/// A text stands for one module at most.
pub fn stands_for_one()
    ensures { (text : List ℕ) (m n : Module) → StandsFor text m → StandsFor text n → m ≡ n }
{}
