//! A lowered text with what native code needs of its original.

ghost use Rattle.std.specs.Prelude.{◌≡◌, ◌++◌, IfOk, OnOk, option_map};
ghost use Rattle.clang_writer.specs.Lowered as spec;
ghost use Rattle.clang_writer.specs.Dressed.{dressed};
ghost use Rattle.clang_writer.specs.Kept.{kept_in};
ghost use Rattle.clang_tokens.specs.Lines.{lines};
ghost use Rattle.ir_model.specs.Names.{first_where, same_name};
ghost use Rattle.ir_tables.specs.Tables.{FindsFirst};

use crate::dressed::{push_function, push_global};
use crate::kept::{Kept, is_global, is_signature, kept_in, name_in};
use crate::names::all_renamed;
use clang_tokens::{at, copied, first_line, is_at, push_line, tokens_of};
use ir_base::{Items, Name, Text};
use ir_tables::{NameTable, find, table_of};
use std::alloc::{AllocError, Global};

/// What a lowered text is written as (LLVM Language Reference, "Module Structure").
#[derive(Drop)]
pub enum Writing {
    /// A text for clang.
    Written(Items<u8>),
    /// In the line of this number, from 1, somewhere no token begins.
    NoToken(u64),
}

/// What is kept of the original, by name.
#[derive(Drop)]
struct Original {
    all: Items<Kept>,
    table: NameTable,
    ghost first: { FindsFirst (λ k. k.name) all table },
}

fn original_of(alloc: Global, text: &[u8]) -> Result<Original, AllocError>
    ensures { IfOk result (λ o. o.all ≡ kept_in text.now) }
{
    let all = kept_in(alloc, text)?;
    let table = table_of(alloc, all.as_slice())?;
    Ok(Original { all, table })
}

/// The position of what is kept of a name.
fn place_of(original: &Original, name: &Name) -> Option<usize>
    ensures { result ≡ first_where (λ k. same_name k.name name.now) original.now.all }
{
    find(&original.table, name)
}

fn kept_at<'a>(all: &'a Items<Kept>, place: Option<usize>) -> Option<&'a Kept>
    ensures { option_map (λ k. k.now) result ≡ spec.kept_at all.entry.now place }
{
    match place {
        None => None,
        Some(i) => match all.get(i) {
            None => None,
            Some(kept) => Some(kept),
        },
    }
}

fn kept_named<'a>(
    alloc: Global,
    original: &'a Original,
    name: &[u8],
) -> Result<Option<&'a Kept>, AllocError>
    ensures { IfOk result (λ r. option_map (λ k. k.now) r ≡ spec.kept_named original.entry.now.all name.now) }
{
    let name = Name::Text(Text::from_bytes(alloc, name)?);
    let place = place_of(original, &name);
    Ok(kept_at(&original.all, place))
}

/// A line by what is kept of its name.
fn push_dressed(
    alloc: Global,
    original: &Original,
    tokens: &[Text],
    out: &mut Items<Text>,
) -> Result<(), AllocError>
    ensures { OnOk result (out.new ≡ out.old ++ dressed (spec.kept_named original.now.all) tokens.now) }
{
    if is_signature(tokens) {
        let kept = kept_named(alloc, original, name_in(tokens))?;
        push_function(alloc, kept, tokens, out)
    } else if is_global(tokens) {
        let kept = kept_named(alloc, original, at(tokens, 0))?;
        push_global(alloc, kept, tokens, out)
    } else {
        copied(alloc, tokens, out)
    }
}

/// The lines that name the machine.
fn push_targets(alloc: Global, original: &[u8], out: &mut Vec<u8>) -> Result<(), AllocError>
    ensures { OnOk result (out.new.items ≡ out.old.items ++ spec.target_lines (lines original.now)) }
{
    let mut rest = original;
    while !rest.is_empty() {
        let (line, behind) = first_line(rest);
        let listed = tokens_of(alloc, line)?;
        if is_at(listed.tokens.as_slice(), 0, b"target") {
            push_line(listed.tokens.as_slice(), out)?;
        }
        rest = behind;
    }
    Ok(())
}

fn push_lowered(
    alloc: Global,
    original: &Original,
    tokens: &[Text],
    out: &mut Vec<u8>,
) -> Result<(), AllocError>
    ensures { OnOk result (out.new.items ≡ out.old.items ++ spec.written_line original.now.all tokens.now) }
{
    let renamed = all_renamed(alloc, tokens)?;
    let mut line = Items::new(alloc);
    push_dressed(alloc, original, renamed.as_slice(), &mut line)?;
    push_line(line.as_slice(), out)
}

/// The original's machine, and the lowered lines with what is kept of the original's functions and globals (LLVM
/// Language Reference, "Data Layout", "Target Triple", "Linkage Types" and "Parameter Attributes").
#[tactic(auto, using(crate::proofs::Lines::line_stop))]
pub fn to_clang(alloc: Global, original: &[u8], lowered: &[u8]) -> Result<Writing, AllocError>
    ensures { IfOk result (λ r. r ≡ spec.to_clang original.now lowered.now) }
{
    let kept = original_of(alloc, original)?;
    let mut out = Vec::new(alloc);
    push_targets(alloc, original, &mut out)?;
    let mut number: u64 = 1;
    let mut rest = lowered;
    while !rest.is_empty() {
        let (line, behind) = first_line(rest);
        let listed = tokens_of(alloc, line)?;
        if !listed.whole {
            return Ok(Writing::NoToken(number));
        }
        push_lowered(alloc, &kept, listed.tokens.as_slice(), &mut out)?;
        number += 1;
        rest = behind;
    }
    Ok(Writing::Written(Items::from_vec(out)))
}
