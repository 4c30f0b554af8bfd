//! The bitcasts of a function, and what stands for their results (LLVM Language Reference, "bitcast .. to").

ghost use Rattle.std.specs.Prelude.{◌≡◌, ◌++◌, IfOk, OnOk};
ghost use Rattle.clang_tokens.specs.Lines.{lines};
ghost use Rattle.ir_tables.specs.Tables.{FindsFirst};
ghost use Rattle.ir_model.specs.Names.{first_where, same_name};
ghost use Rattle.clang_reader.specs.Bitcasts as spec;

use crate::form::is_bitcast;
use crate::plain::plain;
use clang_tokens::{at, first_line, is_at, tokens_of};
use ir_base::{Data, Items, Name, Text};
use ir_tables::{NameTable, Named, find, table_of};
use std::alloc::{AllocError, Global};

/// A bitcast of a pointer to a pointer (LLVM Language Reference, "bitcast .. to").
#[derive(Debug, Drop)]
pub struct Bitcast {
    /// The result's name, as it is spelled.
    pub name: Name,
    /// The operand, as it is spelled.
    pub value: Text,
}

impl Named for Bitcast {
    ghost called = { λ b. b.name };

    fn name(&self) -> &Name {
        &self.name
    }
}

/// The bitcasts of a function, by the names of their results.
#[derive(Drop)]
pub struct Bitcasts {
    pub all: Items<Bitcast>,
    table: NameTable,
    ghost first: { FindsFirst (λ b. b.name) all table },
}

fn tabled(alloc: Global, all: Items<Bitcast>) -> Result<Bitcasts, AllocError>
    ensures { IfOk result (λ b. b.all ≡ all) }
{
    let table = table_of(alloc, all.as_slice())?;
    Ok(Bitcasts { all, table })
}

fn is_define(tokens: &[Text]) -> bool
    ensures { result ≡ spec.is_define tokens.now }
{
    is_at(tokens, 0, b"define")
}

fn push_bitcast(alloc: Global, tokens: &[Text], all: &mut Items<Bitcast>) -> Result<(), AllocError>
    ensures { OnOk result (all.new ≡ all.old ++ spec.bitcast_of tokens.now) }
{
    if is_bitcast(tokens) {
        all.push(Bitcast {
            name: Name::Text(Text::from_bytes(alloc, at(tokens, 0))?),
            value: Text::from_bytes(alloc, at(tokens, 4))?,
        })?;
    }
    Ok(())
}

/// The bitcasts on the lines up to the next on which a function begins.
#[tactic(auto, using(crate::proofs::Following::found_turn, crate::proofs::Following::found_stop, crate::proofs::Following::found_end))]
fn bitcasts_in(alloc: Global, text: &[u8]) -> Result<Items<Bitcast>, AllocError>
    ensures { IfOk result (λ r. r ≡ spec.bitcasts_in (lines text.now)) }
{
    let mut all = Items::new(alloc);
    let mut rest = text;
    while !rest.is_empty() {
        let (line, behind) = first_line(rest);
        let listed = tokens_of(alloc, line)?;
        if is_define(listed.tokens.as_slice()) {
            return Ok(all);
        }
        let plain = plain(alloc, listed.tokens.as_slice())?;
        push_bitcast(alloc, plain.as_slice(), &mut all)?;
        rest = behind;
    }
    Ok(all)
}

fn found(bitcasts: &Bitcasts, name: &Name) -> Option<usize>
    ensures { result ≡ first_where (λ b. same_name b.name name.now) bitcasts.now.all }
{
    find(&bitcasts.table, name)
}

/// Where the first bitcast with a result of this spelling stands.
fn place_of(alloc: Global, bitcasts: &Bitcasts, token: &[u8]) -> Result<Option<usize>, AllocError>
    ensures { IfOk result (λ r. r ≡ spec.place_of bitcasts.now.all token.now) }
{
    let name = Name::Text(Text::from_bytes(alloc, token)?);
    Ok(found(bitcasts, &name))
}

fn operand_at<'a>(all: &'a Items<Bitcast>, place: Option<usize>, token: &'a [u8]) -> &'a [u8]
    ensures { result.now ≡ spec.operand_at token.entry.now (spec.bitcast_at all.entry.now place) }
{
    match place {
        None => token,
        Some(i) => match all.get(i) {
            None => token,
            Some(bitcast) => bitcast.value.as_bytes(),
        },
    }
}

/// What stands for a token.
fn stands_for(alloc: Global, bitcasts: &Bitcasts, token: &[u8]) -> Result<Text, AllocError>
    ensures { IfOk result (λ r. r ≡ spec.stands_for bitcasts.now.all token.now) }
{
    let place = place_of(alloc, bitcasts, token)?;
    Text::from_bytes(alloc, operand_at(&bitcasts.all, place, token))
}

/// What stands for each token.
pub fn replaced(
    alloc: Global,
    bitcasts: &Bitcasts,
    tokens: &[Text],
) -> Result<Items<Text>, AllocError>
    ensures { IfOk result (λ r. r ≡ spec.replaced bitcasts.now.all tokens.now) }
{
    let mut out = Items::new(alloc);
    for token in tokens {
        out.push(stands_for(alloc, bitcasts, token.as_bytes())?)?;
    }
    Ok(out)
}

/// The bitcasts, with what stands for each operand in its place.
fn followed(alloc: Global, bitcasts: &Bitcasts) -> Result<Items<Bitcast>, AllocError>
    ensures { IfOk result (λ r. r ≡ spec.followed bitcasts.now.all bitcasts.now.all) }
{
    let mut out = Items::new(alloc);
    for bitcast in bitcasts.all.as_slice() {
        out.push(Bitcast {
            name: bitcast.name.copied(alloc)?,
            value: stands_for(alloc, bitcasts, bitcast.value.as_bytes())?,
        })?;
    }
    Ok(out)
}

/// Whether no operand is a bitcast's result.
fn is_settled(alloc: Global, bitcasts: &Bitcasts) -> Result<bool, AllocError>
    ensures { IfOk result (λ r. r ≡ spec.is_settled bitcasts.now.all bitcasts.now.all) }
{
    for bitcast in bitcasts.all.as_slice() {
        if place_of(alloc, bitcasts, bitcast.value.as_bytes())?.is_some() {
            return Ok(false);
        }
    }
    Ok(true)
}

/// The bitcasts on the lines up to the next on which a function begins, with chains of them followed.
#[tactic(auto, using(crate::proofs::Following::settled_early, crate::proofs::Following::settled_more, crate::proofs::Following::settled_last), unfolding(crate::specs::Bitcasts::bitcasts_of))]
pub fn bitcasts_of(alloc: Global, text: &[u8]) -> Result<Bitcasts, AllocError>
    ensures { IfOk result (λ b. b.all ≡ spec.bitcasts_of (lines text.now)) }
{
    let mut bitcasts = tabled(alloc, bitcasts_in(alloc, text)?)?;
    for _ in 0..24usize {
        if is_settled(alloc, &bitcasts)? {
            return Ok(bitcasts);
        }
        bitcasts = tabled(alloc, followed(alloc, &bitcasts)?)?;
    }
    Ok(bitcasts)
}

/// The bitcasts of the function in which a line with these tokens stands, or which begins there.
pub fn bitcasts_at(
    alloc: Global,
    bitcasts: Bitcasts,
    tokens: &[Text],
    behind: &[u8],
) -> Result<Bitcasts, AllocError>
    ensures { IfOk result (λ b. b.all ≡ spec.bitcasts_at bitcasts.all tokens.now (lines behind.now)) }
{
    if is_define(tokens) {
        bitcasts_of(alloc, behind)
    } else {
        Ok(bitcasts)
    }
}
