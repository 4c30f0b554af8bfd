//! Readers of lists, each a loop.

ghost use Rattle.std.specs.Prelude.{◌≡◌, [], ◌∷◌};
ghost use Rattle.text_reader.specs.Many.{after, many_at};
ghost use Rattle.text_reader.specs.Reading.{Gives};
ghost use Rattle.text_blocks.specs.Blocks.{begins_label, labelled_at};
ghost use Rattle.text_blocks.specs.Calls.{begins_comma, begins_instr, instr_line_at, next_arg_at};
ghost use Rattle.text_blocks.specs.Instrs.{begins_index, index_at};
ghost use Rattle.text_blocks.specs.Terminators.{begins_case, begins_incoming, begins_phi, case_at, next_incoming_at, phi_line_at};

use crate::blocks::{begins_label, labelled_of};
use crate::calls::{begins_comma, begins_instr, instr_line_of, next_arg_of};
use crate::instrs::{begins_index, index_of};
use crate::terminators::{
    begins_case, begins_incoming, begins_phi, case_of, next_incoming_of, phi_line_of,
};
use ir_alignments::NamedTypes;
use ir_base::{Items, Short};
use ir_model::{Arg, Block, Case, Incoming, Instr, Phi};
use std::alloc::Global;
use text_reader::{Locals, ReadError};
use text_symbols::Sym;

/// The first index and those that follow.
#[tactic(auto, using(crate::proofs::ListTurns::indices_turn, crate::proofs::ListTurns::indices_done, crate::proofs::ListTurns::indices_fault, crate::proofs::ListTurns::indices_stuck))]
pub fn indices_behind<'a>(
    alloc: Global,
    names: &mut Locals,
    first: Arg,
    symbols: &'a [Sym],
) -> Result<(Short<Arg>, &'a [Sym]), ReadError>
    ensures { Gives (λ x. (x.0, names.new, x.1.now)) result (after (first ∷ []) (many_at begins_index index_at names.old symbols.entry.now)) }
{
    let mut all = Short::new(alloc);
    all.push(first)?;
    let mut rest = symbols;
    while begins_index(rest) {
        let (next, after) = index_of(alloc, names, rest)?;
        if after.len() >= rest.len() {
            return Err(ReadError::Syntax);
        }
        all.push(next)?;
        rest = after;
    }
    Ok((all, rest))
}

/// The first argument and those that follow.
#[tactic(auto, using(crate::proofs::ListTurns::args_turn, crate::proofs::ListTurns::args_done, crate::proofs::ListTurns::args_fault, crate::proofs::ListTurns::args_stuck))]
pub fn args_behind<'a>(
    alloc: Global,
    names: &mut Locals,
    first: Arg,
    symbols: &'a [Sym],
) -> Result<(Short<Arg>, &'a [Sym]), ReadError>
    ensures { Gives (λ x. (x.0, names.new, x.1.now)) result (after (first ∷ []) (many_at begins_comma next_arg_at names.old symbols.entry.now)) }
{
    let mut all = Short::new(alloc);
    all.push(first)?;
    let mut rest = symbols;
    while begins_comma(rest) {
        let (next, after) = next_arg_of(alloc, names, rest)?;
        if after.len() >= rest.len() {
            return Err(ReadError::Syntax);
        }
        all.push(next)?;
        rest = after;
    }
    Ok((all, rest))
}

/// The first value of a phi and those that follow.
#[tactic(auto, using(crate::proofs::ListTurns::incomings_turn, crate::proofs::ListTurns::incomings_done, crate::proofs::ListTurns::incomings_fault, crate::proofs::ListTurns::incomings_stuck))]
pub fn incomings_behind<'a>(
    alloc: Global,
    names: &mut Locals,
    first: Incoming,
    symbols: &'a [Sym],
) -> Result<(Items<Incoming>, &'a [Sym]), ReadError>
    ensures { Gives (λ x. (x.0, names.new, x.1.now)) result (after (first ∷ []) (many_at begins_incoming next_incoming_at names.old symbols.entry.now)) }
{
    let mut all = Items::new(alloc);
    all.push(first)?;
    let mut rest = symbols;
    while begins_incoming(rest) {
        let (next, after) = next_incoming_of(alloc, names, rest)?;
        if after.len() >= rest.len() {
            return Err(ReadError::Syntax);
        }
        all.push(next)?;
        rest = after;
    }
    Ok((all, rest))
}

/// All phis.
#[tactic(auto, using(crate::proofs::ListTurns::phis_turn, crate::proofs::ListTurns::phis_done, crate::proofs::ListTurns::phis_fault, crate::proofs::ListTurns::phis_stuck, crate::proofs::ListTurns::phis_begun))]
pub fn phis_of<'a>(
    alloc: Global,
    names: &mut Locals,
    symbols: &'a [Sym],
) -> Result<(Items<Phi>, &'a [Sym]), ReadError>
    ensures { Gives (λ x. (x.0, names.new, x.1.now)) result (many_at begins_phi phi_line_at names.old symbols.entry.now) }
{
    let mut all = Items::new(alloc);
    let mut rest = symbols;
    while begins_phi(rest) {
        let (next, after) = phi_line_of(alloc, names, rest)?;
        if after.len() >= rest.len() {
            return Err(ReadError::Syntax);
        }
        all.push(next)?;
        rest = after;
    }
    Ok((all, rest))
}

/// All instructions up to the terminator.
#[tactic(auto, using(crate::proofs::ListTurns::instrs_turn, crate::proofs::ListTurns::instrs_done, crate::proofs::ListTurns::instrs_fault, crate::proofs::ListTurns::instrs_stuck, crate::proofs::ListTurns::instrs_begun))]
pub fn instrs_of<'a>(
    alloc: Global,
    types: &NamedTypes,
    names: &mut Locals,
    symbols: &'a [Sym],
) -> Result<(Items<Instr>, &'a [Sym]), ReadError>
    ensures { Gives (λ x. (x.0, names.new, x.1.now)) result (many_at begins_instr (instr_line_at types.now) names.old symbols.entry.now) }
{
    let mut all = Items::new(alloc);
    let mut rest = symbols;
    while begins_instr(rest) {
        let (next, after) = instr_line_of(alloc, types, names, rest)?;
        if after.len() >= rest.len() {
            return Err(ReadError::Syntax);
        }
        all.push(next)?;
        rest = after;
    }
    Ok((all, rest))
}

/// All values of a switch.
#[tactic(auto, using(crate::proofs::ListTurns::cases_turn, crate::proofs::ListTurns::cases_done, crate::proofs::ListTurns::cases_fault, crate::proofs::ListTurns::cases_stuck, crate::proofs::ListTurns::cases_begun))]
pub fn cases_of<'a>(
    alloc: Global,
    names: &mut Locals,
    symbols: &'a [Sym],
) -> Result<(Items<Case>, &'a [Sym]), ReadError>
    ensures { Gives (λ x. (x.0, names.new, x.1.now)) result (many_at begins_case case_at names.old symbols.entry.now) }
{
    let mut all = Items::new(alloc);
    let mut rest = symbols;
    while begins_case(rest) {
        let (next, after) = case_of(alloc, names, rest)?;
        if after.len() >= rest.len() {
            return Err(ReadError::Syntax);
        }
        all.push(next)?;
        rest = after;
    }
    Ok((all, rest))
}

/// The first block and those that follow.
#[tactic(auto, using(crate::proofs::ListTurns::blocks_turn, crate::proofs::ListTurns::blocks_done, crate::proofs::ListTurns::blocks_fault, crate::proofs::ListTurns::blocks_stuck))]
pub fn blocks_behind<'a>(
    alloc: Global,
    types: &NamedTypes,
    names: &mut Locals,
    first: Block,
    symbols: &'a [Sym],
) -> Result<(Items<Block>, &'a [Sym]), ReadError>
    ensures { Gives (λ x. (x.0, names.new, x.1.now)) result (after (first ∷ []) (many_at begins_label (labelled_at types.now) names.old symbols.entry.now)) }
{
    let mut all = Items::new(alloc);
    all.push(first)?;
    let mut rest = symbols;
    while begins_label(rest) {
        let (next, after) = labelled_of(alloc, types, names, rest)?;
        if after.len() >= rest.len() {
            return Err(ReadError::Syntax);
        }
        all.push(next)?;
        rest = after;
    }
    Ok((all, rest))
}
