//! Phis and the edges into their blocks.

ghost use Rattle.std.specs.Prelude.{◌≡◌, ◌==◌, ℕ, IfOk, not};
ghost use Rattle.std.specs.List.{list_all, list_any};
ghost use Rattle.rule_phis.specs.Operands.{same_operand};
ghost use Rattle.rule_phis.specs.Edges.{has, is_empty, differs, incoming_labels, fits_edges, into_block, block_at, is_entry, breaks_by, first_wrong_edge as first_wrong_edge_of};
ghost use Rattle.rule_phis.specs.Mentions.{FindsNumbers, differs_at, sources_at};

use crate::numbers::{NumberTable, find, numbers_of};
use crate::sources::{Sources, sources_of};
use ir_base::{BlockId, Data, FuncId, Place};
use ir_model::{Block, Function, Incoming, Instr, Operand, Phi, Terminator};
use ir_parts::{FunctionRule, first_part};
use std::alloc::{AllocError, Global};

/// Phis whose labels aren't the predecessors of their blocks, and an entry block with a predecessor (rule F1).
#[derive(Drop)]
struct WrongEdges<'a> {
    alloc: Global,
    function: &'a Function,
    sources: Sources,
}

fn is_same_operand(a: &Operand, b: &Operand) -> bool
    ensures { result ≡ same_operand a.now b.now }
{
    a.is_same(b)
}

fn is_empty(numbers: &[usize]) -> bool
    ensures { result ≡ is_empty numbers.now }
{
    matches!(numbers, [])
}

/// Whether a label is one of these, by the table of their firsts.
fn is_label(table: &NumberTable, incoming: &[Incoming], label: usize) -> bool
    requires { FindsNumbers (λ i. i.from) incoming.now table.now }
    ensures { result ≡ has (incoming_labels incoming.now) label }
{
    find(table, label).is_some()
}

/// Whether a number is one of these, by the table of their firsts.
fn is_among(table: &NumberTable, numbers: &[usize], number: usize) -> bool
    requires { FindsNumbers (λ n. n) numbers.now table.now }
    ensures { result ≡ has numbers.now number }
{
    find(table, number).is_some()
}

/// Whether all of the numbers are labels.
fn all_labels(table: &NumberTable, incoming: &[Incoming], numbers: &[usize]) -> bool
    requires { FindsNumbers (λ i. i.from) incoming.now table.now }
    ensures { result ≡ list_all (has (incoming_labels incoming.now)) numbers.now }
{
    for number in numbers {
        if !is_label(table, incoming, *number) {
            return false;
        }
    }
    true
}

/// Whether all labels are among the numbers.
fn all_among(table: &NumberTable, numbers: &[usize], incoming: &[Incoming]) -> bool
    requires { FindsNumbers (λ n. n) numbers.now table.now }
    ensures { result ≡ list_all (has numbers.now) (incoming_labels incoming.now) }
{
    for one in incoming {
        if !is_among(table, numbers, one.from) {
            return false;
        }
    }
    true
}

fn differs_at(incoming: &[Incoming], at: Option<usize>, one: &Incoming) -> bool
    ensures { result ≡ differs_at incoming.now at one.now }
{
    match at {
        None => false,
        Some(at) => match incoming.get(at) {
            None => false,
            Some(first) => !is_same_operand(&first.value, &one.value),
        },
    }
}

/// Whether the one differs from the first with its label.
fn differs(table: &NumberTable, incoming: &[Incoming], one: &Incoming) -> bool
    requires { FindsNumbers (λ i. i.from) incoming.now table.now }
    ensures { result ≡ differs incoming.now one.now }
{
    differs_at(incoming, find(table, one.from), one)
}

fn any_differs(table: &NumberTable, incoming: &[Incoming]) -> bool
    requires { FindsNumbers (λ i. i.from) incoming.now table.now }
    ensures { result ≡ list_any (differs incoming.now) incoming.now }
{
    for one in incoming {
        if differs(table, incoming, one) {
            return true;
        }
    }
    false
}

fn fits_edges(alloc: Global, labels: &[usize], incoming: &[Incoming]) -> Result<bool, AllocError>
    ensures { IfOk result (λ b. b ≡ fits_edges labels.now incoming.now) }
{
    let firsts = numbers_of(alloc, incoming)?;
    if !all_labels(&firsts, incoming, labels) {
        return Ok(false);
    }
    let known = numbers_of(alloc, labels)?;
    Ok(all_among(&known, labels, incoming) && !any_differs(&firsts, incoming))
}

fn is_entry(block: Option<BlockId>) -> bool
    ensures { result ≡ is_entry block }
{
    match block {
        None => false,
        Some(block) => block == 0,
    }
}

impl WrongEdges<'_> {
    /// The labels of the blocks from which an edge leads to the block at a position.
    fn into_block(&self, block: Option<BlockId>) -> &[usize]
        ensures { result.now ≡ into_block (sources_at self.now.sources) (block_at self.now.function.now block) }
    {
        match block {
            None => &[],
            Some(block) => match self.function.blocks.get(block) {
                None => &[],
                Some(block) => self.sources.list(block.label),
            },
        }
    }
}

impl FunctionRule for WrongEdges<'_> {
    ghost breaks = { λ r. breaks_by (sources_at r.sources) r.function.now };

    fn breaks_signature(&self, _place: Place, _function: &Function) -> Result<bool, AllocError> {
        Ok(false)
    }

    fn breaks_block(&self, place: Place, block: &Block) -> Result<bool, AllocError> {
        Ok(is_entry(place.block) && !is_empty(self.sources.list(block.label)))
    }

    fn breaks_phi(&self, place: Place, phi: &Phi) -> Result<bool, AllocError> {
        let labels = self.into_block(place.block);
        Ok(!fits_edges(self.alloc, labels, phi.incoming.as_slice())?)
    }

    fn breaks_instr(&self, _place: Place, _instr: &Instr) -> Result<bool, AllocError> {
        Ok(false)
    }

    fn breaks_ending(&self, _place: Place, _term: &Terminator) -> Result<bool, AllocError> {
        Ok(false)
    }
}

/// The entry block, where it has a predecessor, or else the first phi whose labels without repeats aren't the predecessors
/// of its block, or in which a label stands twice with different operands (rule F1).
pub fn first_wrong_edge(
    alloc: Global,
    func: FuncId,
    function: &Function,
) -> Result<Option<Place>, AllocError>
    ensures { IfOk result (λ p. p ≡ first_wrong_edge_of func function.now) }
{
    let sources = sources_of(alloc, function)?;
    let rule = WrongEdges {
        alloc,
        function,
        sources,
    };
    let place = first_part(&rule, func, function)?;
    Ok(place)
}
