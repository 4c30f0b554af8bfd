//! The predecessors of the blocks of a function.

ghost use Rattle.std.specs.Prelude.{◌≡◌, ◌||◌, ◌∷◌, [], ℕ, IfOk, OnOk, IsTrue, map};
ghost use Rattle.std.specs.List.{list_any};
ghost use Rattle.ir_parts.specs.Contents.{ending_labels};
ghost use Rattle.rule_phis.specs.Edges.{has, predecessors};
ghost use Rattle.rule_phis.specs.Mentions.{sources_at, is_edge, case_edge, edges_from};

use ir_base::{Items, ValueId};
use ir_model::{Block, Case, Function, Terminator};
use std::alloc::{AllocError, Global};

/// Beside each label the labels of the blocks from which an edge leads to it.
#[derive(Drop)]
pub struct Sources {
    lists: Vec<Items<usize>>,
}

impl Sources {
    /// No edges, with room for so many names.
    fn new(alloc: Global, names: usize) -> Result<Sources, AllocError>
        ensures { IfOk result (λ s. (k : ℕ) → sources_at s k ≡ []) }
    {
        let mut lists = Vec::new(alloc);
        for _at in 0..names {
            lists.push(Items::new(alloc))?;
        }
        Ok(Sources { lists })
    }

    /// The labels beside a label.
    pub fn list(&self, label: ValueId) -> &[usize]
        ensures { result.now ≡ sources_at self.now label }
    {
        match self.lists.get(label) {
            None => &[],
            Some(list) => list.as_slice(),
        }
    }

    /// Notes an edge. There is no room for a label that is beyond the names.
    fn note(&mut self, from: ValueId, label: ValueId) -> Result<(), AllocError>
        ensures { OnOk result ((k n : ℕ) → has (sources_at self.new k) n ≡ (is_edge from label k n || has (sources_at self.old k) n)) }
    {
        if label >= self.lists.len() {
            return Err(AllocError);
        }
        if is_last(self.list(label), from) {
            return Ok(());
        }
        self.lists[label].push(from)?;
        Ok(())
    }
}

/// Whether a number is the last of some.
fn is_last(numbers: &[usize], number: usize) -> bool
    ensures { IsTrue result → IsTrue (has numbers.now number) }
{
    match numbers {
        [] => false,
        [.., last] => *last == number,
    }
}

fn note_cases(sources: &mut Sources, from: ValueId, cases: &[Case]) -> Result<(), AllocError>
    ensures { OnOk result ((k n : ℕ) → has (sources_at sources.new k) n ≡ (list_any (case_edge from k n) cases.now || has (sources_at sources.old k) n)) }
{
    for case in cases {
        sources.note(from, case.target)?;
    }
    Ok(())
}

fn note_switch(
    sources: &mut Sources,
    from: ValueId,
    default: ValueId,
    cases: &[Case],
) -> Result<(), AllocError>
    ensures { OnOk result ((k n : ℕ) → has (sources_at sources.new k) n ≡ (list_any (λ l. is_edge from l k n) (default ∷ map (λ c. c.target) cases.now) || has (sources_at sources.old k) n)) }
{
    sources.note(from, default)?;
    note_cases(sources, from, cases)?;
    Ok(())
}

/// Notes the edges of a terminator.
fn note_ending(sources: &mut Sources, from: ValueId, term: &Terminator) -> Result<(), AllocError>
    ensures { OnOk result ((k n : ℕ) → has (sources_at sources.new k) n ≡ (list_any (λ l. is_edge from l k n) (ending_labels term.now) || has (sources_at sources.old k) n)) }
{
    match term {
        Terminator::Jump(label) => sources.note(from, *label),
        Terminator::Branch { yes, no, .. } => {
            sources.note(from, *yes)?;
            sources.note(from, *no)
        }
        Terminator::Switch { default, cases, .. } => {
            note_switch(sources, from, *default, cases.as_slice())
        }
        Terminator::Ret(_) | Terminator::Unreachable => Ok(()),
    }
}

fn note_blocks(sources: &mut Sources, blocks: &[Block]) -> Result<(), AllocError>
    ensures { OnOk result ((k n : ℕ) → has (sources_at sources.new k) n ≡ (list_any (λ b. edges_from b k n) blocks.now || has (sources_at sources.old k) n)) }
{
    for block in blocks {
        note_ending(sources, block.label, &block.term)?;
    }
    Ok(())
}

/// Beside each label the labels of the blocks from which an edge leads to it.
pub fn sources_of(alloc: Global, function: &Function) -> Result<Sources, AllocError>
    ensures { IfOk result (λ s. (k n : ℕ) → has (sources_at s k) n ≡ has (predecessors function.now k) n) }
{
    let mut sources = Sources::new(alloc, function.names.len())?;
    note_blocks(&mut sources, function.blocks.as_slice())?;
    Ok(sources)
}
