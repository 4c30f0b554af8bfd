//! The operands of a phi by their labels.

ghost use Rattle.std.specs.Prelude.{◌≡◌, ◌==◌, ℕ, IfOk, OnOk};
ghost use Rattle.indexmap.specs.IndexMap.{get};
ghost use Rattle.pass_edges.specs.EdgeBlocks.{operand_from};
ghost use Rattle.pass_edges.specs.Positions.{FindsFirst, operand_at, or_at};

use indexmap::IndexMap;
use ir_base::{Data, ValueId};
use ir_model::{Incoming, Operand};
use std::alloc::{AllocError, Global};

/// For each label the position of the first operand that has it.
pub type Positions = IndexMap<usize, usize>;

fn find(positions: &Positions, label: ValueId) -> Option<usize>
    ensures { result ≡ get ◌==◌ positions.now label }
{
    positions.get(&label).copied()
}

/// Puts a position beside a label that has none.
fn note(positions: &mut Positions, label: ValueId, at: usize) -> Result<(), AllocError>
    ensures { OnOk result ((n : ℕ) → get ◌==◌ positions.new n ≡ or_at (get ◌==◌ positions.old n) (label == n) at) }
{
    match find(positions, label) {
        Some(_) => Ok(()),
        None => {
            positions.insert(label, at)?;
            Ok(())
        }
    }
}

/// The positions of the first operands for each label.
pub fn positions_of(alloc: Global, incoming: &[Incoming]) -> Result<Positions, AllocError>
    ensures { IfOk result (λ p. FindsFirst incoming.now p) }
{
    let mut positions = IndexMap::new(alloc);
    for at in 0..incoming.len() {
        note(&mut positions, incoming[at].from, at)?;
    }
    Ok(positions)
}

fn operand_at(
    alloc: Global,
    incoming: &[Incoming],
    at: Option<usize>,
) -> Result<Option<Operand>, AllocError>
    ensures { IfOk result (λ o. o ≡ operand_at incoming.now at) }
{
    match at {
        None => Ok(None),
        Some(at) => match incoming.get(at) {
            None => Ok(None),
            Some(found) => Ok(Some(found.value.copied(alloc)?)),
        },
    }
}

/// The first operand for a label.
pub fn operand_from(
    alloc: Global,
    positions: &Positions,
    incoming: &[Incoming],
    label: ValueId,
) -> Result<Option<Operand>, AllocError>
    requires { FindsFirst incoming.now positions.now }
    ensures { IfOk result (λ o. o ≡ operand_from incoming.now label) }
{
    operand_at(alloc, incoming, find(positions, label))
}
