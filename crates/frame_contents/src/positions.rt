//! The positions of fields.

ghost use Rattle.std.specs.Prelude.{◌≡◌, ◌==◌, ◌++◌, ℕ, None, Option, Some, IfOk, OnOk, get_or, if◌then◌else◌, map, option_to_list};
ghost use Rattle.frame_contents.specs.Frames.{ArePositions};
ghost use Rattle.frame_contents.specs.Held.{at_fields as at_fields_by, both_at_fields as both_at_fields_by, both_with, field_positions as field_positions_by, pair_with};
ghost use Rattle.frame_contents.specs.Tables.{first_some};

use crate::held::Holding;
use ir_base::{Items, ValueId};
use std::alloc::{AllocError, Global};

/// Gives a name a position, unless it has one. There is no room for a name past the last.
fn note(table: &mut Items<Option<usize>>, name: ValueId, position: usize) -> Result<(), AllocError>
    ensures { OnOk result ((v : ℕ) → get_or table.new v None ≡ first_some (get_or table.old v None) (if name == v then Some position else None)) }
{
    match table.get(name) {
        None => Err(AllocError),
        Some(Some(_)) => Ok(()),
        Some(None) => {
            table.set(name, Some(position));
            Ok(())
        }
    }
}

/// For each name of a function the position of its field, where it has one.
pub(crate) fn positions_of(
    alloc: Global,
    names: usize,
    held: &[Holding],
) -> Result<Items<Option<usize>>, AllocError>
    ensures { IfOk result (λ table. ArePositions held.now table) }
{
    let mut table = Items::from_vec(Vec::from_elem(alloc, None, names)?);
    for k in 0..held.len() {
        note(&mut table, held[k].value, k)?;
    }
    Ok(table)
}

/// The position in a table, where there is one.
fn position_in(table: &[Option<usize>], at: usize) -> Option<usize>
    ensures { result ≡ get_or table.now at None }
{
    match table.get(at) {
        None => None,
        Some(position) => *position,
    }
}

/// For each alloca the position of its field, where it has one.
pub(crate) fn slot_positions(
    alloc: Global,
    table: &[Option<usize>],
    allocas: &[ValueId],
) -> Result<Vec<Option<usize>>, AllocError>
    ensures { IfOk result (λ positions. positions.items ≡ map (λ v. get_or table.now v None) allocas.now) }
{
    let mut positions = Vec::new(alloc);
    for slot in allocas {
        positions.push(position_in(table, *slot))?;
    }
    Ok(positions)
}

fn push_if(all: &mut Vec<usize>, position: Option<usize>) -> Result<(), AllocError>
    ensures { OnOk result (all.new.items ≡ all.old.items ++ option_to_list position) }
{
    match position {
        None => Ok(()),
        Some(position) => {
            all.push(position)?;
            Ok(())
        }
    }
}

/// The positions of the fields of these.
pub(crate) fn field_positions(
    alloc: Global,
    table: &[Option<usize>],
    numbers: &[usize],
) -> Result<Vec<usize>, AllocError>
    ensures { IfOk result (λ all. all.items ≡ field_positions_by (λ v. get_or table.now v None) numbers.now) }
{
    let mut all = Vec::new(alloc);
    for number in numbers {
        push_if(&mut all, position_in(table, *number))?;
    }
    Ok(all)
}

fn push_pair(
    all: &mut Vec<(usize, usize)>,
    first: Option<usize>,
    second: usize,
) -> Result<(), AllocError>
    ensures { OnOk result (all.new.items ≡ all.old.items ++ pair_with first second) }
{
    match first {
        None => Ok(()),
        Some(first) => {
            all.push((first, second))?;
            Ok(())
        }
    }
}

fn push_both(
    all: &mut Vec<(usize, usize)>,
    first: Option<usize>,
    second: Option<usize>,
) -> Result<(), AllocError>
    ensures { OnOk result (all.new.items ≡ all.old.items ++ both_with first second) }
{
    match first {
        None => Ok(()),
        Some(_) => match second {
            None => Ok(()),
            Some(second) => push_pair(all, first, second),
        },
    }
}

/// The pairs with positions of fields for what stands first in them.
pub(crate) fn at_fields(
    alloc: Global,
    table: &[Option<usize>],
    pairs: &[(usize, usize)],
) -> Result<Vec<(usize, usize)>, AllocError>
    ensures { IfOk result (λ all. all.items ≡ at_fields_by (λ v. get_or table.now v None) pairs.now) }
{
    let mut all = Vec::new(alloc);
    for pair in pairs {
        push_pair(&mut all, position_in(table, pair.0), pair.1)?;
    }
    Ok(all)
}

/// The pairs with positions of fields for both.
pub(crate) fn both_at_fields(
    alloc: Global,
    table: &[Option<usize>],
    pairs: &[(usize, usize)],
) -> Result<Vec<(usize, usize)>, AllocError>
    ensures { IfOk result (λ all. all.items ≡ both_at_fields_by (λ v. get_or table.now v None) pairs.now) }
{
    let mut all = Vec::new(alloc);
    for pair in pairs {
        push_both(
            &mut all,
            position_in(table, pair.0),
            position_in(table, pair.1),
        )?;
    }
    Ok(all)
}
