//! The sides of groups on which fields are. The promise and the index are on the one side of a group, and all fields on its other
//! side; the same of the slots that conflict with all slots, and all slots; and of the values that cross a suspend, and these
//! values and the slots that may be alive there.

ghost use Rattle.std.specs.Prelude.{◌≡◌, ◌+◌, ◌++◌, ◌∷◌, [], IfOk, OnOk, if◌then◌else◌, map};
ghost use Rattle.frame_layout.specs.Conflicts.{is_apart as is_apart_kind};
ghost use Rattle.frame_layout.specs.Sides.{all_pairs, apart_pairs, one_pairs as ones_of, other_pairs as others_of};

use crate::layout::Field;
use crate::marks::is_apart;
use ir_base::SuspendId;
use std::alloc::{AllocError, Global};

/// The group that keeps the promise and the index apart from all fields.
const APART: usize = 0;

/// The group that keeps slots apart from all slots.
const SLOTS: usize = 1;

/// The groups of the suspends begin there.
const SUSPENDS: usize = 2;

fn push_if(
    pairs: &mut Vec<(usize, usize)>,
    holds: bool,
    k: usize,
    group: usize,
) -> Result<(), AllocError>
    ensures { OnOk result (pairs.new.items ≡ pairs.old.items ++ (if holds then (k, group) ∷ [] else [])) }
{
    if holds {
        pairs.push((k, group))?;
    }
    Ok(())
}

/// The fields that share bytes with none.
fn push_apart(pairs: &mut Vec<(usize, usize)>, fields: &[Field]) -> Result<(), AllocError>
    ensures { OnOk result (pairs.new.items ≡ pairs.old.items ++ apart_pairs 0 fields.now) }
{
    let mut k: usize = 0;
    for field in fields {
        push_if(pairs, is_apart(field.kind), k, APART)?;
        match k.checked_add(1) {
            Some(next) => k = next,
            None => return Err(AllocError),
        }
    }
    Ok(())
}

/// All fields.
fn push_all(pairs: &mut Vec<(usize, usize)>, fields: &[Field]) -> Result<(), AllocError>
    ensures { OnOk result (pairs.new.items ≡ pairs.old.items ++ all_pairs 0 fields.now) }
{
    let mut k: usize = 0;
    for _field in fields {
        push_if(pairs, true, k, APART)?;
        match k.checked_add(1) {
            Some(next) => k = next,
            None => return Err(AllocError),
        }
    }
    Ok(())
}

fn push_slots(pairs: &mut Vec<(usize, usize)>, slots: &[usize]) -> Result<(), AllocError>
    ensures { OnOk result (pairs.new.items ≡ pairs.old.items ++ map (λ k. (k, 1)) slots.now) }
{
    for k in slots {
        pairs.push((*k, SLOTS))?;
    }
    Ok(())
}

fn push_suspends(
    pairs: &mut Vec<(usize, usize)>,
    at: &[(usize, SuspendId)],
) -> Result<(), AllocError>
    ensures { OnOk result (pairs.new.items ≡ pairs.old.items ++ map (λ p. (p.0, p.1 + 2)) at.now) }
{
    for pair in at {
        match pair.1.checked_add(SUSPENDS) {
            Some(group) => pairs.push((pair.0, group))?,
            None => return Err(AllocError),
        }
    }
    Ok(())
}

/// The fields on the one side of groups, each with its group.
pub(crate) fn one_pairs(
    alloc: Global,
    fields: &[Field],
    crossing: &[(usize, SuspendId)],
    wide: &[usize],
) -> Result<Vec<(usize, usize)>, AllocError>
    ensures { IfOk result (λ pairs. pairs.items ≡ ones_of fields.now crossing.now wide.now) }
{
    let mut pairs = Vec::new(alloc);
    push_apart(&mut pairs, fields)?;
    push_slots(&mut pairs, wide)?;
    push_suspends(&mut pairs, crossing)?;
    Ok(pairs)
}

/// The fields on the other side.
pub(crate) fn other_pairs(
    alloc: Global,
    fields: &[Field],
    crossing: &[(usize, SuspendId)],
    alive_at: &[(usize, SuspendId)],
    slots: &[usize],
) -> Result<Vec<(usize, usize)>, AllocError>
    ensures { IfOk result (λ pairs. pairs.items ≡ others_of fields.now crossing.now alive_at.now slots.now) }
{
    let mut pairs = Vec::new(alloc);
    push_all(&mut pairs, fields)?;
    push_slots(&mut pairs, slots)?;
    push_suspends(&mut pairs, crossing)?;
    push_suspends(&mut pairs, alive_at)?;
    Ok(pairs)
}
