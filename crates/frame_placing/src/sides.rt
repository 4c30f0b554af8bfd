//! The bytes of fields that are placed: of a list of fields, and of those on the sides of groups.

ghost use Rattle.std.specs.Prelude.{◌≡◌, ℕ, ◌<◌, ◌≤◌, ◌+◌, ◌++◌, ◌∷◌, [], ◌^◌, IfOk, OnOk, get_or, length, map, slice_index};
ghost use Rattle.std.specs.List.{Contains};
ghost use Rattle.frame_placing.specs.Bars.{AreBars, IsMore};
ghost use Rattle.frame_placing.specs.Groups.{AreAllBars, AreMoreAt, CoverTaken, bars_of_groups};
ghost use Rattle.frame_placing.specs.Rooms.{size_at};
ghost use Rattle.frame_placing.specs.Steps.{CoverFields};

use crate::bars::{Bar, add};
use crate::room::{Room, size_at};
use ir_base::Items;
use std::alloc::{AllocError, Global};

/// The bytes of these fields, in order of their starts.
fn bars_of(
    alloc: Global,
    rooms: &[Room],
    offsets: &[u64],
    fields: &[usize],
) -> Result<Vec<Bar>, AllocError>
    requires { (j : ℕ) → Contains fields.now j → (j < length offsets.now) × (slice_index offsets.now j + size_at rooms.now j ≤ 2 ^ 24) }
    ensures { IfOk result (λ bars. CoverFields rooms.now offsets.now fields.now bars.items) }
{
    let mut bars = Vec::new(alloc);
    for k in fields {
        let size = size_at(rooms, *k);
        let start = offsets[*k];
        if size > 0 {
            bars.push(Bar {
                start,
                end: start + size,
            })?;
        }
    }
    bars.sort_unstable_by_key(|bar| bar.start);
    Ok(bars)
}

/// Covers the bytes of a field.
pub(crate) fn add_field(bars: &mut Vec<Bar>, offset: u64, size: u64) -> Result<(), AllocError>
    requires bars { AreBars bars.old.items }
    requires fits { offset + size ≤ 2 ^ 24 }
    ensures { OnOk result (IsMore bars.old.items (record { start = offset; end = offset + size }) bars.new.items) }
{
    if size == 0 {
        return Ok(());
    }
    let end = offset + size;
    add(bars, Bar { start: offset, end })
}

// ---- groups

/// The groups of a field on a side.
pub(crate) fn groups_of(side: &[Items<usize>], k: usize) -> &[usize]
    ensures { result.now ≡ get_or side.now k [] }
{
    match side.get(k) {
        None => &[],
        Some(groups) => groups.as_slice(),
    }
}

fn bars_at(side: &[Vec<Bar>], group: usize) -> &[Bar]
    ensures { result.now ≡ get_or (map (λ bars. bars.items) side.now) group [] }
{
    match side.get(group) {
        None => &[],
        Some(bars) => bars.as_slice(),
    }
}

/// Adds groups without bars up to a group.
fn grow(alloc: Global, side: &mut Vec<Vec<Bar>>, group: usize) -> Result<(), AllocError>
    ensures same { OnOk result ((g : ℕ) → get_or (map (λ bars. bars.items) side.new.items) g [] ≡ get_or (map (λ bars. bars.items) side.old.items) g []) }
    ensures long { OnOk result (group < length side.new.items) }
{
    while side.len() <= group {
        side.push(Vec::new(alloc))?;
    }
    Ok(())
}

/// Covers the bytes of a field in a group.
fn add_at(side: &mut Vec<Vec<Bar>>, group: usize, offset: u64, size: u64) -> Result<(), AllocError>
    requires within { group < length side.old.items }
    requires bars { AreAllBars (map (λ bars. bars.items) side.old.items) }
    requires fits { offset + size ≤ 2 ^ 24 }
    ensures { OnOk result (AreMoreAt (map (λ bars. bars.items) side.old.items) (group ∷ []) (record { start = offset; end = offset + size }) (map (λ bars. bars.items) side.new.items)) }
{
    add_field(&mut side[group], offset, size)?;
    Ok(())
}

/// Covers the bytes of a field in each of its groups.
pub(crate) fn add_to(
    alloc: Global,
    side: &mut Vec<Vec<Bar>>,
    groups: &[usize],
    offset: u64,
    size: u64,
) -> Result<(), AllocError>
    requires bars { AreAllBars (map (λ bars. bars.items) side.old.items) }
    requires fits { offset + size ≤ 2 ^ 24 }
    ensures { OnOk result (AreMoreAt (map (λ bars. bars.items) side.old.items) groups.now (record { start = offset; end = offset + size }) (map (λ bars. bars.items) side.new.items)) }
{
    for group in groups {
        grow(alloc, side, *group)?;
        add_at(side, *group, offset, size)?;
    }
    Ok(())
}

fn push_groups(bars: &mut Vec<Bar>, side: &[Vec<Bar>], groups: &[usize]) -> Result<(), AllocError>
    ensures { OnOk result (bars.new.items ≡ bars.old.items ++ bars_of_groups (map (λ bars. bars.items) side.now) groups.now) }
{
    for group in groups {
        bars.extend_from_slice(bars_at(side, *group))?;
    }
    Ok(())
}

/// The bytes of these fields, and of those on the other side of each group of a field, in order of their starts.
pub(crate) fn taken_bars(
    alloc: Global,
    rooms: &[Room],
    offsets: &[u64],
    fields: &[usize],
    ones: &[Vec<Bar>],
    others: &[Vec<Bar>],
    one: &[usize],
    other: &[usize],
) -> Result<Vec<Bar>, AllocError>
    requires fields { (j : ℕ) → Contains fields.now j → (j < length offsets.now) × (slice_index offsets.now j + size_at rooms.now j ≤ 2 ^ 24) }
    requires ones { AreAllBars (map (λ bars. bars.items) ones.now) }
    requires others { AreAllBars (map (λ bars. bars.items) others.now) }
    ensures { IfOk result (λ bars. CoverTaken rooms.now offsets.now fields.now (map (λ bars. bars.items) ones.now) (map (λ bars. bars.items) others.now) one.now other.now bars.items) }
{
    let mut bars = bars_of(alloc, rooms, offsets, fields)?;
    push_groups(&mut bars, others, one)?;
    push_groups(&mut bars, ones, other)?;
    bars.sort_unstable_by_key(|bar| bar.start);
    Ok(bars)
}
