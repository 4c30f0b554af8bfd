//! Placing field by field in the order.

ghost use Rattle.std.specs.Prelude.{◌≡◌, ◌<◌, ◌≤◌, ◌^◌, ◌⊎◌, IfOk, MatchOption, Some, length, map, replicate, slice_get};
ghost use Rattle.frame_placing.specs.Bars.{AreBars, IsFloor};
ghost use Rattle.frame_placing.specs.Placed.{Always, AreKeptApart};
ghost use Rattle.frame_placing.specs.Rooms.{size_at};
ghost use Rattle.frame_placing.specs.Steps.{HasNoRoom, HasRoom, IsOrder, IsPlacedWithin, NoneWithin, placed_by};

use crate::bars::{Bar, least_offset};
use crate::earlier::earlier;
use crate::room::{Room, alignment_at, is_promise, size_at};
use crate::sides::{add_field, add_to, groups_of, taken_bars};
use ir_base::Items;
use std::alloc::{AllocError, Global};

/// Where the fields begin, behind the header.
const BEHIND_HEADER: u64 = 16;

fn zeros(alloc: Global, count: usize) -> Result<Items<u64>, AllocError>
    ensures { IfOk result (λ all. all ≡ replicate count 0) }
{
    Ok(Items::from_vec(vec![in alloc; 0; count]?))
}

/// The alignment by which a field is placed. The promise is the first, and stands behind the header whatever it needs.
fn placed_by(rooms: &[Room], promise: Option<usize>, k: usize) -> u64
    ensures { result ≡ placed_by rooms.now promise k }
{
    if is_promise(promise, k) {
        1
    } else {
        alignment_at(rooms, k)
    }
}

/// The least offset of a field beside the bars, which is none below `from`.
fn place_one(
    rooms: &[Room],
    promise: Option<usize>,
    bars: &[Bar],
    k: usize,
    from: u64,
    limit: u64,
) -> Option<u64>
    requires bars { AreBars bars.now }
    requires from { IsFloor bars.now (size_at rooms.now k) (placed_by rooms.now promise k) from }
    ensures { MatchOption result (HasNoRoom rooms.now promise bars.now k limit) (λ x. HasRoom rooms.now promise bars.now k limit x) }
{
    let align = placed_by(rooms, promise, k);
    least_offset(bars, size_at(rooms, k), align, from, limit)
}

/// What the field placed last needed, and where it stands.
#[derive(Clone, Copy, Drop)]
struct Last {
    size: u64,
    align: u64,
    offset: u64,
}

/// An offset below which none is free for a field: where the one before it stands, if that needed the same.
fn floor_for(last: Last, size: u64, align: u64) -> u64
    ensures { ((last.size ≡ size) × ((last.align ≡ align) × (result ≡ last.offset))) ⊎ (result ≡ 16) }
{
    if last.size == size && last.align == align {
        last.offset
    } else {
        BEHIND_HEADER
    }
}

fn row_at(rows: &[Vec<usize>], k: usize) -> &[usize]
    requires { k < length rows.now }
    ensures { slice_get (map (λ row. row.items) rows.now) k ≡ Some result.now }
{
    rows[k].as_slice()
}

/// The offsets where only fields in conflict bar each other's way. None where a field would end past the limit.
pub(crate) fn place_beside(
    alloc: Global,
    rooms: &[Room],
    promise: Option<usize>,
    order: &[usize],
    conflicts: &[(usize, usize)],
    one: &[Items<usize>],
    other: &[Items<usize>],
    limit: u64,
) -> Result<Option<Items<u64>>, AllocError>
    requires order { IsOrder rooms.now promise order.now }
    requires header { 16 ≤ limit }
    requires limit { limit ≤ 2 ^ 24 }
    ensures { IfOk result (λ found. MatchOption found (NoneWithin rooms.now promise (AreKeptApart conflicts.now one.now other.now) limit) (λ offsets. IsPlacedWithin rooms.now promise (AreKeptApart conflicts.now one.now other.now) limit offsets)) }
{
    let rows = earlier(alloc, rooms, promise, conflicts)?;
    let mut offsets = zeros(alloc, rooms.len())?;
    let mut ones = Vec::new(alloc);
    let mut others = Vec::new(alloc);
    for k in order {
        let row = row_at(rows.as_slice(), *k);
        let on_one = groups_of(one, *k);
        let on_other = groups_of(other, *k);
        let bars = taken_bars(
            alloc,
            rooms,
            offsets.as_slice(),
            row,
            ones.as_slice(),
            others.as_slice(),
            on_one,
            on_other,
        )?;
        match place_one(rooms, promise, bars.as_slice(), *k, BEHIND_HEADER, limit) {
            None => return Ok(None),
            Some(offset) => {
                let size = size_at(rooms, *k);
                add_to(alloc, &mut ones, on_one, offset, size)?;
                add_to(alloc, &mut others, on_other, offset, size)?;
                offsets.set(*k, offset);
            }
        }
    }
    Ok(Some(offsets))
}

/// The offsets where all fields bar each other's way. None where a field would end past the limit.
pub(crate) fn place_behind(
    alloc: Global,
    rooms: &[Room],
    promise: Option<usize>,
    order: &[usize],
    limit: u64,
) -> Result<Option<Items<u64>>, AllocError>
    requires order { IsOrder rooms.now promise order.now }
    requires header { 16 ≤ limit }
    requires limit { limit ≤ 2 ^ 24 }
    ensures { IfOk result (λ found. MatchOption found (NoneWithin rooms.now promise Always limit) (λ offsets. IsPlacedWithin rooms.now promise Always limit offsets)) }
{
    let mut offsets = zeros(alloc, rooms.len())?;
    let mut bars = Vec::new(alloc);
    let mut last = Last {
        size: 0,
        align: 1,
        offset: BEHIND_HEADER,
    };
    for k in order {
        let size = size_at(rooms, *k);
        let align = placed_by(rooms, promise, *k);
        let from = floor_for(last, size, align);
        match place_one(rooms, promise, bars.as_slice(), *k, from, limit) {
            None => return Ok(None),
            Some(offset) => {
                add_field(&mut bars, offset, size)?;
                last = Last {
                    size,
                    align,
                    offset,
                };
                offsets.set(*k, offset);
            }
        }
    }
    Ok(Some(offsets))
}
