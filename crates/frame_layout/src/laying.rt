//! The layouts of frames.

ghost use Rattle.std.specs.Prelude.{◌≡◌, ℕ, IfOk, List, map, position};
ghost use Rattle.frame_placing.specs.declared.placing.Placing.{Placing as ThePlacing};
ghost use Rattle.frame_layout.specs.Conflicts.{field_conflicts};
ghost use Rattle.frame_layout.specs.Layouts.{IsLaidOut, IsLaidOutPlain, IsLayoutBy, IsPlaced, index_offset as index_offset_of, is_index as is_index_kind, is_promise as is_promise_kind, placed as placed_at, promise_of as promise_position, rooms_of as rooms_of_fields};
ghost use Rattle.frame_layout.specs.Sides.{AreNamed};
ghost use Rattle.frame_layout.specs.declared.laying.LayoutError.TheVariants.{OutOfMemory};

use crate::layout::{Field, FieldKind, Layout, PlacedField};
use crate::order::{offset_at, order_of};
use crate::rows::rows_by_first;
use crate::sides::{one_pairs, other_pairs};
use frame_placing::{Placing, Room, place, place_by, place_plain};
use ir_base::{Data, FuncId, Items, SuspendId};
use std::alloc::{AllocError, Global};
use thiserror::Error;

/// Why fields have no layout.
#[derive(Clone, Copy, Debug, PartialEq, Eq, Error)]
pub enum LayoutError {
    /// The plain layout ends above 2^24.
    #[error("the frame is too large")]
    FrameTooLarge,
    /// Want of memory.
    #[error("out of memory")]
    OutOfMemory,
}

impl From<AllocError> for LayoutError {
    ghost from_gives = { λ _ e. e ≡ OutOfMemory };

    fn from(_e: AllocError) -> LayoutError {
        LayoutError::OutOfMemory
    }
}

fn is_promise(kind: FieldKind) -> bool
    ensures { result ≡ is_promise_kind kind }
{
    match kind {
        FieldKind::Promise => true,
        FieldKind::Value | FieldKind::Slot | FieldKind::Index | FieldKind::Frame => false,
    }
}

fn is_index(kind: FieldKind) -> bool
    ensures { result ≡ is_index_kind kind }
{
    match kind {
        FieldKind::Index => true,
        FieldKind::Promise | FieldKind::Value | FieldKind::Slot | FieldKind::Frame => false,
    }
}

fn promise_of(fields: &[Field]) -> Option<usize>
    ensures { result ≡ promise_position fields.now }
{
    fields.iter().position(|field| is_promise(field.kind))
}

fn index_of(fields: &[Field]) -> Option<usize>
    ensures { result ≡ position (λ f. is_index_kind f.kind) fields.now }
{
    fields.iter().position(|field| is_index(field.kind))
}

fn index_offset(fields: &[Field], offsets: &[u64]) -> u64
    ensures { result ≡ index_offset_of fields.now offsets.now }
{
    offset_at(offsets, index_of(fields).unwrap_or(fields.len()))
}

fn rooms_of(alloc: Global, fields: &[Field]) -> Result<Vec<Room>, AllocError>
    ensures { IfOk result (λ rooms. rooms.items ≡ rooms_of_fields fields.now) }
{
    let mut rooms = Vec::new(alloc);
    for field in fields {
        rooms.push(Room {
            size: field.size,
            align: field.align,
        })?;
    }
    Ok(rooms)
}

/// The field at a position with its offset.
fn placed(
    alloc: Global,
    fields: &[Field],
    offsets: &[u64],
    k: usize,
) -> Result<PlacedField, AllocError>
    ensures { IfOk result (λ field. field ≡ placed_at fields.now offsets.now k) }
{
    let offset = offset_at(offsets, k);
    match fields.get(k) {
        None => Ok(PlacedField {
            kind: FieldKind::Index,
            name: None,
            offset,
            size: 0,
        }),
        Some(field) => Ok(PlacedField {
            kind: field.kind,
            name: Data::copied(&field.name, alloc)?,
            offset,
            size: field.size,
        }),
    }
}

fn all_placed(
    alloc: Global,
    fields: &[Field],
    offsets: &[u64],
    order: &[usize],
) -> Result<Items<PlacedField>, AllocError>
    ensures { IfOk result (λ all. all ≡ map (placed_at fields.now offsets.now) order.now) }
{
    let mut all = Items::new(alloc);
    for k in order {
        all.push(placed(alloc, fields, offsets, *k)?)?;
    }
    Ok(all)
}

/// The layout of these offsets.
fn layout_by(
    alloc: Global,
    coroutine: FuncId,
    fields: &[Field],
    placing: Placing,
) -> Result<Layout, AllocError>
    ensures { IfOk result (λ layout. IsLayoutBy coroutine fields.now placing layout) }
{
    let order = order_of(alloc, placing.offsets.as_slice())?;
    let all = all_placed(alloc, fields, placing.offsets.as_slice(), order.as_slice())?;
    let index = index_offset(fields, placing.offsets.as_slice());
    Ok(Layout {
        coroutine,
        size: placing.size,
        align: placing.align,
        index,
        offsets: placing.offsets,
        fields: all,
    })
}

/// The layout of a coroutine's frame, whose fields are given in order of the text, the index last. The promise stands at 16, and
/// each other field, in order of falling alignment, then falling size, then of the text, at the least aligned offset from 16 on
/// whose bytes meet no earlier field in conflict with it. `conflicts` are the pairs of positions of fields that conflict. Where
/// the layout would end later than the plain one, it is the plain one.
///
/// The frame is too large exactly where the plain layout ends above 2^24.
pub fn lay_out(
    alloc: Global,
    coroutine: FuncId,
    fields: &[Field],
    conflicts: &[(usize, usize)],
) -> Result<Layout, LayoutError>
    ensures { IsLaidOut coroutine fields.now conflicts.now result }
{
    let rooms = rooms_of(alloc, fields)?;
    match place(alloc, &rooms, promise_of(fields), conflicts)? {
        None => Err(LayoutError::FrameTooLarge),
        Some(placing) => Ok(layout_by(alloc, coroutine, fields, placing)?),
    }
}

/// The offsets of fields whose conflicts are given without their pairs.
fn placed_by(
    alloc: Global,
    fields: &[Field],
    crossing: &[(usize, SuspendId)],
    alive_at: &[(usize, SuspendId)],
    slots: &[usize],
    wide: &[usize],
    narrow: &[(usize, usize)],
) -> Result<Option<Placing>, AllocError>
    ensures { IfOk result (λ found. (named : List (ℕ × ℕ)) → AreNamed slots.now wide.now narrow.now named → IsPlaced fields.now (field_conflicts fields.now crossing.now alive_at.now named) found) }
{
    let rooms = rooms_of(alloc, fields)?;
    let one = one_pairs(alloc, fields, crossing, wide)?;
    let other = other_pairs(alloc, fields, crossing, alive_at, slots)?;
    let one = rows_by_first(alloc, one.as_slice())?;
    let other = rows_by_first(alloc, other.as_slice())?;
    place_by(
        alloc,
        rooms.as_slice(),
        promise_of(fields),
        narrow,
        one.as_slice(),
        other.as_slice(),
    )
}

/// What `lay_out` gives by `field_conflicts`, without the pairs: by the values that cross suspends, the slots that may be alive
/// there, and of the slots those that conflict with all slots (`wide`), and the pairs of others that conflict (`narrow`). It is
/// the layout by any list of pairs of slots that names just these.
///
/// The frame is too large exactly where the plain layout ends above 2^24.
pub fn lay_out_by(
    alloc: Global,
    coroutine: FuncId,
    fields: &[Field],
    crossing: &[(usize, SuspendId)],
    alive_at: &[(usize, SuspendId)],
    slots: &[usize],
    wide: &[usize],
    narrow: &[(usize, usize)],
) -> Result<Layout, LayoutError>
    ensures { (named : List (ℕ × ℕ)) → AreNamed slots.now wide.now narrow.now named → IsLaidOut coroutine fields.now (field_conflicts fields.now crossing.now alive_at.now named) result }
{
    match placed_by(alloc, fields, crossing, alive_at, slots, wide, narrow)? {
        None => Err(LayoutError::FrameTooLarge),
        Some(placing) => Ok(layout_by(alloc, coroutine, fields, placing)?),
    }
}

/// The plain layout of a coroutine's frame, in which all fields conflict.
///
/// The frame is too large exactly where it ends above 2^24.
pub fn lay_out_plain(
    alloc: Global,
    coroutine: FuncId,
    fields: &[Field],
) -> Result<Layout, LayoutError>
    ensures { IsLaidOutPlain coroutine fields.now result }
{
    let rooms = rooms_of(alloc, fields)?;
    match place_plain(alloc, &rooms, promise_of(fields))? {
        None => Err(LayoutError::FrameTooLarge),
        Some(placing) => Ok(layout_by(alloc, coroutine, fields, placing)?),
    }
}
