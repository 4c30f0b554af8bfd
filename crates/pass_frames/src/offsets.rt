//! The offsets of what lies in the frame, by name.

ghost use Rattle.std.specs.Prelude.{◌≡◌, IfOk, OnOk, get_or, length, None};
ghost use Rattle.pass_frames.specs.Framed.{kept_of, offsets_with};
ghost use Rattle.pass_frames.specs.Tables.{is_slot_kind, offset_at, with_field_offset, with_field_offsets, with_slot_offset, with_slot_offsets};

use frame_contents::{Contents, Holding};
use frame_layout::{FieldKind, Layout};
use ir_base::{Items, ValueId};
use ir_parts::next;
use pass_cells::{field_name, kept_values};
use std::alloc::{AllocError, Global};

fn is_slot_kind(kind: FieldKind) -> bool
    ensures { result ≡ is_slot_kind kind }
{
    match kind {
        FieldKind::Promise => true,
        FieldKind::Slot => true,
        FieldKind::Value => false,
        FieldKind::Index => false,
        FieldKind::Frame => false,
    }
}

fn set_slot_offset(layout: &Layout, k: usize, holding: &Holding, table: &mut Items<Option<u64>>)
    ensures { table.new ≡ with_slot_offset layout.now k holding.now table.old }
{
    if is_slot_kind(holding.kind) {
        table.set(holding.value, Some(layout.offset(k)));
    }
}

fn set_slot_offsets(
    layout: &Layout,
    held: &[Holding],
    table: &mut Items<Option<u64>>,
) -> Result<(), AllocError>
    ensures { OnOk result (table.new ≡ with_slot_offsets layout.now 0 held.now table.old) }
{
    let mut k = 0;
    for holding in held {
        set_slot_offset(layout, k, holding, table);
        k = next(k)?;
    }
    Ok(())
}

fn position_of(positions: &[Option<usize>], value: ValueId) -> Option<usize>
    ensures { result ≡ get_or positions.now value None }
{
    match positions.get(value) {
        None => None,
        Some(position) => *position,
    }
}

fn set_field_offset(
    layout: &Layout,
    name: ValueId,
    position: Option<usize>,
    table: &mut Items<Option<u64>>,
)
    ensures { table.new ≡ with_field_offset layout.now name position table.old }
{
    if let Some(position) = position {
        table.set(name, Some(layout.offset(position)));
    }
}

fn set_field_offsets(
    layout: &Layout,
    positions: &[Option<usize>],
    first: ValueId,
    kept: &[ValueId],
    table: &mut Items<Option<u64>>,
) -> Result<(), AllocError>
    ensures { OnOk result (table.new ≡ with_field_offsets layout.now positions.now first (length kept.now) 0 kept.now table.old) }
{
    let mut k = 0;
    for value in kept {
        let name = field_name(first, kept.len(), k)?;
        set_field_offset(layout, name, position_of(positions, *value), table);
        k = next(k)?;
    }
    Ok(())
}

fn offsets_with(
    alloc: Global,
    layout: &Layout,
    contents: &Contents,
    first: ValueId,
    values: &[ValueId],
    names: usize,
) -> Result<Items<Option<u64>>, AllocError>
    ensures { IfOk result (λ x. x ≡ offsets_with layout.now contents.now first values.now names) }
{
    let mut table = Items::from_vec(Vec::from_elem(alloc, None, names)?);
    set_slot_offsets(layout, contents.held.as_slice(), &mut table)?;
    let positions = contents.positions.as_slice();
    set_field_offsets(layout, positions, first, values, &mut table)?;
    Ok(table)
}

/// For each of so many names its offset, where it is an alloca that lies in the frame; the cells and fields of the values that
/// are kept stand from a name on.
pub fn offsets_of(
    alloc: Global,
    layout: &Layout,
    contents: &Contents,
    first: ValueId,
    names: usize,
) -> Result<Items<Option<u64>>, AllocError>
    ensures { IfOk result (λ x. x ≡ offsets_with layout.now contents.now first (kept_of first contents.now) names) }
{
    let values = kept_values(alloc, first, contents.crossing.as_slice())?;
    offsets_with(alloc, layout, contents, first, values.as_slice(), names)
}
