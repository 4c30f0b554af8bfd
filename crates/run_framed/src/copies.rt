//! Layouts that a machine keeps.

ghost use Rattle.std.specs.Prelude.{◌≡◌, IfOk};

use frame_layout::{Layout, PlacedField};
use ir_base::{Data, Items};
use std::alloc::{AllocError, Global};

fn copied_field(alloc: Global, field: &PlacedField) -> Result<PlacedField, AllocError>
    ensures { IfOk result (λ x. x ≡ field.now) }
{
    Ok(PlacedField {
        kind: field.kind,
        name: Data::copied(&field.name, alloc)?,
        offset: field.offset,
        size: field.size,
    })
}

fn copied_fields(alloc: Global, fields: &[PlacedField]) -> Result<Items<PlacedField>, AllocError>
    ensures { IfOk result (λ all. all ≡ fields.now) }
{
    let mut all = Items::new(alloc);
    for field in fields {
        all.push(copied_field(alloc, field)?)?;
    }
    Ok(all)
}

fn copied_offsets(alloc: Global, offsets: &[u64]) -> Result<Items<u64>, AllocError>
    ensures { IfOk result (λ all. all ≡ offsets.now) }
{
    Ok(Items::from_vec(offsets.to_vec(alloc)?))
}

fn copied_layout(alloc: Global, layout: &Layout) -> Result<Layout, AllocError>
    ensures { IfOk result (λ x. x ≡ layout.now) }
{
    Ok(Layout {
        coroutine: layout.coroutine,
        size: layout.size,
        align: layout.align,
        index: layout.index,
        offsets: copied_offsets(alloc, layout.offsets.as_slice())?,
        fields: copied_fields(alloc, layout.fields.as_slice())?,
    })
}

/// Layouts with the same data.
pub fn copied_layouts(alloc: Global, layouts: &[Layout]) -> Result<Items<Layout>, AllocError>
    ensures { IfOk result (λ all. all ≡ layouts.now) }
{
    let mut all = Items::new(alloc);
    for layout in layouts {
        all.push(copied_layout(alloc, layout)?)?;
    }
    Ok(all)
}
