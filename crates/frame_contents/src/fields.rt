//! The fields of a coroutine's frame.

ghost use Rattle.std.specs.Prelude.{◌≡◌, ◌++◌, IfOk, OnOk, map, slice_get};
ghost use Rattle.frame_contents.specs.Held.{field_of as field_of_holding, fields_of as fields_of_held, index_field as index_of_function};

use crate::held::Holding;
use crate::promise::suspend_count;
use frame_layout::{Field, FieldKind, index_size};
use ir_base::{Data, Items, Name};
use ir_model::Function;
use std::alloc::{AllocError, Global};

fn name_of(alloc: Global, names: &Items<Name>, value: usize) -> Result<Option<Name>, AllocError>
    ensures { IfOk result (λ name. name ≡ slice_get names.now value) }
{
    match names.get(value) {
        None => Ok(None),
        Some(name) => Ok(Some(name.copied(alloc)?)),
    }
}

fn field_of(alloc: Global, function: &Function, held: Holding) -> Result<Field, AllocError>
    ensures { IfOk result (λ field. field ≡ field_of_holding function.now held) }
{
    Ok(Field {
        kind: held.kind,
        name: name_of(alloc, &function.names, held.value)?,
        size: held.size,
        align: held.align,
    })
}

fn index_field(alloc: Global, function: &Function) -> Result<Field, AllocError>
    ensures { IfOk result (λ field. field ≡ index_of_function function.now) }
{
    let size = index_size(suspend_count(alloc, function)?);
    Ok(Field {
        kind: FieldKind::Index,
        name: None,
        size,
        align: size,
    })
}

fn push_fields(
    alloc: Global,
    function: &Function,
    held: &[Holding],
    fields: &mut Vec<Field>,
) -> Result<(), AllocError>
    ensures { OnOk result (fields.new.items ≡ fields.old.items ++ map (field_of_holding function.now) held.now) }
{
    for one in held {
        fields.push(field_of(alloc, function, *one)?)?;
    }
    Ok(())
}

/// The fields for what a frame holds, and the index last.
pub(crate) fn fields_of(
    alloc: Global,
    function: &Function,
    held: &[Holding],
) -> Result<Vec<Field>, AllocError>
    ensures { IfOk result (λ fields. fields.items ≡ fields_of_held function.now held.now) }
{
    let mut fields = Vec::new(alloc);
    push_fields(alloc, function, held, &mut fields)?;
    fields.push(index_field(alloc, function)?)?;
    Ok(fields)
}
