//! The lines of layouts.

ghost use Rattle.std.specs.Prelude.{◌≡◌, ◌++◌, OnOk, IfOk, codes, decimal, option_map, slice_get};
ghost use Rattle.frame_contents.specs.Report.{field_text, fields_text, frame_text, layout_text as text_of, kind_text, layouts_text, line_text, name_text, number_text, place_text};

use frame_layout::{FieldKind, Layout, Layouts, PlacedField};
use ir_base::{FuncId, Name};
use ir_model::{Function, Module};
use itoa::Buffer;
use std::alloc::{AllocError, Global};
use text_names::print_name;

fn push_decimal(out: &mut Vec<u8>, number: u64) -> Result<(), AllocError>
    ensures { OnOk result (out.new.items ≡ out.old.items ++ decimal number) }
{
    let mut buffer = Buffer::new();
    out.extend_from_slice(buffer.format(number).as_bytes())
}

/// Adds a word and a number, a space before each.
fn push_number(out: &mut Vec<u8>, word: &[u8], number: u64) -> Result<(), AllocError>
    ensures { OnOk result (out.new.items ≡ out.old.items ++ number_text word.now number) }
{
    out.extend_from_slice(b" ")?;
    out.extend_from_slice(word)?;
    out.extend_from_slice(b" ")?;
    push_decimal(out, number)
}

fn push_name(out: &mut Vec<u8>, name: &Option<Name>) -> Result<(), AllocError>
    ensures { OnOk result (out.new.items ≡ out.old.items ++ name_text name.now) }
{
    match name {
        None => Ok(()),
        Some(name) => print_name(name, out),
    }
}

fn push_function(out: &mut Vec<u8>, functions: &[Function], func: FuncId) -> Result<(), AllocError>
    ensures { OnOk result (out.new.items ≡ out.old.items ++ name_text (option_map (λ f. f.name) (slice_get functions.now func))) }
{
    match functions.get(func) {
        None => Ok(()),
        Some(function) => print_name(&function.name, out),
    }
}

fn push_frame(out: &mut Vec<u8>, source: &Module, layout: &Layout) -> Result<(), AllocError>
    ensures { OnOk result (out.new.items ≡ out.old.items ++ frame_text source.now layout.now) }
{
    out.extend_from_slice(b"frame @")?;
    push_function(out, source.functions.as_slice(), layout.coroutine)?;
    push_number(out, b"size", layout.size)?;
    push_number(out, b"align", layout.align)?;
    push_number(out, b"index", layout.index)?;
    out.extend_from_slice(b"\n")
}

fn push_place(out: &mut Vec<u8>, field: &PlacedField) -> Result<(), AllocError>
    ensures { OnOk result (out.new.items ≡ out.old.items ++ place_text field.now) }
{
    out.extend_from_slice(b"  ")?;
    push_decimal(out, field.offset)?;
    out.extend_from_slice(b" ")?;
    push_decimal(out, field.size)
}

fn push_kind(out: &mut Vec<u8>, kind: &[u8], field: &PlacedField) -> Result<(), AllocError>
    ensures { OnOk result (out.new.items ≡ out.old.items ++ kind_text kind.now field.now) }
{
    out.extend_from_slice(b" ")?;
    out.extend_from_slice(kind)?;
    out.extend_from_slice(b" %")?;
    push_name(out, &field.name)?;
    out.extend_from_slice(b"\n")
}

fn push_line(out: &mut Vec<u8>, kind: &[u8], field: &PlacedField) -> Result<(), AllocError>
    ensures { OnOk result (out.new.items ≡ out.old.items ++ line_text kind.now field.now) }
{
    push_place(out, field)?;
    push_kind(out, kind, field)
}

fn push_field(out: &mut Vec<u8>, field: &PlacedField) -> Result<(), AllocError>
    ensures { OnOk result (out.new.items ≡ out.old.items ++ field_text field.now.kind field.now) }
{
    match field.kind {
        FieldKind::Promise => push_line(out, b"promise", field),
        FieldKind::Value => push_line(out, b"value", field),
        FieldKind::Slot => push_line(out, b"slot", field),
        FieldKind::Index => Ok(()),
        FieldKind::Frame => push_line(out, b"frame", field),
    }
}

fn push_fields(out: &mut Vec<u8>, fields: &[PlacedField]) -> Result<(), AllocError>
    ensures { OnOk result (out.new.items ≡ out.old.items ++ fields_text fields.now) }
{
    for field in fields {
        push_field(out, field)?;
    }
    Ok(())
}

fn push_layout(out: &mut Vec<u8>, source: &Module, layout: &Layout) -> Result<(), AllocError>
    ensures { OnOk result (out.new.items ≡ out.old.items ++ (frame_text source.now layout.now ++ fields_text layout.now.fields)) }
{
    push_frame(out, source, layout)?;
    push_fields(out, layout.fields.as_slice())
}

fn push_layouts(out: &mut Vec<u8>, source: &Module, layouts: &[Layout]) -> Result<(), AllocError>
    ensures { OnOk result (out.new.items ≡ out.old.items ++ layouts_text source.now layouts.now) }
{
    for layout in layouts {
        push_layout(out, source, layout)?;
    }
    Ok(())
}

/// The lines of a module's layouts: for each coroutine `frame @f size S align A index I`, then for each of its fields but the
/// index, in order of offset and then of the text, two spaces and `OFFSET SIZE KIND NAME`.
pub fn layout_text(alloc: Global, source: &Module, layouts: &Layouts) -> Result<Vec<u8>, AllocError>
    ensures { IfOk result (λ v. v.items ≡ text_of source.now layouts.now) }
{
    let mut out = Vec::new(alloc);
    push_layouts(&mut out, source, layouts.coroutines.as_slice())?;
    Ok(out)
}
