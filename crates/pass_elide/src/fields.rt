//! Frames that coroutines give: fields of kind `Frame`, each for the call whose result has its name.

ghost use Rattle.std.specs.Prelude.{◌≡◌, IfOk, filter_map};
ghost use Rattle.std.specs.Option.{option_copied};
ghost use Rattle.ir_tables.specs.Tables.{FindsFirst};
ghost use Rattle.pass_elide.specs.Frames.{callee_field, callee_fields, field_named, field_frame, is_frame_kind};
ghost use Rattle.pass_elide.specs.Frames.{result_name, frame_at};

use crate::given::{GivenFrame, GivenFrames};
use crate::tables::item_at;
use frame_layout::{FieldKind, Layout, PlacedField};
use ir_base::{BlockId, Data, Items, Name, ValueId};
use ir_model::{Callee, Instr};
use ir_tables::{NameTable, Named, find, table_of};
use std::alloc::{AllocError, Global};

/// A field for the frame of a callee: the name of the call's result, and the offset.
#[derive(Drop)]
pub struct CalleeField {
    pub name: Name,
    pub offset: u64,
}

impl Named for CalleeField {
    ghost called = { λ y. y.name };

    fn name(&self) -> &Name {
        &self.name
    }
}

/// What a coroutine's given frames are found by: the names of its locals, begin's value, and the fields for callees.
#[derive(Drop)]
pub struct FieldFrames<'a> {
    pub names: &'a Items<Name>,
    pub begin: ValueId,
    pub fields: Items<CalleeField>,
    table: NameTable,
    ghost fields_found: { FindsFirst (λ y. y.name) fields table },
}

fn is_frame(kind: FieldKind) -> bool
    ensures { result ≡ is_frame_kind kind }
{
    match kind {
        FieldKind::Frame => true,
        FieldKind::Promise | FieldKind::Value | FieldKind::Slot | FieldKind::Index => false,
    }
}

fn callee_field(alloc: Global, field: &PlacedField) -> Result<Option<CalleeField>, AllocError>
    ensures { IfOk result (λ y. y ≡ callee_field field.now) }
{
    if !is_frame(field.kind) {
        return Ok(None);
    }
    match &field.name {
        None => Ok(None),
        Some(name) => Ok(Some(CalleeField {
            name: name.copied(alloc)?,
            offset: field.offset,
        })),
    }
}

fn callee_fields_of(alloc: Global, fields: &[PlacedField]) -> Result<Items<CalleeField>, AllocError>
    ensures { IfOk result (λ x. x ≡ filter_map callee_field fields.now) }
{
    let mut all = Items::new(alloc);
    for field in fields {
        if let Some(found) = callee_field(alloc, field)? {
            all.push(found)?;
        }
    }
    Ok(all)
}

fn callee_fields(alloc: Global, layout: Option<&Layout>) -> Result<Items<CalleeField>, AllocError>
    ensures { IfOk result (λ x. x ≡ callee_fields (option_copied layout.entry)) }
{
    match layout {
        None => Ok(Items::new(alloc)),
        Some(layout) => callee_fields_of(alloc, layout.fields.as_slice()),
    }
}

/// The name of the result of a call of a function.
fn result_name<'a>(names: &'a Items<Name>, instr: &Instr) -> Option<&'a Name>
    ensures { option_copied result ≡ result_name names.now instr.now }
{
    match instr {
        Instr::Call {
            result: Some(value),
            callee: Callee::Named(_),
            ..
        } => names.get(*value),
        _ => None,
    }
}

impl<'a> FieldFrames<'a> {
    /// Those of a coroutine with a layout.
    pub fn new(
        alloc: Global,
        names: &'a Items<Name>,
        begin: ValueId,
        layout: Option<&Layout>,
    ) -> Result<FieldFrames<'a>, AllocError>
        ensures names { IfOk result (λ frames. frames.names.now ≡ names.now) }
        ensures begin { IfOk result (λ frames. frames.begin ≡ begin) }
        ensures fields { IfOk result (λ frames. frames.fields ≡ callee_fields (option_copied layout.entry)) }
    {
        let fields = callee_fields(alloc, layout)?;
        let table = table_of(alloc, fields.as_slice())?;
        Ok(FieldFrames {
            names,
            begin,
            fields,
            table,
        })
    }

    fn field_named(&self, name: &Name) -> Option<&CalleeField>
        ensures { option_copied result ≡ field_named self.now.fields name.now }
    {
        item_at(&self.fields, find(&self.table, name))
    }

    /// So far behind begin's value.
    fn frame_at(&self, field: &CalleeField) -> GivenFrame
        ensures { result ≡ frame_at self.now.begin field.now }
    {
        GivenFrame::Field {
            base: self.begin,
            distance: field.offset,
        }
    }
}

impl GivenFrames for FieldFrames<'_> {
    ghost found = { λ r block at. field_frame r.begin r.fields r.names.now };

    fn find(&self, _block: BlockId, _at: usize, instr: &Instr) -> Option<GivenFrame> {
        match result_name(self.names, instr) {
            None => None,
            Some(name) => match self.field_named(name) {
                None => None,
                Some(field) => Some(self.frame_at(field)),
            },
        }
    }
}
