//! Layouts of frames.

ghost use Rattle.std.specs.Prelude.{◌≡◌, IfOk, slice_index_or};
ghost use Rattle.frame_layout.specs.Frames.{index_alone, index_size};

use crate::order::offset_at;
use ir_base::{FuncId, Items, Name};
use std::alloc::{AllocError, Global};

/// What a field holds.
#[derive(Clone, Copy, Debug, PartialEq, Eq, Drop)]
pub enum FieldKind {
    /// The promise, at 16.
    Promise,
    /// A value that crosses a suspend.
    Value,
    /// An alloca that lives in the frame.
    Slot,
    /// The number of the suspend at which the coroutine stands.
    Index,
    /// The frame of a coroutine that is called, which lies in its caller's.
    Frame,
}

/// A field that a frame needs: its name, which the index has not, and its size and alignment in bytes.
#[derive(Drop)]
pub struct Field {
    pub kind: FieldKind,
    pub name: Option<Name>,
    pub size: u64,
    pub align: u64,
}

/// A field of a frame: its name, which the index has not, and its offset and size in bytes.
#[derive(Drop)]
pub struct PlacedField {
    pub kind: FieldKind,
    pub name: Option<Name>,
    pub offset: u64,
    pub size: u64,
}

/// The layout of a coroutine's frame: its size and alignment in bytes, the offset of its index, the offsets of its fields in
/// order of the text, and its fields in order of offset, then of the text. Bytes 0 to 7 hold the resume pointer, 8 to 15 the
/// destroy pointer.
#[derive(Drop)]
pub struct Layout {
    pub coroutine: FuncId,
    pub size: u64,
    pub align: u64,
    pub index: u64,
    pub offsets: Items<u64>,
    pub fields: Items<PlacedField>,
}

impl Layout {
    /// The offset of the field at a position in order of the text, and 0 past the last.
    pub fn offset(&self, position: usize) -> u64
        ensures { result ≡ slice_index_or self.now.offsets position 0 }
    {
        offset_at(self.offsets.as_slice(), position)
    }
}

/// The layouts of a module's coroutines, in order of the text.
#[derive(Drop)]
pub struct Layouts {
    pub coroutines: Items<Layout>,
}

/// The size in bytes of the index of a coroutine with so many suspends: 1 for at most 256, else 2.
pub fn index_size(suspends: usize) -> u64
    ensures { result ≡ index_size suspends }
{
    if suspends <= 256 { 1 } else { 2 }
}

/// The layout of a frame that holds no field but the index.
pub fn index_alone(alloc: Global, coroutine: FuncId, suspends: usize) -> Result<Layout, AllocError>
    ensures { IfOk result (λ l. l ≡ index_alone coroutine suspends) }
{
    let mut offsets = Items::new(alloc);
    offsets.push(16)?;
    let mut fields = Items::new(alloc);
    fields.push(PlacedField {
        kind: FieldKind::Index,
        name: None,
        offset: 16,
        size: index_size(suspends),
    })?;
    Ok(Layout {
        coroutine,
        size: 24,
        align: 8,
        index: 16,
        offsets,
        fields,
    })
}
