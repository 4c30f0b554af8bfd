//! The sizes of types, and where their parts lie.

ghost use Rattle.std.specs.Prelude.{◌≡◌, ◌≤◌, ℕ, option_map};
ghost use Rattle.ir_paths.specs.ir_model.Layout.{Extent as LayoutExtent, extent_of, extent_in, extent_at, extent_or, rounded_up, with_field, padded, array_extent, plain_extent, fields_extent, size_of as size_of_type, field_offset as offset_of_field};
ghost use Rattle.ir_paths.specs.ir_model.Ty.{to_tys};
ghost use Rattle.run_step.specs.Values.{capped};
ghost use Rattle.run_step.specs.Effects.{capped_extent};

use crate::program::Program;
use crate::width::bits;
use ir_paths::ir_model_library::{IrType, Node};

/// A size, 2^64 - 1 where it is more, and an alignment, in bytes.
#[derive(Clone, Copy, Debug, Drop)]
pub struct Extent {
    pub size: u64,
    pub align: u64,
}

/// So many bytes, 2^64 - 1 where it is more.
fn cap(n: u128) -> u64
    ensures { result ≡ capped n }
{
    if n < 0xffff_ffff_ffff_ffff {
        n as u64
    } else {
        u64::MAX
    }
}

/// The least multiple of an alignment that is a size or more.
fn round_up(size: u64, align: u64) -> u64
    ensures { (n : ℕ) → size ≡ capped n → result ≡ capped (rounded_up n align) }
{
    if align == 0 {
        0
    } else {
        cap((size as u128 + (align as u128 - 1)) / align as u128 * align as u128)
    }
}

fn add_field(so_far: Extent, field: Extent) -> Extent
    ensures { (e f : LayoutExtent) → so_far ≡ capped_extent e → field ≡ capped_extent f → result ≡ capped_extent (with_field e f) }
{
    Extent {
        size: round_up(so_far.size, field.align).saturating_add(field.size),
        align: so_far.align.max(field.align),
    }
}

/// The extent of so many elements of an extent.
fn repeated(count: u64, element: Extent) -> Extent
    ensures { (e : LayoutExtent) → element ≡ capped_extent e → result ≡ capped_extent (array_extent count e) }
{
    Extent {
        size: cap(count as u128 * element.size as u128),
        align: element.align,
    }
}

/// The extent of a structure whose fields end there.
fn closed(fields: Extent) -> Extent
    ensures { (e : LayoutExtent) → fields ≡ capped_extent e → result ≡ capped_extent (padded e) }
{
    Extent {
        size: round_up(fields.size, fields.align),
        align: fields.align,
    }
}

const NO_FIELDS: Extent = Extent { size: 0, align: 1 };

fn plain(size: u64) -> Extent
    ensures { size ≤ 8 → result ≡ capped_extent (plain_extent size) }
{
    Extent { size, align: size }
}

impl Program {
    /// The extent of a type, going down through at most so many names and then so many brackets.
    #[cycle(extent)]
    fn extent_in(&self, names: u32, depth: u32, ty: &IrType) -> Option<Extent>
        ensures { result ≡ option_map capped_extent (extent_in (extent_at self.now.«module».types names) depth ty.now) }
    {
        if depth == 0 {
            return None;
        }
        match ty.node() {
            Node::Int(width) => Some(plain((bits(*width) as u64 + 7) / 8)),
            Node::Ptr => Some(plain(8)),
            Node::Token => None,
            Node::Array(count, element) => match self.extent_in(names, depth - 1, element) {
                None => None,
                Some(e) => Some(repeated(*count, e)),
            },
            Node::Struct(fields) => match self.fields_extent(names, depth - 1, NO_FIELDS, fields) {
                None => None,
                Some(e) => Some(closed(e)),
            },
            Node::Named(name) => {
                if names == 0 {
                    None
                } else {
                    match self.type_named(name) {
                        None => None,
                        Some(meant) => self.extent_in(names - 1, 64, meant),
                    }
                }
            }
        }
    }

    #[cycle(extent)]
    fn fields_extent(
        &self,
        names: u32,
        depth: u32,
        so_far: Extent,
        fields: &[IrType],
    ) -> Option<Extent>
        ensures { (e : LayoutExtent) → so_far ≡ capped_extent e → result ≡ option_map capped_extent (fields_extent (extent_in (extent_at self.now.«module».types names) depth) e (to_tys fields.now)) }
    {
        match fields {
            [] => Some(so_far),
            [first, rest @ ..] => match self.extent_in(names, depth, first) {
                None => None,
                Some(e) => self.fields_extent(names, depth, add_field(so_far, e), rest),
            },
        }
    }

    /// The extent of a type, that of the empty structure where it has none.
    fn extent_of(&self, ty: &IrType) -> Extent
        ensures { result ≡ capped_extent (extent_or (extent_of self.now.«module».types ty.now)) }
    {
        match self.extent_in(64, 64, ty) {
            None => NO_FIELDS,
            Some(extent) => extent,
        }
    }

    /// The size of a type in bytes, 2^64 - 1 where it is more.
    pub fn size_of(&self, ty: &IrType) -> u64
        ensures { result ≡ capped (size_of_type self.now.«module» ty.now) }
    {
        self.extent_of(ty).size
    }

    /// The offset of a field in bytes, 2^64 - 1 where it is more.
    pub fn field_offset(&self, fields: &[IrType], i: u64) -> u64
        ensures { result ≡ capped (offset_of_field self.now.«module» (to_tys fields.now) i) }
    {
        let mut extent = NO_FIELDS;
        let mut left = i;
        for field in fields {
            let next = self.extent_of(field);
            if left == 0 {
                return round_up(extent.size, next.align);
            }
            left -= 1;
            extent = add_field(extent, next);
        }
        extent.size
    }
}
