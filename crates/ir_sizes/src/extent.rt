//! Sizes and alignments, cut off at 2^64 - 1.

ghost use Rattle.std.specs.Prelude.{◌≡◌, ◌≤◌};
ghost use Rattle.ir_model.specs.Layout.{bytes_of_width};
ghost use Rattle.ir_model.specs.TypeView.{bits_of};
ghost use Rattle.ir_sizes.specs.Cut.{capped, cut_up, cut_plain, cut_array, cut_field, cut_padded, cut_start};

use ir_base::Data;
use ir_model::IntWidth;
use std::alloc::{AllocError, Global};

/// A size, 2^64 - 1 where it is more, and an alignment, in bytes.
#[derive(Clone, Copy, Debug, PartialEq, Eq, Drop)]
pub struct Extent {
    pub size: u64,
    pub align: u64,
}

impl Data for Extent {
    fn copied(&self, _alloc: Global) -> Result<Extent, AllocError> {
        Ok(*self)
    }

    fn is_same(&self, other: &Extent) -> bool {
        self == other
    }
}

/// So many bytes, 2^64 - 1 where it is more.
fn cap(n: u128) -> u64
    ensures { result ≡ capped n }
{
    if n < 0xffff_ffff_ffff_ffff {
        n as u64
    } else {
        u64::MAX
    }
}

/// The least multiple of an alignment that is a size or more.
fn round_up(size: u64, align: u64) -> u64
    ensures { result ≡ cut_up size align }
{
    if align == 0 {
        0
    } else {
        cap((size as u128 + (align as u128 - 1)) / align as u128 * align as u128)
    }
}

/// One field more.
pub fn add_field(so_far: Extent, field: Extent) -> Extent
    ensures { result ≡ cut_field so_far field }
{
    Extent {
        size: round_up(so_far.size, field.align).saturating_add(field.size),
        align: so_far.align.max(field.align),
    }
}

/// The extent of so many elements of an extent.
pub fn repeated(count: u64, element: Extent) -> Extent
    ensures { result ≡ cut_array count element }
{
    Extent {
        size: cap(count as u128 * element.size as u128),
        align: element.align,
    }
}

/// The extent of a structure whose fields end there.
pub fn closed(fields: Extent) -> Extent
    ensures { result ≡ cut_padded fields }
{
    Extent {
        size: round_up(fields.size, fields.align),
        align: fields.align,
    }
}

/// The extent of no fields.
pub fn no_fields() -> Extent
    ensures { result ≡ cut_start }
{
    Extent { size: 0, align: 1 }
}

/// The extent of a type that is as long as its alignment.
pub fn plain(size: u64) -> Extent
    ensures { result ≡ cut_plain size }
{
    Extent { size, align: size }
}

/// How many bytes a width takes.
pub fn width_bytes(width: IntWidth) -> u64
    ensures { result ≡ bytes_of_width (bits_of width) }
{
    match width {
        IntWidth::I1 | IntWidth::I8 => 1,
        IntWidth::I16 => 2,
        IntWidth::I32 => 4,
        IntWidth::I64 => 8,
    }
}
