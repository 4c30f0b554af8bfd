//! Where the fields of a structure lie.

ghost use Rattle.std.specs.Prelude.{◌≡◌};
ghost use Rattle.ir_model.specs.Layout.{field_offset as offset_of_field, field_type as type_of_field};
ghost use Rattle.ir_model.specs.Ty.{to_tys};
ghost use Rattle.pass_distances.specs.Ways.{field_number};
ghost use Rattle.ir_sizes.specs.Cut.{capped, cut_up};

use crate::types::Types;
use ir_model::{IrType, Operand};

/// So many bytes, 2^64 - 1 where it is more.
fn cap(n: u128) -> u64
    ensures { result ≡ capped n }
{
    if n < 0xffff_ffff_ffff_ffff {
        n as u64
    } else {
        u64::MAX
    }
}

/// The least multiple of an alignment that is a size or more.
fn round_up(size: u64, align: u64) -> u64
    ensures { result ≡ cut_up size align }
{
    if align == 0 {
        0
    } else {
        cap((size as u128 + (align as u128 - 1)) / align as u128 * align as u128)
    }
}

/// The field to which a constant leads.
pub fn field_number(operand: &Operand) -> u128
    ensures { result ≡ field_number operand.now }
{
    match operand {
        Operand::Number(number) => { if *number >= 0 { *number as u128 } else { 0 } }
        _ => 0,
    }
}

impl<'a> Types<'a> {
    /// The offset of a field in bytes, 2^64 - 1 where it is more.
    pub fn field_offset(&self, fields: &[IrType], at: u128) -> u64
        ensures { result ≡ capped (offset_of_field self.now.sizes.now.names.now.source.now (to_tys fields.now) at) }
    {
        let mut end = 0;
        let mut left = at;
        for field in fields {
            let start = round_up(end, self.align_of(field));
            if left == 0 {
                return start;
            }
            left -= 1;
            end = start.saturating_add(self.size_of(field));
        }
        end
    }

    /// The type of a field, `ptr` past the last.
    pub fn field_type(&'a self, fields: &'a [IrType], at: u128) -> &'a IrType
        ensures { result.now ≡ type_of_field (to_tys fields.now) at }
    {
        if at < fields.len() as u128 {
            match fields.get(at as usize) {
                None => self.pointer(),
                Some(field) => field,
            }
        } else {
            self.pointer()
        }
    }
}
