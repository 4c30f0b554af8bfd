//! The sizes of a module's types.

ghost use Rattle.std.specs.Prelude.{◌≡◌, IfOk};
ghost use Rattle.ir_model.specs.Layout.{size_of as size_of_type};
ghost use Rattle.ir_sizes.specs.Cut.{capped};
ghost use Rattle.ir_sizes.specs.Levels.{full_table};

use crate::extent::Extent;
use crate::level::{table_of, whole_extent};
use ir_base::Items;
use ir_model::IrType;
use ir_tables::Names;
use std::alloc::{AllocError, Global};

/// The sizes of a module's types. Those of the named types are looked up in a table.
#[derive(Drop)]
pub struct Sizes<'a> {
    pub names: &'a Names<'a>,
    extents: Items<Option<Extent>>,
    ghost extents_are: { extents ≡ full_table names.now.source.now.types },
}

impl<'a> Sizes<'a> {
    /// The sizes of a module's types.
    pub fn new(alloc: Global, names: &'a Names<'a>) -> Result<Sizes<'a>, AllocError>
        ensures { IfOk result (λ s. s.names.now ≡ names.now) }
    {
        let extents = table_of(alloc, names)?;
        Ok(Sizes { names, extents })
    }

    /// The size of a type in bytes, 2^64 - 1 where it is more, and 0 where it has none: it holds a token or a name that
    /// isn't known, contains itself, or is deeper than types may be.
    pub fn size_of(&self, ty: &IrType) -> u64
        ensures { result ≡ capped (size_of_type self.now.names.now.source.now ty.now) }
    {
        match whole_extent(self.names, self.extents.as_slice(), ty) {
            None => 0,
            Some(extent) => extent.size,
        }
    }
}
