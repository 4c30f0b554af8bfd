//! Types that are deeper than 64.

ghost use Rattle.std.specs.Prelude.{◌≡◌, IfOk, map};
ghost use Rattle.rule_types.specs.Depth.{is_shallow};
ghost use Rattle.rule_types.specs.Heights.{full_height};

use crate::heights::{fits, heights_of};
use ir_base::Items;
use ir_model::IrType;
use ir_parts::TypeTest;
use ir_tables::Names;
use std::alloc::{AllocError, Global};

/// The test whether a type is at most 64 deep. The depths of the named types are looked up in a table.
#[derive(Drop)]
pub struct Depths<'a> {
    pub names: &'a Names<'a>,
    heights: Items<u32>,
    ghost heights_are: { heights ≡ map (λ t. full_height names.now.source.now.types t.ty) names.now.source.now.types },
}

impl<'a> Depths<'a> {
    /// The depths of a module's types.
    pub fn new(alloc: Global, names: &'a Names<'a>) -> Result<Depths<'a>, AllocError>
        ensures { IfOk result (λ d. d.names.now ≡ names.now) }
    {
        let heights = heights_of(alloc, names)?;
        Ok(Depths { names, heights })
    }
}

impl TypeTest for Depths<'_> {
    ghost type_passes = { λ d. is_shallow d.names.now.source.now.types };

    fn passes(&self, ty: &IrType) -> bool {
        fits(self.names, self.heights.as_slice(), 64, ty)
    }
}
