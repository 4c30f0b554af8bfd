//! The types of a module, with their sizes and alignments.

ghost use Rattle.std.specs.Prelude.{◌≡◌, IfOk};
ghost use Rattle.ir_model.specs.Ty.{ptr};
ghost use Rattle.ir_model.specs.Layout.{align_of as align_of_type, size_of as size_of_type, unnamed as unnamed_of};
ghost use Rattle.ir_alignments.specs.Alignment.{align_in};
ghost use Rattle.ir_sizes.specs.Cut.{capped};

use ir_alignments::NamedTypes;
use ir_base::Data;
use ir_model::{IrType, Node};
use ir_sizes::Sizes;
use std::alloc::{AllocError, Global};

/// The types of a module. The sizes and alignments of the named ones are looked up in tables, which are made once.
#[derive(Drop)]
pub struct Types<'a> {
    pub sizes: &'a Sizes<'a>,
    alignments: NamedTypes,
    pointer: IrType,
    ghost alignments_are: { alignments ≡ sizes.now.names.now.source.now.types },
    ghost pointer_is: { pointer ≡ ptr },
}

impl<'a> Types<'a> {
    /// The types of the module whose sizes are given.
    pub fn new(alloc: Global, sizes: &'a Sizes<'a>) -> Result<Types<'a>, AllocError>
        ensures { IfOk result (λ t. t.sizes.now ≡ sizes.now) }
    {
        let types = sizes.names.source.types.copied(alloc)?;
        Ok(Types {
            sizes,
            alignments: NamedTypes::new(alloc, types)?,
            pointer: IrType::pointer(),
        })
    }

    /// The type `ptr`.
    pub fn pointer(&self) -> &IrType
        ensures { result.now ≡ ptr }
    {
        &self.pointer
    }

    /// The size of a type in bytes, 2^64 - 1 where it is more.
    pub fn size_of(&self, ty: &IrType) -> u64
        ensures { result ≡ capped (size_of_type self.now.sizes.now.names.now.source.now ty.now) }
    {
        self.sizes.size_of(ty)
    }

    /// The alignment of a type in bytes, 1 where it has no size.
    pub fn align_of(&self, ty: &IrType) -> u64
        ensures { result ≡ align_of_type self.now.sizes.now.names.now.source.now ty.now }
    {
        self.alignments.align(ty)
    }

    /// What a name stands for.
    pub fn unnamed(&'a self, ty: &'a IrType) -> &'a IrType
        ensures { result.now ≡ unnamed_of self.now.sizes.now.names.now.source.now ty.now }
    {
        match ty.node() {
            Node::Named(name) => match self.sizes.names.type_named(name) {
                None => ty,
                Some(at) => match self.sizes.names.source.types.get(at) {
                    None => ty,
                    Some(item) => &item.ty,
                },
            },
            _ => ty,
        }
    }
}
