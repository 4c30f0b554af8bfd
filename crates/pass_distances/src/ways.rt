//! What the indices of a `getelementptr` add to its base.

ghost use Rattle.std.specs.Prelude.{◌≡◌, IfOk, OnOk, ◌++◌};
ghost use Rattle.pass_distances.specs.Ways.{way_at as way_into, inner_type as type_inside, inner_ways, ways_of as ways_of_gep};
ghost use Rattle.ir_sizes.specs.Cut.{capped};

use crate::offset::field_number;
use crate::types::Types;
use crate::way::Way;
use ir_base::{Data, Items};
use ir_model::{Arg, IrType, Node};
use std::alloc::{AllocError, Global};

impl<'a> Types<'a> {
    /// What an index adds inside a type that is no name.
    fn way_at(&self, alloc: Global, ty: &IrType, index: &Arg) -> Result<Way, AllocError>
        ensures { IfOk result (λ w. w ≡ way_into self.now.sizes.now.names.now.source.now ty.now index.now) }
    {
        match ty.node() {
            Node::Array(_, element) => Ok(Way::Elements(
                index.copied(alloc)?,
                self.size_of(element),
            )),
            Node::Struct(fields) => Ok(Way::Bytes(self.field_offset(
                fields,
                field_number(&index.value),
            ))),
            _ => Ok(Way::Bytes(0)),
        }
    }

    /// The type to which an index leads inside a type that is no name.
    fn inner_type(&'a self, ty: &'a IrType, index: &Arg) -> &'a IrType
        ensures { result.now ≡ type_inside ty.now index.now }
    {
        match ty.node() {
            Node::Array(_, element) => element,
            Node::Struct(fields) => self.field_type(fields, field_number(&index.value)),
            _ => ty,
        }
    }

    fn push_inner_ways(
        &self,
        alloc: Global,
        all: &mut Items<Way>,
        ty: &IrType,
        indices: &[Arg],
    ) -> Result<(), AllocError>
        ensures { OnOk result (all.new ≡ all.old ++ inner_ways self.now.sizes.now.names.now.source.now ty.now indices.now) }
    {
        let mut inside = ty;
        for index in indices {
            let whole = self.unnamed(inside);
            all.push(self.way_at(alloc, whole, index)?)?;
            inside = self.inner_type(whole, index);
        }
        Ok(())
    }

    /// What the indices of a `getelementptr` add to its base, in order.
    pub fn ways_of(
        &self,
        alloc: Global,
        ty: &IrType,
        indices: &[Arg],
    ) -> Result<Items<Way>, AllocError>
        ensures { IfOk result (λ ways. ways ≡ ways_of_gep self.now.sizes.now.names.now.source.now ty.now indices.now) }
    {
        let mut all = Items::new(alloc);
        if let [first, others @ ..] = indices {
            all.push(Way::Elements(first.copied(alloc)?, self.size_of(ty)))?;
            self.push_inner_ways(alloc, &mut all, ty, others)?;
        }
        Ok(all)
    }
}
