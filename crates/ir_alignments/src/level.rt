//! A table of the alignments of named types.

ghost use Rattle.std.specs.Prelude.{◌≡◌, ℕ, IfOk, None, max};
ghost use Rattle.ir_base.specs.declared.name.Name.{Name};
ghost use Rattle.ir_model.specs.Layout.{bytes_of_width};
ghost use Rattle.ir_model.specs.Ty.{to_tys};
ghost use Rattle.ir_model.specs.TypeView.{bits_of};
ghost use Rattle.ir_alignments.specs.Alignment.{alignment_in, fields_alignment};
ghost use Rattle.ir_alignments.specs.Level.{known_at, agree_on, IsNext};

use indexmap::IndexMap;
use ir_base::{Data, Name};
use ir_model::{IntWidth, IrType, Node, TypeItem};
use std::alloc::{AllocError, Global};

/// What is known of the alignments of named types, going down through so many names.
#[derive(Drop)]
pub struct Level {
    pub map: IndexMap<Name, Option<u64>>,
}

fn width_align(width: IntWidth) -> u64
    ensures { result ≡ bytes_of_width (bits_of width) }
{
    match width {
        IntWidth::I1 | IntWidth::I8 => 1,
        IntWidth::I16 => 2,
        IntWidth::I32 => 4,
        IntWidth::I64 => 8,
    }
}

impl Level {
    /// Nothing is known.
    pub fn new(alloc: Global) -> Self
        ensures { (n : Name) → known_at result n ≡ None }
    {
        Level {
            map: IndexMap::new(alloc),
        }
    }

    fn alignment_of(&self, name: &Name) -> Option<u64>
        ensures { result ≡ known_at self.now name.now }
    {
        match self.map.get(name) {
            None => None,
            Some(align) => *align,
        }
    }

    /// The alignment of a type, down through at most so many brackets.
    #[cycle(alignment)]
    pub fn alignment(&self, depth: u32, ty: &IrType) -> Option<u64>
        ensures { result ≡ alignment_in (known_at self.now) depth ty.now }
    {
        if depth == 0 {
            return None;
        }
        match ty.node() {
            Node::Int(width) => Some(width_align(*width)),
            Node::Ptr => Some(8),
            Node::Token => None,
            Node::Array(_, element) => self.alignment(depth - 1, element),
            Node::Struct(fields) => self.greatest(depth - 1, fields),
            Node::Named(name) => self.alignment_of(name),
        }
    }

    /// The greatest alignment of the fields.
    #[cycle(alignment)]
    fn greatest(&self, depth: u32, fields: &[IrType]) -> Option<u64>
        ensures { result ≡ fields_alignment (alignment_in (known_at self.now) depth) 1 (to_tys fields.now) }
    {
        let mut most = 1;
        for field in fields {
            match self.alignment(depth, field) {
                None => return None,
                Some(align) => most = most.max(align),
            }
        }
        Some(most)
    }

    /// Whether another table has the same of each of the types' names.
    pub fn agrees(&self, other: &Level, types: &[TypeItem]) -> bool
        ensures { result ≡ agree_on types.now (known_at self.now) (known_at other.now) }
    {
        for item in types {
            if self.alignment_of(&item.name) != other.alignment_of(&item.name) {
                return false;
            }
        }
        true
    }

    /// What is known one name further down. Of two types of one name the first counts, so it's put in last.
    pub fn next(&self, alloc: Global, types: &[TypeItem]) -> Result<Level, AllocError>
        ensures { IfOk result (λ l. IsNext types.now (known_at self.now) (known_at l)) }
    {
        let mut map = IndexMap::new(alloc);
        for item in types.iter().rev() {
            let name = item.name.copied(alloc)?;
            map.insert(name, self.alignment(64, &item.ty))?;
        }
        Ok(Level { map })
    }
}
