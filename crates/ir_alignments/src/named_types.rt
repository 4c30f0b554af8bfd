//! Named types with their alignments.

ghost use Rattle.std.specs.Prelude.{◌≡◌, IfOk};
ghost use Rattle.ir_alignments.specs.Alignment.{align_in, alignment_at};
ghost use Rattle.ir_alignments.specs.Level.{known_at};
ghost use Rattle.ir_base.specs.declared.name.Name.{Name};

use crate::level::Level;
use ir_base::Items;
use ir_model::{IrType, TypeItem};
use std::alloc::{AllocError, Global};
use std::marker::Model;

/// Named types. Contracts see them alone; the table of their alignments is made once.
#[derive(Drop)]
pub struct NamedTypes {
    types: Items<TypeItem>,
    level: Level,
}

impl Model for NamedTypes {
    ghost use Rattle.std.specs.Prelude.{List, ◌≡◌};
    ghost use Rattle.ir_base.specs.declared.name.Name.{Name};
    ghost use Rattle.ir_model.specs.declared.module.TypeItem.{TypeItem};
    ghost use Rattle.ir_alignments.specs.Alignment.{alignment_at};
    ghost use Rattle.ir_alignments.specs.Level.{known_at};
    ghost use Rattle.ir_model.specs.contracts.module.TypeItem as item;
    ghost use Rattle.std.specs.Coded.{codes};

    ghost Value = { List TypeItem };

    ghost coded = { Prim.hlevel (codes, item.the_row.coded) };

    ghost view = { λ a. a.types };

    ghost invariant = { λ a. (n : Name) → known_at a.level n ≡ alignment_at a.types 64 n };
}

/// The table that goes down through 64 names. Where going one name further tells nothing new, nothing further does.
#[tactic(auto, using(crate::proofs::Levels::level_begun, crate::proofs::Levels::level_turn))]
fn level_of(alloc: Global, types: &[TypeItem]) -> Result<Level, AllocError>
    ensures { IfOk result (λ l. (n : Name) → known_at l n ≡ alignment_at types.now 64 n) }
{
    let mut level = Level::new(alloc);
    let mut names: u32 = 0;
    while names < 64 {
        let next = level.next(alloc, types)?;
        if next.agrees(&level, types) {
            return Ok(next);
        }
        level = next;
        names += 1;
    }
    Ok(level)
}

impl NamedTypes {
    /// Takes the types over.
    pub fn new(alloc: Global, types: Items<TypeItem>) -> Result<Self, AllocError>
        ensures { IfOk result (λ t. t ≡ types) }
    {
        let level = level_of(alloc, types.as_slice())?;
        Ok(NamedTypes { types, level })
    }

    /// The alignment of a type in bytes, or 1 where it has no size: it holds a token or a name that isn't known, contains
    /// itself, or is deeper than types may be.
    #[tactic(auto, using(crate::proofs::Levels::align_none, crate::proofs::Levels::align_some))]
    pub fn align(&self, ty: &IrType) -> u64
        ensures { result ≡ align_in self.now ty.now }
    {
        match self.level.alignment(64, ty) {
            None => 1,
            Some(align) => align,
        }
    }
}
