//! Names of locals and functions.

ghost use Rattle.std.specs.Prelude.{◌≡◌, IfOk, IsTrue, ◌↔◌};

use crate::data::Data;
use crate::text::Text;
use std::alloc::{AllocError, Global};

/// A name is a number or a text.
#[derive(Debug, Drop, PartialEq, Eq, Hash)]
pub enum Name {
    Number(u32),
    Text(Text),
}

impl Data for Name {
    fn copied(&self, alloc: Global) -> Result<Name, AllocError> {
        match self {
            Name::Number(n) => Ok(Name::Number(*n)),
            Name::Text(t) => Ok(Name::Text(t.copied(alloc)?)),
        }
    }

    fn is_same(&self, other: &Name) -> bool {
        match (self, other) {
            (Name::Number(a), Name::Number(b)) => a == b,
            (Name::Text(a), Name::Text(b)) => a.is_same(b),
            _ => false,
        }
    }
}
