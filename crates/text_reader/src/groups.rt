//! Sets of attribute groups.

ghost use Rattle.std.specs.Prelude.{◌≡◌, OnOk, OnErr, IfOk, []};
ghost use Rattle.text_reader.specs.Groups.{with_group, has_group, has_none};

use indexmap::IndexSet;
use ir_base::Items;
use std::alloc::{AllocError, Global};
use std::marker::Model;

/// Attribute groups, by the digits of their numbers without leading zeros.
#[derive(Drop)]
pub struct Groups {
    numbers: IndexSet<Items<u8>>,
}

impl Model for Groups {
    ghost use Rattle.std.specs.Prelude.{List, ℕ};

    ghost Value = { List (List ℕ) };

    ghost view = { λ a. a.numbers.keys };
}

impl Groups {
    /// No groups.
    pub fn new(alloc: Global) -> Self
        ensures { result ≡ [] }
    {
        Groups {
            numbers: IndexSet::new(alloc),
        }
    }

    /// Adds a group.
    pub fn add(&mut self, number: Items<u8>) -> Result<(), AllocError>
        ensures ok { OnOk result (self.new ≡ with_group self.old number) }
        ensures err { OnErr result (self.new ≡ self.old) }
    {
        self.numbers.insert_full(number)?;
        Ok(())
    }

    pub fn contains(&self, number: &Items<u8>) -> bool
        ensures { result ≡ has_group self.now number.now }
    {
        self.numbers.contains(number)
    }

    pub fn is_empty(&self) -> bool
        ensures { result ≡ has_none self.now }
    {
        self.numbers.is_empty()
    }
}
