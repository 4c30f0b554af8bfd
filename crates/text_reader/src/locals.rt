//! The names of a function's labels and values.

ghost use Rattle.std.specs.Prelude.{◌≡◌, IfOk, OnOk, OnErr, [], List};
ghost use Rattle.text_reader.specs.Locals.{place_of, with_name};

use indexmap::IndexSet;
use ir_base::{Data, Items, Name, ValueId};
use std::alloc::{AllocError, Global};
use std::marker::Model;

/// The names of a function's labels and values, each once, in the order of their first occurrence.
#[derive(Drop)]
pub struct Locals {
    names: IndexSet<Name>,
}

impl Model for Locals {
    ghost use Rattle.std.specs.Prelude.{List};
    ghost use Rattle.ir_base.specs.declared.name.Name.{Name};

    ghost Value = { List Name };

    ghost view = { λ a. a.names.keys };
}

impl Locals {
    /// No names.
    pub fn new(alloc: Global) -> Self
        ensures { result ≡ [] }
    {
        Locals {
            names: IndexSet::new(alloc),
        }
    }

    /// The position of a name, which is added where it is new.
    pub fn place(&mut self, name: Name) -> Result<ValueId, AllocError>
        ensures place { IfOk result (λ i. i ≡ place_of self.old name) }
        ensures kept { OnOk result (self.new ≡ with_name self.old name) }
        ensures err { OnErr result (self.new ≡ self.old) }
    {
        let (index, _) = self.names.insert_full(name)?;
        Ok(index)
    }

    /// The names as a list.
    pub fn to_items(&self, alloc: Global) -> Result<Items<Name>, AllocError>
        ensures { IfOk result (λ all. all ≡ self.now) }
    {
        let mut all = Items::new(alloc);
        for name in self.names.iter() {
            all.push(name.copied(alloc)?)?;
        }
        Ok(all)
    }
}
