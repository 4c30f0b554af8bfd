//! What is noted beside locals.

ghost use Rattle.std.specs.Prelude.{◌≡◌, ◌==◌, ◌≤◌, ℕ, IfOk, OnErr, OnOk, None, Some, if◌then◌else◌};
ghost use Rattle.ir_locals.specs.Tables.{noted, or_first, room};

use ir_base::{Items, ValueId};
use std::alloc::{AllocError, Global};

/// What is noted beside the locals of a function, the first beside each.
#[derive(Drop)]
pub struct LocalTable<T> {
    slots: Items<Option<T>>,
}

impl<T: Copy> LocalTable<T> {
    /// Nothing is noted, and there is room for so many names.
    pub fn new(alloc: Global, names: usize) -> Result<LocalTable<T>, AllocError>
        ensures empty { IfOk result (λ t. (n : ℕ) → noted t n ≡ None) }
        ensures room { IfOk result (λ t. room t ≡ names) }
    {
        let mut slots = Items::new(alloc);
        for _at in 0..names {
            slots.push(None)?;
        }
        Ok(LocalTable { slots })
    }

    /// What is noted beside a local.
    pub fn get(&self, local: ValueId) -> Option<T>
        ensures { result ≡ noted self.now local }
    {
        match self.slots.get(local) {
            None => None,
            Some(slot) => *slot,
        }
    }

    /// Notes a value beside a local, where nothing is noted. There is no room for one that is beyond the names.
    pub fn note(&mut self, local: ValueId, value: T) -> Result<(), AllocError>
        ensures noted { OnOk result ((n : ℕ) → noted self.new n ≡ or_first (noted self.old n) (if local == n then Some value else None)) }
        ensures beyond { OnErr result (room self.old ≤ local) }
        ensures kept { room self.new ≡ room self.old }
    {
        if local >= self.slots.len() {
            return Err(AllocError);
        }
        if self.get(local).is_none() {
            self.slots.set(local, Some(value));
        }
        Ok(())
    }
}
