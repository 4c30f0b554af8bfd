//! Sets of a function's locals.

ghost use Rattle.std.specs.Prelude.{◌≡◌, ◌||◌, ◌==◌, ℕ, IfOk, OnOk, false};
ghost use Rattle.rule_names.specs.Numbers.{is_marked};

use ir_base::{Items, ValueId};
use std::alloc::{AllocError, Global};

/// A set of a function's locals, by a mark for each of its names.
#[derive(Drop)]
pub struct LocalSet {
    marks: Items<bool>,
}

impl LocalSet {
    /// The empty set, for so many names.
    pub fn new(alloc: Global, names: usize) -> Result<LocalSet, AllocError>
        ensures { IfOk result (λ s. (n : ℕ) → is_marked s n ≡ false) }
    {
        Ok(LocalSet {
            marks: Items::from_vec(Vec::from_elem(alloc, false, names)?),
        })
    }

    /// Whether the local is in the set.
    pub fn has(&self, local: ValueId) -> bool
        ensures { result ≡ is_marked self.now local }
    {
        match self.marks.get(local) {
            None => false,
            Some(mark) => *mark,
        }
    }

    /// Puts a local into the set. There is no room for one that is beyond the names.
    pub fn add(&mut self, local: ValueId) -> Result<(), AllocError>
        ensures { OnOk result ((k : ℕ) → is_marked self.new k ≡ ((local == k) || is_marked self.old k)) }
    {
        if local >= self.marks.len() {
            return Err(AllocError);
        }
        self.marks.set(local, true);
        Ok(())
    }
}
