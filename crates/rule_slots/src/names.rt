//! Sets of names of a function.

ghost use Rattle.std.specs.Prelude.{◌≡◌, ◌||◌, ◌==◌, ℕ, [], IfOk, OnOk, replicate, false};
ghost use Rattle.rule_slots.specs.Names.{AreNamed, is_named, names_one, names_other};

use ir_base::{Items, ValueId};
use ir_model::Operand;
use std::alloc::{AllocError, Global};
use std::marker::Model;

/// A set of names of a function, by a mark for each of them.
#[derive(Drop)]
pub struct NameSet {
    marks: Items<bool>,
}

impl Model for NameSet {
    ghost use Rattle.std.specs.Prelude.{List, Bool};

    ghost Value = { List Bool };

    ghost view = { λ s. s.marks };
}

impl NameSet {
    /// The empty set, with room for so many names.
    pub fn new(alloc: Global, count: usize) -> Result<Self, AllocError>
        ensures { IfOk result (λ set. AreNamed [] set) }
    {
        Ok(NameSet {
            marks: Items::from_vec(vec![in alloc; false; count]?),
        })
    }

    /// The set of these marks.
    pub fn from_marks(marks: Items<bool>) -> Self
        ensures { result ≡ marks }
    {
        NameSet { marks }
    }

    /// Whether the name is in the set.
    pub fn has(&self, name: ValueId) -> bool
        ensures { result ≡ is_named self.now name }
    {
        match self.marks.get(name) {
            None => false,
            Some(mark) => *mark,
        }
    }

    /// Puts a name into the set. There is no room for one that isn't the function's.
    pub fn add(&mut self, name: ValueId) -> Result<(), AllocError>
        ensures { OnOk result ((v : ℕ) → is_named self.new v ≡ (is_named self.old v || (name == v))) }
    {
        if name >= self.marks.len() {
            return Err(AllocError);
        }
        self.marks.set(name, true);
        Ok(())
    }
}

/// The set of these names, with room for so many.
pub fn name_set(alloc: Global, count: usize, names: &[ValueId]) -> Result<NameSet, AllocError>
    ensures { IfOk result (λ set. AreNamed names.now set) }
{
    let mut set = NameSet::new(alloc, count)?;
    for name in names {
        set.add(*name)?;
    }
    Ok(set)
}

/// Whether the operand is a local of the set.
pub fn names_one(set: &NameSet, operand: &Operand) -> bool
    ensures { result ≡ names_one set.now operand.now }
{
    match operand {
        Operand::Local(name) => set.has(*name),
        _ => false,
    }
}

/// Whether the operand is a local of the one set, and not of the other.
pub fn names_other(set: &NameSet, without: &NameSet, operand: &Operand) -> bool
    ensures { result ≡ names_other set.now without.now operand.now }
{
    match operand {
        Operand::Local(name) => set.has(*name) && !without.has(*name),
        _ => false,
    }
}
