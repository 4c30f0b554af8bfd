//! A short list that contracts see as a plain list.

ghost use Rattle.std.specs.Prelude.{◌≡◌, List, [], ◌∷◌, ◌++◌, length, OnOk, OnErr};

use crate::data::{Data, are_same};
use smallvec::SmallVec;
use std::alloc::{AllocError, AllocFailed, Global};
use std::marker::Model;

/// A list that is kept in place where it has at most two elements. Contracts see the values alone.
#[derive(Debug, Drop)]
pub struct Short<T> {
    values: SmallVec<T, 2>,
}

impl<T> Model for Short<T> {
    ghost Value = { List T };

    ghost view = { λ a. a.values.items };
}

impl<T: Default + Drop> Short<T> {
    /// The empty list.
    pub fn new(alloc: Global) -> Self
        ensures { result ≡ [] }
    {
        Short {
            values: SmallVec::new(alloc),
        }
    }

    /// The elements in order.
    pub fn as_slice(&self) -> &[T]
        ensures { result.now ≡ self.now }
    {
        self.values.as_slice()
    }

    /// Puts a value behind the others. A list that finds no memory stays as it was.
    pub fn push(&mut self, value: T) -> Result<(), AllocFailed<T>>
        ensures ok { OnOk result (self.new ≡ self.old ++ value ∷ []) }
        ensures err { OnErr result (self.new ≡ self.old) }
    {
        self.values.push(value)
    }
}

impl<T: Data + Default + Drop> Data for Short<T> {
    fn copied(&self, alloc: Global) -> Result<Self, AllocError> {
        let mut all = Short::new(alloc);
        for value in self.values.as_slice() {
            all.push(value.copied(alloc)?)?;
        }
        Ok(all)
    }

    fn is_same(&self, other: &Self) -> bool {
        are_same(self.values.as_slice(), other.values.as_slice())
    }
}
