//! A list that contracts see as a plain list.

ghost use Rattle.std.specs.Prelude.{◌≡◌, List, [], ◌∷◌, ◌++◌, length, OnOk, OnErr, IfErr, MatchOption, None, Some, slice_get, slice_set};
ghost use Rattle.std.specs.Cmp.Lexicographic.{pointwise, lists_per, lists_equiv};
ghost use Rattle.std.specs.Hash as fed;
ghost use Rattle.std.specs.Hash.{items_Alike};

use crate::data::{Data, are_same};
use std::alloc::{AllocError, AllocFailed, Global};
use std::hash::{Hash, Hasher};
use std::marker::Model;

/// A list of values. Contracts see the values alone, not how much room was reserved.
#[derive(Debug, Drop)]
pub struct Items<T> {
    values: Vec<T>,
}

impl<T> Model for Items<T> {
    ghost Value = { List T };

    ghost view = { λ a. a.values.items };
}

impl<T> Items<T> {
    pub fn new(alloc: Global) -> Self
        ensures { result ≡ [] }
    {
        Items {
            values: Vec::new(alloc),
        }
    }

    /// Takes the vector over.
    pub fn from_vec(values: Vec<T>) -> Self
        ensures { result ≡ values.items }
    {
        Items { values }
    }

    /// Gives the vector back.
    pub fn into_vec(self) -> Vec<T>
        ensures { result.items ≡ self }
    {
        self.values
    }

    pub fn as_slice(&self) -> &[T]
        ensures { result.now ≡ self.now }
    {
        self.values.as_slice()
    }

    pub fn len(&self) -> usize
        ensures { result ≡ length self.now }
    {
        self.values.len()
    }

    pub fn get(&self, i: usize) -> Option<&T>
        ensures { MatchOption result (slice_get self.now i ≡ None) (λ x. slice_get self.now i ≡ Some x.now) }
    {
        self.values.get(i)
    }

    /// Puts a value at a position; past the end it does nothing.
    pub fn set(&mut self, i: usize, value: T)
    where
        T: Drop,
        ensures { self.new ≡ slice_set self.old i value }
    {
        if i < self.values.len() {
            self.values[i] = value;
        }
    }

    pub fn push(&mut self, value: T) -> Result<(), AllocFailed<T>>
        ensures ok { OnOk result (self.new ≡ self.old ++ value ∷ []) }
        ensures err { OnErr result (self.new ≡ self.old) }
        ensures value_returned { IfErr result (λ failed. failed.value ≡ value) }
    {
        self.values.push(value)
    }
}

impl<T: PartialEq> PartialEq for Items<T> {
    ghost eq = { λ x y. pointwise T.eq x y };

    ghost laws = { lists_per T.laws };

    fn eq(&self, other: &Self) -> bool {
        self.values == other.values
    }
}

impl<T: Eq> Eq for Items<T> {
    ghost laws = { lists_equiv T.Eq.laws };
}

impl<T: Hash> Hash for Items<T> {
    ghost hash_input = { λ v. fed.slice T.hash_input v };

    ghost respects_eq = { (items_Alike (record { fed = T.respects_eq })).fed };

    fn hash<H: Hasher>(&self, state: &mut H) {
        self.values.hash(state);
    }
}

impl<T: Data + Drop> Data for Items<T> {
    fn copied(&self, alloc: Global) -> Result<Self, AllocError> {
        let mut all = Items::new(alloc);
        for value in self.values.as_slice() {
            all.push(value.copied(alloc)?)?;
        }
        Ok(all)
    }

    fn is_same(&self, other: &Self) -> bool {
        are_same(self.values.as_slice(), other.values.as_slice())
    }
}
