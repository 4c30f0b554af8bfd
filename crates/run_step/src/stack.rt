//! A list that grows at its front.

ghost use Rattle.std.specs.Prelude.{◌≡◌, List, [], ◌∷◌, length, reverse, OnOk, OnErr, IfErr, MatchOption};

use std::alloc::{AllocError, AllocFailed, Global};
use std::marker::Model;
use std::mem;

/// A list that grows at its front, which is the end of the vector that keeps it.
#[derive(Debug, Drop)]
pub struct Stack<T> {
    values: Vec<T>,
}

impl<T> Model for Stack<T> {
    ghost Value = { List T };

    ghost view = { λ s. reverse s.values.items };
}

impl<T> Stack<T> {
    /// The empty list.
    pub fn new(alloc: Global) -> Self
        ensures { result ≡ [] }
    {
        Stack {
            values: Vec::new(alloc),
        }
    }

    /// How many elements there are.
    pub fn len(&self) -> usize
        ensures { result ≡ length self.now }
    {
        self.values.len()
    }

    /// The values, the first one last.
    pub fn as_slice(&self) -> &[T]
        ensures { reverse result.now ≡ self.now }
    {
        self.values.as_slice()
    }

    /// Puts a value in front. A list that finds no memory stays as it was.
    pub fn push(&mut self, value: T) -> Result<(), AllocFailed<T>>
        ensures ok { OnOk result (self.new ≡ value ∷ self.old) }
        ensures err { OnErr result (self.new ≡ self.old) }
        ensures value_returned { IfErr result (λ failed. failed.value ≡ value) }
    {
        self.values.push(value)
    }

    /// Puts what stands on top in front, and a value on top in its place. A list that finds no memory leaves both as they
    /// were.
    pub fn push_under(&mut self, top: &mut T, value: T) -> Result<(), AllocError>
    where
        T: Drop,
        ensures ok { OnOk result ((self.new ≡ top.old ∷ self.old) × (top.new ≡ value)) }
        ensures err { OnErr result ((self.new ≡ self.old) × (top.new ≡ top.old)) }
    {
        let under = mem::replace(top, value);
        match self.values.push(under) {
            Ok(()) => Ok(()),
            Err(failed) => {
                *top = failed.value;
                Err(AllocError)
            }
        }
    }

    /// Takes the first value away.
    pub fn pop(&mut self) -> Option<T>
        ensures { MatchOption result ((self.old ≡ []) × (self.new ≡ [])) (λ x. self.old ≡ x ∷ self.new) }
    {
        self.values.pop()
    }
}
