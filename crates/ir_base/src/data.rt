//! Values that are copied and compared as data.

ghost use Rattle.std.specs.Prelude.{◌≡◌, IfOk, IsTrue, ◌↔◌};

use std::alloc::{AllocError, Global};

/// Values that are copied and compared as data: a copy is the same data, and two are the same exactly where their data is.
pub trait Data: Sized {
    /// A value with the same data.
    fn copied(&self, alloc: Global) -> Result<Self, AllocError>
        ensures { IfOk result (λ x. x ≡ self.now) };

    /// Whether both hold the same data.
    fn is_same(&self, other: &Self) -> bool
        ensures { IsTrue result ↔ (self.now ≡ other.now) };
}

/// Whether two lists hold the same data.
pub fn are_same<T: Data>(a: &[T], b: &[T]) -> bool
    ensures { IsTrue result ↔ (a.now ≡ b.now) }
{
    let mut a = a;
    let mut b = b;
    loop {
        match (a, b) {
            ([], []) => return true,
            ([x, xs @ ..], [y, ys @ ..]) => {
                if !x.is_same(y) {
                    return false;
                }
                a = xs;
                b = ys;
            }
            _ => return false,
        }
    }
}

impl Data for usize {
    fn copied(&self, _alloc: Global) -> Result<usize, AllocError> {
        Ok(*self)
    }

    fn is_same(&self, other: &usize) -> bool {
        *self == *other
    }
}

impl<T: Data> Data for Option<T> {
    fn copied(&self, alloc: Global) -> Result<Option<T>, AllocError> {
        match self {
            None => Ok(None),
            Some(value) => Ok(Some(value.copied(alloc)?)),
        }
    }

    fn is_same(&self, other: &Option<T>) -> bool {
        match (self, other) {
            (None, None) => true,
            (Some(a), Some(b)) => a.is_same(b),
            _ => false,
        }
    }
}
