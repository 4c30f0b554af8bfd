//! Comparisons of pointers.

ghost use Rattle.std.specs.Prelude.{◌≡◌, slice_get, None, Some, Ok, Err};
ghost use Rattle.run_memory.specs.Memory.{may_compare, may_compare_at, is_compared, is_within, is_inside, compare, owner_rights};

use crate::block::MemoryBlock;
use crate::memory::Memory;
use crate::pointer::{BlockId, Offset, Pointer, Value};
use crate::rights::{AccessRights, OwnerRights};
use run_ints::ir_base_library::Cause;

impl MemoryBlock {
    /// Whether an offset is from 0 to the size.
    pub fn has_within(&self, offset: Offset) -> bool
        ensures { result ≡ is_within self.now offset }
    {
        offset.bits <= self.size
    }

    /// Whether an offset is from 0 to the size less 1.
    pub fn has_inside(&self, offset: Offset) -> bool
        ensures { result ≡ is_inside self.now offset }
    {
        offset.bits < self.size
    }
}

fn may_compare<R: AccessRights>(rights: &R, block: BlockId, x: &MemoryBlock, offset: Offset) -> bool
    ensures { result ≡ may_compare (R.rights rights.now) block x.now offset }
{
    !x.life.is_live() || rights.is_comparable(block, x, offset.bits)
}

impl Memory {
    /// Whether a pointer into a block may be compared with null.
    fn may_compare_at<R: AccessRights>(&self, rights: &R, block: BlockId, offset: Offset) -> bool
        ensures { result ≡ may_compare_at (R.rights rights.now) block (slice_get self.now block) offset }
    {
        match self.get(block) {
            Some(x) => may_compare(rights, block, x, offset),
            None => true,
        }
    }

    /// Whether two pointers into blocks may be compared.
    fn is_compared<R: AccessRights>(
        &self,
        rights: &R,
        b: BlockId,
        o: Offset,
        c: BlockId,
        p: Offset,
    ) -> bool
        ensures { result ≡ is_compared (R.rights rights.now) b o c p (slice_get self.now b) (slice_get self.now c) }
    {
        match (self.get(b), self.get(c)) {
            (Some(x), Some(y)) => {
                let live = x.life.is_live() && y.life.is_live();
                let open = may_compare(rights, b, x, o) && may_compare(rights, c, y, p);
                if b == c {
                    live && open && x.has_within(o) && y.has_within(p)
                } else {
                    live && open && x.has_inside(o) && y.has_inside(p)
                }
            }
            _ => false,
        }
    }

    /// Whether two pointers are equal, under some rights; otherwise as `compare`.
    pub fn compare_with<R: AccessRights>(
        &self,
        rights: &R,
        a: Value,
        b: Value,
    ) -> Result<bool, Cause>
        ensures { result ≡ compare (R.rights rights.now) self.now a b }
    {
        let (Value::Ptr(a), Value::Ptr(b)) = (a, b) else {
            return Err(Cause::Compare);
        };
        let defined = match (a, b) {
            (Pointer::Func(_), Pointer::Func(_)) => false,
            (Pointer::Func(_), Pointer::At(_, _)) => false,
            (Pointer::At(_, _), Pointer::Func(_)) => false,
            (Pointer::At(b, o), Pointer::Null) => self.may_compare_at(rights, b, o),
            (Pointer::Null, Pointer::At(c, p)) => self.may_compare_at(rights, c, p),
            (Pointer::At(b, o), Pointer::At(c, p)) => self.is_compared(rights, b, o, c, p),
            _ => true,
        };
        if defined {
            Ok(a.is_same(b))
        } else {
            Err(Cause::Compare)
        }
    }

    /// Whether two pointers are equal (LLVM Language Reference, "icmp").
    ///
    /// `Cause::Compare` where that isn't defined: it is defined for any pointer with null, for two into one live block at
    /// offsets from 0 to its size, and for two into live blocks at offsets from 0 to their sizes less 1; but not for a
    /// pointer into the owned bytes of a live block past its start.
    pub fn compare(&self, a: Value, b: Value) -> Result<bool, Cause>
        ensures { result ≡ compare owner_rights self.now a b }
    {
        self.compare_with(&OwnerRights, a, b)
    }
}
