//! Loads, stores and copies.

ghost use Rattle.std.specs.Prelude.{◌≡◌, ◌<◌, ◌≤◌, length, slice_get, Ok, Err, OnOk, OnErr, IfOk, IfErr, MatchResult};
ghost use Rattle.run_memory.specs.Memory.{access_bytes, bytes_at, both, copy, load, overlaps, owner_rights, rank, store, write};
ghost use Rattle.run_memory.specs.Whole.{IsWithin};

use crate::decoded::decoded;
use crate::encoded::encoded;
use crate::memory::Memory;
use crate::pointer::{Access, Spot, Value};
use crate::rights::{AccessRights, OwnerRights};
use run_ints::ir_base_library::Cause;

/// The ranges of a copy.
#[derive(Clone, Copy, Debug, PartialEq, Eq, Drop)]
struct Spots {
    to: Spot,
    from: Spot,
}

/// The place of a cause in the order in which an access looks for them.
fn rank(cause: Cause) -> u32
    ensures { result ≡ rank cause }
{
    match cause {
        Cause::Poison => 0,
        Cause::Bounds => 1,
        Cause::Dead => 2,
        Cause::Owned => 3,
        _ => 4,
    }
}

/// Both ranges of a copy, or the first cause against either.
fn both(to: Result<Spot, Cause>, from: Result<Spot, Cause>) -> Result<Spots, Cause>
    ensures value { MatchResult result (λ s. both to from ≡ Ok (s.to, s.from)) (λ c. both to from ≡ Err c) }
    ensures to_kept { IfOk result (λ s. to ≡ Ok s.to) }
    ensures from_kept { IfOk result (λ s. from ≡ Ok s.from) }
{
    match (to, from) {
        (Ok(to), Ok(from)) => Ok(Spots { to, from }),
        (Err(c), Err(d)) => Err(if rank(c) <= rank(d) { c } else { d }),
        (Err(c), _) => Err(c),
        (_, Err(d)) => Err(d),
    }
}

/// Whether two ranges of a length have a byte in common and aren't equal.
fn overlap(a: Spot, b: Spot, len: u64) -> bool
    ensures { result ≡ overlaps a b len }
{
    if a.block != b.block || a.offset == b.offset {
        return false;
    }
    if a.offset < b.offset {
        b.offset - a.offset < len
    } else {
        a.offset - b.offset < len
    }
}

impl Memory {
    /// What a load under some rights finds; otherwise as `load`.
    pub fn load_with<R: AccessRights>(
        &self,
        rights: &R,
        p: Value,
        what: Access,
        align: u64,
    ) -> Result<Value, Cause>
        requires aligned { 0 < align }
        requires short { access_bytes what ≤ 8 }
        ensures { result ≡ load (R.rights rights.now) self.now p what align }
    {
        let len = what.bytes();
        let spot = self.range(rights, p, len as u64, align)?;
        Ok(decoded(what, self.part(spot, len)))
    }

    /// The value that is stored behind a pointer (LLVM Language Reference, "load").
    ///
    /// `Cause::Poison`: the pointer is poison. `Cause::Bounds`: it leads to no such bytes. `Cause::Dead`: the block isn't
    /// live. `Cause::Owned`: the bytes are owned. `Cause::Align`: the alignment isn't met. The first of these that holds
    /// is given.
    pub fn load(&self, p: Value, what: Access, align: u64) -> Result<Value, Cause>
        requires aligned { 0 < align }
        requires short { access_bytes what ≤ 8 }
        ensures { result ≡ load owner_rights self.now p what align }
    {
        self.load_with(&OwnerRights, p, what, align)
    }

    /// Stores a value under some rights; otherwise as `store`.
    pub fn store_with<R: AccessRights>(
        &mut self,
        rights: &R,
        p: Value,
        v: Value,
        what: Access,
        align: u64,
    ) -> Result<(), Cause>
        requires aligned { 0 < align }
        requires short { access_bytes what ≤ 8 }
        ensures stored { OnOk result (store (R.rights rights.now) self.old p v what align ≡ Ok self.new) }
        ensures refused { IfErr result (λ c. store (R.rights rights.now) self.old p v what align ≡ Err c) }
        ensures unchanged { OnErr result (self.new ≡ self.old) }
    {
        let len = what.bytes();
        let spot = self.range(rights, p, len as u64, align)?;
        if self.is_constant(spot.block) {
            return Err(Cause::Constant);
        }
        self.write(spot, encoded(v, len).as_slice());
        Ok(())
    }

    /// Stores a value behind a pointer (LLVM Language Reference, "store").
    ///
    /// The causes are those of `load`, and `Cause::Constant` behind them for a block that is a constant. The memory stays
    /// as it was then.
    pub fn store(&mut self, p: Value, v: Value, what: Access, align: u64) -> Result<(), Cause>
        requires aligned { 0 < align }
        requires short { access_bytes what ≤ 8 }
        ensures stored { OnOk result (store owner_rights self.old p v what align ≡ Ok self.new) }
        ensures refused { IfErr result (λ c. store owner_rights self.old p v what align ≡ Err c) }
        ensures unchanged { OnErr result (self.new ≡ self.old) }
    {
        self.store_with(&OwnerRights, p, v, what, align)
    }

    /// Both ranges of a copy that may be made.
    fn copyable<R: AccessRights>(
        &self,
        rights: &R,
        to: Value,
        from: Value,
        len: u64,
    ) -> Result<Spots, Cause>
        requires { 0 < len }
        ensures found { IfOk result (λ s. copy (R.rights rights.now) self.now to from len ≡ Ok (write self.now s.to (bytes_at self.now s.from len))) }
        ensures refused { IfErr result (λ c. copy (R.rights rights.now) self.now to from len ≡ Err c) }
        ensures to_within { IfOk result (λ s. IsWithin (slice_get self.now s.to.block) s.to.offset len) }
        ensures from_within { IfOk result (λ s. IsWithin (slice_get self.now s.from.block) s.from.offset len) }
    {
        let spots = both(
            self.range(rights, to, len, 1),
            self.range(rights, from, len, 1),
        )?;
        if self.is_constant(spots.to.block) {
            Err(Cause::Constant)
        } else if overlap(spots.to, spots.from, len) {
            Err(Cause::Overlap)
        } else {
            Ok(spots)
        }
    }

    /// Copies bytes under some rights; otherwise as `copy`.
    pub fn copy_with<R: AccessRights>(
        &mut self,
        rights: &R,
        to: Value,
        from: Value,
        len: u64,
    ) -> Result<(), Cause>
        ensures copied { OnOk result (copy (R.rights rights.now) self.old to from len ≡ Ok self.new) }
        ensures refused { IfErr result (λ c. copy (R.rights rights.now) self.old to from len ≡ Err c) }
        ensures unchanged { OnErr result (self.new ≡ self.old) }
    {
        if len > 0 {
            let spots = self.copyable(rights, to, from, len)?;
            self.transfer(spots.to, spots.from, len as usize);
        }
        Ok(())
    }

    /// Copies bytes (LLVM Language Reference, "llvm.memcpy"). A copy of no bytes does nothing.
    ///
    /// The causes are those of `load` at either range, the first of them that holds at one, with the alignment 1; then
    /// `Cause::Constant` where the bytes would go into a constant, and `Cause::Overlap` where the ranges overlap without
    /// being equal. The memory stays as it was then.
    pub fn copy(&mut self, to: Value, from: Value, len: u64) -> Result<(), Cause>
        ensures copied { OnOk result (copy owner_rights self.old to from len ≡ Ok self.new) }
        ensures refused { IfErr result (λ c. copy owner_rights self.old to from len ≡ Err c) }
        ensures unchanged { OnErr result (self.new ≡ self.old) }
    {
        self.copy_with(&OwnerRights, to, from, len)
    }
}
