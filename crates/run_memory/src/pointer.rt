//! Pointers and values.

ghost use Rattle.std.specs.Prelude.{◌≡◌, ◌≤◌};
ghost use Rattle.run_ints.specs.Numbers.{signed_of};
ghost use Rattle.run_memory.specs.Memory.{access_bytes};
ghost use Rattle.run_memory.specs.Pointers.{moved, same_pointer};

use run_ints::ir_base_library::{FuncId, Word};

/// A block's position in the list of memory blocks.
pub type BlockId = usize;

/// A signed offset of 64 bits that wraps, kept as its two's complement. A negative offset is a large number, so it lies
/// outside of every block.
#[derive(Clone, Copy, Debug, PartialEq, Eq, Drop)]
pub struct Offset {
    pub bits: u64,
}

impl Offset {
    /// The offset with its sign.
    pub fn signed(self) -> i64
        ensures { result ≡ signed_of 64 self.bits }
    {
        self.bits.cast_signed()
    }

    /// The offset that lies a difference further on, which is taken in its two's complement too.
    pub fn moved(self, by: u64) -> Offset
        ensures { result ≡ moved self by }
    {
        Offset {
            bits: self.bits.wrapping_add(by),
        }
    }
}

/// Where a pointer leads: nowhere, to an offset of a block, or to a function.
#[derive(Clone, Copy, Debug, PartialEq, Eq, Drop)]
pub enum Pointer {
    Null,
    At(BlockId, Offset),
    Func(FuncId),
}

/// What a local of a running function holds.
#[derive(Clone, Copy, Debug, PartialEq, Eq, Drop)]
pub enum Value {
    Poison,
    Int(Word),
    Ptr(Pointer),
}

/// What a load or a store takes: an integer of a width, or a pointer.
#[derive(Clone, Copy, Debug, PartialEq, Eq, Drop)]
pub enum Access {
    Int(u32),
    Ptr,
}

/// A byte of a block, by its place.
#[derive(Clone, Copy, Debug, PartialEq, Eq, Drop)]
pub struct Spot {
    pub block: BlockId,
    pub offset: u64,
}

impl Pointer {
    /// Whether both lead to the same place.
    pub fn is_same(self, other: Pointer) -> bool
        ensures { result ≡ same_pointer self other }
    {
        match (self, other) {
            (Pointer::Null, Pointer::Null) => true,
            (Pointer::At(b, o), Pointer::At(c, p)) => b == c && o.bits == p.bits,
            (Pointer::Func(f), Pointer::Func(g)) => f == g,
            _ => false,
        }
    }
}

impl Access {
    /// How many bytes the access takes.
    pub fn bytes(self) -> usize
        requires { access_bytes self ≤ 8 }
        ensures { result ≡ access_bytes self }
    {
        match self {
            Access::Int(width) => (width as usize + 7) / 8,
            Access::Ptr => 8,
        }
    }
}
