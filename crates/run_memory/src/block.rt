//! Blocks of memory.

ghost use Rattle.std.specs.Prelude.{◌≡◌, ◌+◌, ◌≤◌, length, take, drop, Some};
ghost use Rattle.run_memory.specs.Memory.{is_live, is_killed, same_kind};

use crate::contents::Contents;
use crate::pointer::Pointer;

/// What a byte of memory holds: nothing that is known, a number, or a part of a pointer, of which there are eight.
#[derive(Clone, Copy, Debug, PartialEq, Eq, Drop)]
pub enum Byte {
    Undefined,
    Number(u8),
    Part(Pointer, u32),
}

/// Who made a block.
#[derive(Clone, Copy, Debug, PartialEq, Eq, Drop)]
pub enum Kind {
    Allocator,
    Stack,
    Slot,
    Global,
    Constant,
}

/// Whether a block may be accessed. One that has ended may start again, a killed one never does.
#[derive(Clone, Copy, Debug, PartialEq, Eq, Drop)]
pub enum Life {
    Live,
    Ended,
    Killed,
}

/// A block. While it isn't killed it has as many bytes as its size says; a killed one has none. An owned one is owned from
/// its start to a number of bytes.
#[derive(Debug, Drop)]
pub struct MemoryBlock {
    pub size: u64,
    pub align: u64,
    pub kind: Kind,
    pub life: Life,
    pub owned: Option<u64>,
    pub bytes: Contents,
}

impl MemoryBlock {
    ghost use Rattle.run_memory.specs.Memory.{with_bytes, started, ended, sealed, killed_block, owned_to, disowned, is_constant, is_unkilled, is_owned, may_be_owned};
    ghost use Rattle.run_memory.specs.Whole.{IsWhole};

    /// A block dies for good.
    pub fn kill(&mut self)
        ensures value { self.new ≡ killed_block self.old }
        ensures whole { IsWhole self.new }
    {
        self.life = Life::Killed;
        self.owned = None;
        self.bytes.clear();
    }

    /// A block that isn't killed lives with undefined bytes.
    pub fn start(&mut self)
        requires { IsWhole self.old }
        ensures value { self.new ≡ started self.old }
        ensures whole { IsWhole self.new }
    {
        if !self.life.is_killed() {
            self.life = Life::Live;
            self.bytes.forget();
        }
    }

    /// A block that isn't killed is dead.
    pub fn end(&mut self)
        requires { IsWhole self.old }
        ensures value { self.new ≡ ended self.old }
        ensures whole { IsWhole self.new }
    {
        if !self.life.is_killed() {
            self.life = Life::Ended;
        }
    }

    /// A block is owned from its start to a number of bytes.
    pub fn own(&mut self, n: u64)
        requires { IsWhole self.old }
        ensures value { self.new ≡ owned_to n self.old }
        ensures whole { IsWhole self.new }
    {
        self.owned = Some(n);
    }

    /// A block isn't owned any more.
    pub fn disown(&mut self)
        requires { IsWhole self.old }
        ensures value { self.new ≡ disowned self.old }
        ensures whole { IsWhole self.new }
    {
        self.owned = None;
    }

    /// A global becomes a constant.
    pub fn seal(&mut self)
        requires { IsWhole self.old }
        ensures value { self.new ≡ sealed self.old }
        ensures whole { IsWhole self.new }
    {
        if self.kind.is(Kind::Global) {
            self.kind = Kind::Constant;
        }
    }

    /// Replaces bytes from a place on.
    pub fn write(&mut self, from: usize, new: &[Byte])
        requires whole { IsWhole self.old }
        requires within { from + length new.now ≤ length self.old.bytes }
        ensures value { self.new ≡ with_bytes from new.now self.old }
        ensures whole { IsWhole self.new }
    {
        self.bytes.write(from, new);
    }

    /// Replaces bytes from a place on by those from another place on.
    pub fn copy_within(&mut self, to: usize, from: usize, len: usize)
        requires whole { IsWhole self.old }
        requires to_within { to + len ≤ length self.old.bytes }
        requires from_within { from + len ≤ length self.old.bytes }
        ensures value { self.new ≡ with_bytes to (take len (drop from self.old.bytes)) self.old }
        ensures whole { IsWhole self.new }
    {
        self.bytes.copy_within(to, from, len);
    }

    /// Whether it is a block of a kind that was never killed.
    pub fn is_unkilled(&self, kind: Kind) -> bool
        ensures { result ≡ is_unkilled kind (Some self.now) }
    {
        self.kind.is(kind) && !self.life.is_killed()
    }

    /// Whether it is a live block of a kind, not owned, with at least a number of bytes.
    pub fn may_be_owned(&self, kind: Kind, n: u64) -> bool
        ensures { result ≡ may_be_owned kind n (Some self.now) }
    {
        self.life.is_live() && self.kind.is(kind) && self.owned.is_none() && n <= self.size
    }
}

impl Default for Byte {
    ghost use Rattle.run_memory.specs.declared.block.Byte.{Byte};

    ghost is_default = { λ x. x ≡ Byte.Undefined };

    fn default() -> Self {
        Byte::Undefined
    }
}

impl Kind {
    /// Whether both are the same kind.
    pub fn is(self, other: Kind) -> bool
        ensures { result ≡ same_kind self other }
    {
        match (self, other) {
            (Kind::Allocator, Kind::Allocator) => true,
            (Kind::Stack, Kind::Stack) => true,
            (Kind::Slot, Kind::Slot) => true,
            (Kind::Global, Kind::Global) => true,
            (Kind::Constant, Kind::Constant) => true,
            _ => false,
        }
    }
}

impl Life {
    /// Whether the block may be accessed.
    pub fn is_live(self) -> bool
        ensures { result ≡ is_live self }
    {
        match self {
            Life::Live => true,
            _ => false,
        }
    }

    /// Whether the block never lives again.
    pub fn is_killed(self) -> bool
        ensures { result ≡ is_killed self }
    {
        match self {
            Life::Killed => true,
            _ => false,
        }
    }
}
