//! The bytes of a block.

ghost use Rattle.std.specs.Prelude.{◌≡◌, ◌+◌, ◌≤◌, List, [], length, take, drop, replicate, IfOk};
ghost use Rattle.run_memory.specs.Memory.{written};

use crate::block::Byte;
use std::alloc::{AllocError, Global};
use std::marker::Model;

/// The bytes of a block, which contracts see as a list.
#[derive(Debug, Drop)]
pub struct Contents {
    bytes: Vec<Byte>,
}

impl Model for Contents {
    ghost use Rattle.std.specs.Prelude.{List};
    ghost use Rattle.run_memory.specs.declared.block.Byte.{Byte};

    ghost Value = { List Byte };

    ghost view = { λ c. c.bytes.items };
}

impl Contents {
    /// No bytes.
    pub fn none(alloc: Global) -> Self
        ensures { result ≡ [] }
    {
        Contents {
            bytes: Vec::new(alloc),
        }
    }

    /// As many undefined bytes as a size says.
    pub fn undefined(alloc: Global, size: usize) -> Result<Self, AllocError>
        ensures { IfOk result (λ c. c ≡ replicate size Byte.Undefined) }
    {
        let bytes = vec![in alloc; Byte::Undefined; size]?;
        Ok(Contents { bytes })
    }

    /// The number of bytes.
    pub fn len(&self) -> usize
        ensures { result ≡ length self.now }
    {
        self.bytes.len()
    }

    /// The bytes from a place on.
    pub fn part(&self, from: usize, len: usize) -> &[Byte]
        requires { from + len ≤ length self.now }
        ensures { result.now ≡ take len (drop from self.now) }
    {
        let bytes = self.bytes.as_slice();
        &bytes[from..from + len]
    }

    /// Replaces the bytes from a place on.
    pub fn write(&mut self, from: usize, new: &[Byte])
        requires { from + length new.now ≤ length self.old }
        ensures { self.new ≡ written self.old from new.now }
    {
        self.bytes[from..from + new.len()].copy_from_slice(new);
    }

    /// Gives all bytes up, with the room that they took.
    pub fn clear(&mut self)
        ensures { self.new ≡ [] }
    {
        let alloc = *self.bytes.allocator();
        self.bytes = Vec::new(alloc);
    }

    /// Makes all bytes undefined.
    pub fn forget(&mut self)
        ensures { self.new ≡ replicate (length self.old) Byte.Undefined }
    {
        self.bytes.fill(Byte::Undefined);
    }

    /// Replaces the bytes from a place on by those from another place on.
    pub fn copy_within(&mut self, to: usize, from: usize, len: usize)
        requires to_within { to + len ≤ length self.old }
        requires from_within { from + len ≤ length self.old }
        ensures { self.new ≡ written self.old to (take len (drop from self.old)) }
    {
        self.bytes.copy_within(from..from + len, to);
    }
}
