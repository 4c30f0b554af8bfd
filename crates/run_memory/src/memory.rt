//! The list of all blocks.

ghost use Rattle.std.specs.Prelude.{◌≡◌, ◌<◌, ◌==◌, ◌&&◌, [], length, slice_get, MatchOption, None, Some, OnOk, OnErr, IfOk, IfErr, Ok, Err};
ghost use Rattle.run_memory.specs.Memory.{fresh, may_be_owned, start, end, disown, seal, killed, kill, own, owned_to, with_block, bytes_at, range, write, is_constant};
ghost use Rattle.run_memory.specs.Whole.{IsWithin};

use crate::between::{copy_down, copy_up};
use crate::block::{Byte, Kind, Life, MemoryBlock};
use crate::contents::Contents;
use crate::pointer::{BlockId, Offset, Pointer, Spot, Value};
use crate::range::range_at;
use crate::rights::AccessRights;
use run_ints::ir_base_library::Cause;
use std::alloc::{AllocError, Global};
use std::marker::Model;

/// The blocks, by their positions. A position is never used again.
#[derive(Debug, Drop)]
pub struct Memory {
    blocks: Vec<MemoryBlock>,
}

impl Model for Memory {
    ghost use Rattle.std.specs.Prelude.{List};
    ghost use Rattle.run_memory.specs.declared.block.MemoryBlock.{MemoryBlock};
    ghost use Rattle.run_memory.specs.Whole.{AreWhole};

    ghost Value = { List MemoryBlock };

    ghost view = { λ m. m.blocks.items };

    ghost invariant = { λ m. AreWhole m.blocks.items };
}

impl Memory {
    /// A memory without blocks.
    pub fn new(alloc: Global) -> Self
        ensures { result ≡ [] }
    {
        Memory {
            blocks: Vec::new(alloc),
        }
    }

    /// The number of blocks that were made.
    pub fn len(&self) -> usize
        ensures { result ≡ length self.now }
    {
        self.blocks.len()
    }

    /// The block at a position.
    pub fn get(&self, block: BlockId) -> Option<&MemoryBlock>
        ensures { MatchOption result (slice_get self.now block ≡ None) (λ x. slice_get self.now block ≡ Some x.now) }
    {
        self.blocks.get(block)
    }

    /// Makes a new live block of undefined bytes, and gives its position. A memory that finds no room stays as it was.
    pub fn fresh(
        &mut self,
        alloc: Global,
        size: u64,
        align: u64,
        kind: Kind,
    ) -> Result<BlockId, AllocError>
        ensures made { OnOk result (self.new ≡ fresh self.old size align kind) }
        ensures position { IfOk result (λ b. b ≡ length self.old) }
        ensures refused { OnErr result (self.new ≡ self.old) }
    {
        let block = MemoryBlock {
            size,
            align,
            kind,
            life: Life::Live,
            owned: None,
            bytes: Contents::undefined(alloc, size as usize)?,
        };
        let position = self.blocks.len();
        self.blocks.push(block)?;
        Ok(position)
    }

    /// Makes a block that isn't killed live, with undefined bytes.
    pub fn start(&mut self, block: BlockId)
        ensures { self.new ≡ start self.old block }
    {
        if block < self.blocks.len() {
            let x = &mut self.blocks[block];
            x.start();
        }
    }

    /// Makes a block that isn't killed dead.
    pub fn end(&mut self, block: BlockId)
        ensures { self.new ≡ end self.old block }
    {
        if block < self.blocks.len() {
            let x = &mut self.blocks[block];
            x.end();
        }
    }

    /// Makes a block one that isn't owned.
    pub fn disown(&mut self, block: BlockId)
        ensures { self.new ≡ disown self.old block }
    {
        if block < self.blocks.len() {
            let x = &mut self.blocks[block];
            x.disown();
        }
    }

    /// Makes a global a constant, after its contents were stored.
    pub fn seal(&mut self, block: BlockId)
        ensures { self.new ≡ seal self.old block }
    {
        if block < self.blocks.len() {
            let x = &mut self.blocks[block];
            x.seal();
        }
    }

    /// Kills a block whatever its kind, and gives its room up.
    pub fn kill_at(&mut self, block: BlockId)
        ensures { self.new ≡ killed self.old block }
    {
        if block < self.blocks.len() {
            let x = &mut self.blocks[block];
            x.kill();
        }
    }

    /// The block that a kill of a kind may kill.
    fn killable(&self, p: Value, kind: Kind) -> Result<BlockId, Cause>
        ensures found { IfOk result (λ b. kill self.now p kind ≡ Ok (killed self.now b)) }
        ensures refused { IfErr result (λ c. kill self.now p kind ≡ Err c) }
    {
        let Value::Ptr(Pointer::At(block, offset)) = p else {
            return Err(Cause::Free);
        };
        match self.blocks.get(block) {
            Some(x) if offset.bits == 0 && x.is_unkilled(kind) => {
                if x.owned.is_some() {
                    Err(Cause::Owned)
                } else {
                    Ok(block)
                }
            }
            _ => Err(Cause::Free),
        }
    }

    /// Kills the block of a kind to whose start a pointer leads, and gives its room up.
    ///
    /// `Cause::Free`: it is no such block, or was killed before. `Cause::Owned`: it is owned. The memory stays as it was
    /// then.
    pub fn kill(&mut self, p: Value, kind: Kind) -> Result<(), Cause>
        ensures killed { OnOk result (kill self.old p kind ≡ Ok self.new) }
        ensures refused { IfErr result (λ c. kill self.old p kind ≡ Err c) }
        ensures unchanged { OnErr result (self.new ≡ self.old) }
    {
        let block = self.killable(p, kind)?;
        self.kill_at(block);
        Ok(())
    }

    /// Whether the start of a block that may be owned to a number of bytes lies at an offset of a block.
    pub fn may_own(&self, block: BlockId, offset: Offset, n: u64, kind: Kind) -> bool
        ensures { result ≡ (offset.bits == 0) && may_be_owned kind n (slice_get self.now block) }
    {
        match self.blocks.get(block) {
            None => false,
            Some(x) => offset.bits == 0 && x.may_be_owned(kind, n),
        }
    }

    /// The block of a kind that may be owned to a number of bytes.
    fn ownable(&self, p: Value, n: u64, kind: Kind) -> Result<BlockId, Cause>
        ensures found { IfOk result (λ b. own self.now p n kind ≡ Ok (with_block self.now b (owned_to n))) }
        ensures refused { IfErr result (λ c. own self.now p n kind ≡ Err c) }
    {
        match p {
            Value::Ptr(Pointer::At(block, offset)) if self.may_own(block, offset, n, kind) => {
                Ok(block)
            }
            _ => Err(Cause::Begin),
        }
    }

    /// Lets a block be owned to a number of bytes.
    pub fn own_at(&mut self, block: BlockId, n: u64)
        ensures { self.new ≡ with_block self.old block (owned_to n) }
    {
        if block < self.blocks.len() {
            let x = &mut self.blocks[block];
            x.own(n);
        }
    }

    /// Lets the block of a kind to whose start a pointer leads be owned to a number of bytes.
    ///
    /// `Cause::Begin`: it is no live block of the kind with so many bytes that isn't owned. The memory stays as it was then.
    pub fn own(&mut self, p: Value, n: u64, kind: Kind) -> Result<(), Cause>
        ensures owned { OnOk result (own self.old p n kind ≡ Ok self.new) }
        ensures refused { IfErr result (λ c. own self.old p n kind ≡ Err c) }
        ensures unchanged { OnErr result (self.new ≡ self.old) }
    {
        let block = self.ownable(p, n, kind)?;
        self.own_at(block, n);
        Ok(())
    }

    /// Bytes of a block.
    pub fn part(&self, spot: Spot, len: usize) -> &[Byte]
        requires { IsWithin (slice_get self.now spot.block) spot.offset len }
        ensures { result.now ≡ bytes_at self.now spot len }
    {
        let x = &self.blocks[spot.block];
        x.bytes.part(spot.offset as usize, len)
    }

    /// The range that a pointer leads to, or the first cause against an access to it.
    pub fn range<R: AccessRights>(
        &self,
        rights: &R,
        p: Value,
        len: u64,
        align: u64,
    ) -> Result<Spot, Cause>
        requires { 0 < align }
        ensures value { result ≡ range (R.rights rights.now) self.now p len align }
        ensures within { IfOk result (λ spot. IsWithin (slice_get self.now spot.block) spot.offset len) }
    {
        match p {
            Value::Poison => Err(Cause::Poison),
            Value::Ptr(Pointer::At(block, offset)) => match self.blocks.get(block) {
                Some(x) => range_at(rights, block, x, offset.bits, len, align),
                None => Err(Cause::Bounds),
            },
            _ => Err(Cause::Bounds),
        }
    }

    /// Whether a block is a constant.
    pub fn is_constant(&self, block: BlockId) -> bool
        ensures { result ≡ is_constant (slice_get self.now block) }
    {
        match self.blocks.get(block) {
            Some(x) => x.kind.is(Kind::Constant),
            None => false,
        }
    }

    /// Replaces bytes of a block.
    pub fn write(&mut self, spot: Spot, new: &[Byte])
        requires { IsWithin (slice_get self.old spot.block) spot.offset (length new.now) }
        ensures { self.new ≡ write self.old spot new.now }
    {
        let x = &mut self.blocks[spot.block];
        x.write(spot.offset as usize, new);
    }

    /// Replaces bytes of a block by those of another place.
    pub fn transfer(&mut self, to: Spot, from: Spot, len: usize)
        requires to_within { IsWithin (slice_get self.old to.block) to.offset len }
        requires from_within { IsWithin (slice_get self.old from.block) from.offset len }
        ensures { self.new ≡ write self.old to (bytes_at self.old from len) }
    {
        if to.block == from.block {
            let x = &mut self.blocks[to.block];
            x.copy_within(to.offset as usize, from.offset as usize, len);
        } else if to.block < from.block {
            copy_down(self.blocks.as_mut_slice(), to, from, len);
        } else {
            copy_up(self.blocks.as_mut_slice(), to, from, len);
        }
    }
}
