//! Frames that callers give to their callees.

ghost use Rattle.std.specs.Prelude.{◌≡◌, ℕ, Option};
ghost use Rattle.ir_model.specs.declared.instr.Instr.{Instr as TheInstr};
ghost use Rattle.pass_elide.specs.declared.given.GivenFrame.{GivenFrame as TheFrame};

use ir_base::{BlockId, ValueId};
use ir_model::Instr;

/// Where a frame lies that a call gives to its callee.
#[derive(Clone, Copy, Debug, PartialEq, Eq, Drop)]
pub enum GivenFrame {
    /// In an alloca of so many bytes and of an alignment.
    Alloca { size: u64, align: u64 },
    /// So many bytes behind the address of the caller's frame.
    Field { base: ValueId, distance: u64 },
}

/// The frames that the calls of a function give to their callees.
pub trait GivenFrames: Sized {
    ghost found: { Self → ℕ → ℕ → TheInstr → Option TheFrame };

    /// The frame that an instruction gives to its callee, where it does. Its position counts the phis of its block.
    fn find(&self, block: BlockId, at: usize, instr: &Instr) -> Option<GivenFrame>
        ensures { result ≡ found self.now block at instr.now };
}
