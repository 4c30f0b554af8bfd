//! Points of a function, and what the machines know of its paths beforehand.

use ir_model::ir_base_library::{BlockId, Items, ValueId};

/// An instruction of a block, or behind the last of them its terminator. Phis aren't counted: they are taken with the
/// branch that enters their block.
#[derive(Clone, Copy, Debug, PartialEq, Eq, Drop)]
pub struct Point {
    pub block: BlockId,
    pub at: usize,
}

/// A save with its suspend, and the points between them ("Coroutines in LLVM", "llvm.coro.save").
#[derive(Drop)]
pub struct Window {
    pub save: Point,
    pub suspend: Point,
    pub inside: Items<Point>,
}

/// What a machine looks up of a function's paths: its windows, and which of its allocas are ramp slots.
#[derive(Drop)]
pub struct Facts {
    pub windows: Items<Window>,
    pub ramp_slots: Items<ValueId>,
}
