//! What all activations of a run share.

use ir_paths::ir_base_library::{Event, Items, ValueId};
use run_memory::{BlockId, Memory};

/// What all activations share: the memory, the events so far, and how many answers and how many calls of `malloc` and
/// `_Znwm` there were. A count that has reached 2^128 - 1 stays there.
#[derive(Drop)]
pub struct World {
    pub memory: Memory,
    pub events: Items<Event>,
    pub answers_used: u128,
    pub allocs: u128,
}

/// The block of an alloca, which is named by its result.
#[derive(Clone, Copy, Debug, PartialEq, Eq, Drop)]
pub struct Slot {
    pub alloca: ValueId,
    pub block: BlockId,
}
