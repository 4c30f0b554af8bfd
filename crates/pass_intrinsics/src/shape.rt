//! What the parts of a coroutine are made by.

use ir_base::{Items, Name, SuspendId, ValueId};
use ir_model::IntWidth;

/// A suspend: its save, the label of its block, and the labels of its switch.
#[derive(Drop)]
pub struct SuspendPoint {
    pub save: Option<ValueId>,
    pub is_final: bool,
    pub block: ValueId,
    pub resume: ValueId,
    pub destroy: ValueId,
}

/// The parts that a coroutine is split into.
#[derive(Clone, Copy, Debug, PartialEq, Eq, Drop)]
pub enum Part {
    /// The starting function.
    Ramp,
    /// The starting function that is given the address of its frame.
    GivenRamp,
    /// The function that goes on at a resume edge.
    Resume,
    /// The function that goes on at a destroy edge.
    Destroy,
    /// The function that goes on there where the frame was given.
    Cleanup,
}

/// What the parts of a coroutine are made by.
#[derive(Drop)]
pub struct Shape {
    /// The name of the frame address.
    pub begin: ValueId,
    /// The label of the end block.
    pub end: ValueId,
    /// The size and alignment of the frame, and the offset and the width of its index.
    pub size: u64,
    pub align: u64,
    pub index: u64,
    pub width: IntWidth,
    /// The suspends in order of the text.
    pub suspends: Items<SuspendPoint>,
    /// For each name the suspend whose save it is.
    pub saves: Items<Option<SuspendId>>,
    /// The first new name.
    pub base: ValueId,
    /// The functions that a resume and a destroy call, and the one that a destroy calls where the frame was given.
    pub resume_name: Name,
    pub destroy_name: Name,
    pub cleanup_name: Name,
}
