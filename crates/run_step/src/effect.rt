//! What comes of an instruction.

use crate::world::Slot;
use ir_paths::ir_base_library::{Cause, FuncId, Items, ValueId};
use ir_paths::ir_model_library::Intrinsic;
use run_memory::Value;

/// What comes of an instruction. Only `Done` and `NewSlot` have changed the world and the activation's values.
#[derive(Drop)]
pub enum Effect {
    /// The next instruction follows.
    Done,
    /// The same, after an alloca.
    NewSlot(Slot),
    /// A call of a defined function.
    Enter {
        func: FuncId,
        args: Items<Value>,
        result: Option<ValueId>,
        must_tail: bool,
    },
    /// A coro intrinsic, of which each meaning says what it does.
    Coro(Intrinsic),
    /// A deallocation, of which each meaning says what it does.
    Deallocate(Value),
    /// A branch to a label.
    GoTo(ValueId),
    /// A return.
    Return(Option<Value>),
    /// The run is undefined.
    Stuck(Cause),
}
