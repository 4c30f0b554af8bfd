//! The state of a plain run.

use ir_base::{BlockId, FuncId, Items, Outcome, ValueId};
use run_memory::Value;
use run_step::{Slot, Stack, World};

/// A function in execution, at an instruction of a block. The value that it returns goes to `result` of the activation
/// below.
#[derive(Drop)]
pub struct PlainActivation {
    pub func: FuncId,
    pub block: BlockId,
    pub at: usize,
    pub values: Items<Option<Value>>,
    pub slots: Stack<Slot>,
    pub result: Option<ValueId>,
}

/// The topmost activation and those below it, the nearest first. `elided` counts the calls of functions whose name ends
/// in `.noalloc`.
#[derive(Drop)]
pub struct PlainState {
    pub world: World,
    pub top: PlainActivation,
    pub below: Stack<PlainActivation>,
    pub elided: u128,
    pub outcome: Outcome,
}
