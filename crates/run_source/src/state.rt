//! The state of a source run, and of a framed one ("Coroutines in LLVM").

use ir_base::{FuncId, Items, Outcome, ValueId};
use ir_paths::Point;
use run_memory::{BlockId, Value};
use run_source_tables::run_step_library::{Slot, Stack, World};
use std::marker::Model;

/// How an activation came to be. In a framed run a ramp may be given its frame's address, and a resumed activation may
/// still be entering a label, from a block, as it executes its function's allocas.
#[derive(Clone, Copy, Debug, PartialEq, Eq, Drop)]
pub enum Mode {
    Plain,
    Ramp,
    Resumed,
    GivenRamp(Value),
    Entering {
        from: ir_base::BlockId,
        label: ValueId,
    },
}

/// Where an instance stands. A Suspended one has the place of its suspend, and the values that were kept there.
#[derive(Drop)]
pub enum Status {
    Running,
    Suspended(Point, Items<Option<Value>>),
    Finished,
}

/// A save: the activation that made it, which is the one with so many below it, and its place in the coroutine.
#[derive(Clone, Copy, Debug, PartialEq, Eq, Drop)]
pub struct Saved {
    pub depth: usize,
    pub save: Point,
}

/// A started coroutine. Its frame address is the offset `start` of its block, which is 0 but in a framed run, where a frame
/// may lie in another one. Its slots are the newest first.
#[derive(Drop)]
pub struct Instance {
    pub coroutine: FuncId,
    pub block: BlockId,
    pub start: u64,
    pub slots: Stack<Slot>,
    pub status: Status,
    pub last_save: Option<Saved>,
    pub released: bool,
    pub freed: bool,
}

/// The started coroutines, in the order of their begins. Tables have for each block the last of them that began in it, and
/// for each of them the one that began before it in the same block.
#[derive(Drop)]
pub struct Instances {
    pub(crate) list: Vec<Instance>,
    pub(crate) last: Vec<Option<usize>>,
    pub(crate) earlier: Vec<Option<usize>>,
}

impl Model for Instances {
    ghost use Rattle.std.specs.Prelude.{List};
    ghost use Rattle.run_source.specs.Indexes.{AreIndexed};
    ghost use Rattle.run_source.specs.declared.state.Instance.{Instance as TheInstance};

    ghost Value = { List TheInstance };

    ghost view = { λ x. x.list.items };

    ghost invariant = { λ x. AreIndexed x.list.items x.last.items x.earlier.items };
}

/// A function in execution, at an instruction of a block. The value that it returns goes to `result` of the activation
/// below. Its slots are the newest first.
#[derive(Drop)]
pub struct Activation {
    pub func: FuncId,
    pub block: ir_base::BlockId,
    pub at: usize,
    pub values: Items<Option<Value>>,
    pub slots: Stack<Slot>,
    pub result: Option<ValueId>,
    pub mode: Mode,
    pub instance: Option<usize>,
    pub has_left: bool,
}

/// The topmost activation and those below it, the nearest first.
#[derive(Drop)]
pub struct State {
    pub world: World,
    pub instances: Instances,
    pub top: Activation,
    pub below: Stack<Activation>,
    pub outcome: Outcome,
}
