//! What is seen of a run.

ghost use Rattle.std.specs.Prelude.{◌≡◌, IfOk, IsTrue, ◌↔◌};

use crate::cause::Cause;
use crate::data::Data;
use crate::items::Items;
use std::alloc::{AllocError, Global};

/// A function's position among the functions of its module.
pub type FuncId = usize;

/// A block's position in its function.
pub type BlockId = usize;

/// A local's position in its function's table of names.
pub type ValueId = usize;

/// An alloca's position among the allocas of its function, in order of the text.
pub type SlotId = usize;

/// A suspend's position among the suspends of its function, in order of the text.
pub type SuspendId = usize;

/// A number of a width, from 0 to 2^width - 1.
#[derive(Clone, Copy, Debug, PartialEq, Eq, Drop)]
pub struct Word {
    pub width: u32,
    pub bits: u64,
}

/// A call of an observed function, which is named by its position among the declarations.
#[derive(Debug, Drop)]
pub struct Event {
    pub func: usize,
    pub args: Items<Word>,
}

/// An item of a module: its kind, and its position among the items of that kind.
#[derive(Clone, Copy, Debug, PartialEq, Eq, Drop)]
pub enum Item {
    /// A named type.
    Type(usize),
    /// A global.
    Global(usize),
    /// A function that is declared only.
    Declaration(usize),
    /// A defined function.
    Function(FuncId),
}

/// A place of a module, all by position: an item, and of a function a block and an instruction, counted from 0 with the
/// phis before it, the terminator last.
#[derive(Clone, Copy, Debug, PartialEq, Eq, Drop)]
pub struct Place {
    pub item: Item,
    pub block: Option<BlockId>,
    pub instr: Option<usize>,
}

/// How far a run is.
#[derive(Clone, Copy, Debug, PartialEq, Eq, Drop)]
pub enum Outcome {
    Returned(Option<Word>),
    Running,
    Undefined(Cause, Place),
}

impl Data for Word {
    fn copied(&self, _alloc: Global) -> Result<Word, AllocError> {
        Ok(*self)
    }

    fn is_same(&self, other: &Word) -> bool {
        self == other
    }
}

impl Data for Event {
    fn copied(&self, alloc: Global) -> Result<Event, AllocError> {
        Ok(Event {
            func: self.func,
            args: self.args.copied(alloc)?,
        })
    }

    fn is_same(&self, other: &Event) -> bool {
        self.func == other.func && self.args.is_same(&other.args)
    }
}
