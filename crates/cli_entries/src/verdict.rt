//! What the program answers.

ghost use Rattle.std.specs.Prelude.{◌≡◌, ◌≢◌};
ghost use Rattle.cli_entries.specs.Entries.{verdict_status};

use ir_base::{FuncId, Items, Status, Word};

/// How an answer ends.
#[derive(Clone, Copy, Debug, PartialEq, Eq, Drop)]
pub enum Verdict {
    /// What was asked for is done.
    Done,
    /// The input stands for no module, or breaks a rule.
    Refused,
    /// The entry isn't callable.
    NotCallable,
    /// The run is undefined within the bound.
    Undefined,
    /// The run is still running after the bound.
    Unfinished,
}

impl Verdict {
    /// The status that the program ends with.
    pub fn status(self) -> Status
        ensures value { result ≡ verdict_status self }
        ensures answered { (result ≢ Status.OutOfMemory) × (result ≢ Status.WriteFault) × (result ≢ Status.ReadFault) × (result ≢ Status.TooLong) }
    {
        match self {
            Verdict::Done => Status::Done,
            Verdict::Refused => Status::Refused,
            Verdict::NotCallable => Status::Words,
            Verdict::Undefined => Status::Undefined,
            Verdict::Unfinished => Status::Unfinished,
        }
    }
}

/// A verdict, and what goes to standard output and to standard error.
#[derive(Drop)]
pub struct Answer {
    pub verdict: Verdict,
    pub out: Items<u8>,
    pub err: Items<u8>,
}

/// A call of an entry with its arguments.
#[derive(Drop)]
pub struct EntryCall {
    pub func: FuncId,
    pub args: Items<Word>,
}
