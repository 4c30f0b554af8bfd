//! The program's statuses and the options of lowering.

ghost use Rattle.std.specs.Prelude.{◌≡◌};
ghost use Rattle.ir_base.specs.Words.{status_code};

/// What `lower` may do beyond the plain lowering. Each works by itself.
#[derive(Clone, Copy, Debug, PartialEq, Eq, Drop)]
pub struct Options {
    /// Whether fields may share bytes of the frame.
    pub share: bool,
    /// Whether calls may be lowered without an allocation.
    pub elide: bool,
    /// Whether transfers become tail calls.
    pub transfer: bool,
}

/// How the program ended.
#[derive(Clone, Copy, Debug, PartialEq, Eq, Drop)]
pub enum Status {
    /// Done.
    Done,
    /// The input stands for no module, or breaks a rule.
    Refused,
    /// The words aren't taken, a list isn't one, or the entry isn't callable.
    Words,
    /// The run is undefined within the bound.
    Undefined,
    /// The run is still running after the bound, or has fewer events than asked for.
    Unfinished,
    /// A read failed.
    ReadFault,
    /// A write failed.
    WriteFault,
    /// Want of memory.
    OutOfMemory,
    /// The input has more than 2^24 bytes.
    TooLong,
}

impl Status {
    /// The exit status, from 0 to 8.
    pub fn code(self) -> u8
        ensures { result ≡ status_code self }
    {
        match self {
            Status::Done => 0,
            Status::Refused => 1,
            Status::Words => 2,
            Status::Undefined => 3,
            Status::Unfinished => 4,
            Status::ReadFault => 5,
            Status::WriteFault => 6,
            Status::OutOfMemory => 7,
            Status::TooLong => 8,
        }
    }
}
