//! What the words may ask for.

use ir_base::{Items, Text};

/// The form in which a module is run.
#[derive(Clone, Copy, Debug, PartialEq, Eq)]
pub enum Form {
    /// The module is run as it was read, with its coroutines.
    Source,
    /// The frames of the module are laid out first.
    Framed,
    /// The module is lowered first.
    Lowered,
    /// The module, which has no coroutines, is run as it was read.
    Text,
}

/// The words of a call of an entry, for `run` and `compare`.
#[derive(Debug, Drop)]
pub struct RunWords {
    /// Without shared bytes and elision.
    pub plain: bool,
    /// The entry's name, as in canonical text without its sign.
    pub entry: Text,
    /// The entry's arguments.
    pub args: Items<i128>,
    /// The answers of observed calls.
    pub answers: Items<i128>,
    /// The most steps that are made.
    pub steps: u64,
}

/// A command with its options.
#[derive(Debug, Drop)]
pub enum Words {
    /// Lowers the module.
    Lower {
        /// Without shared bytes and elision.
        plain: bool,
    },
    /// Looks whether the module breaks a rule.
    Check {
        /// By the rules of a module without coroutines.
        lowered: bool,
    },
    /// Shows where the fields of the module's frames lie.
    Layout {
        /// Without shared bytes.
        plain: bool,
    },
    /// Runs the module in a form.
    Run(Form, RunWords),
    /// Runs the module, and then what it is lowered to as far.
    Compare(RunWords),
    /// Generates a module by a seed, with so many coroutines of so many suspends each.
    Gen {
        seed: u64,
        coroutines: u64,
        suspends: u64,
    },
}

/// What the words of a call come to.
#[derive(Debug, Drop)]
pub enum CallReading {
    /// This word isn't a list.
    BadList(Text),
    /// They are taken.
    Read(RunWords),
}

/// What the words come to.
#[derive(Debug, Drop)]
pub enum Reading {
    /// They are no words of the command set.
    Refused,
    /// They are taken, but this word isn't a list.
    BadList(Text),
    /// They are words of the command set.
    Read(Words),
}
