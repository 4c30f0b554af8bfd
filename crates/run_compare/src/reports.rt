//! What a comparison comes to.

use ir_base::Outcome;

/// Numbers of a source's run, which isn't undefined, and of the lowered one up to where it has the same events.
#[derive(Clone, Copy, Debug, PartialEq, Eq, Drop)]
pub struct Counts {
    /// How many observed calls the source made.
    pub events: usize,
    /// How many steps the source made.
    pub source_steps: u64,
    /// The least number of steps after which the lowered run has the source's events and return.
    pub lowered_steps: u64,
    /// How many calls of `malloc` and `_Znwm` the source made.
    pub source_allocs: u128,
    /// How many of them the lowered run made.
    pub lowered_allocs: u128,
    /// How many calls of the lowered run had their frames in their callers.
    pub elided: u128,
}

/// The outcome of the source's run, and numbers of both runs where that isn't undefined.
#[derive(Clone, Copy, Debug, PartialEq, Eq, Drop)]
pub struct Report {
    pub outcome: Outcome,
    pub counts: Option<Counts>,
}
