//! Calls that are counted, and fail at chosen numbers.

ghost use Rattle.std.specs.Prelude.{◌≡◌, ◌≤◌, ◌↔◌, IsTrue, Contains};
ghost use Rattle.cli_io.specs.Faults.{risen};

use crate::traits::Failed;

/// A count that was raised. At its type's end it stands still.
pub fn raised(count: u64) -> u64
    ensures { result ≡ risen count }
{
    count.saturating_add(1)
}

/// Calls, counted from 1, which fail where their numbers are in a list.
#[derive(Debug, Drop)]
pub struct Calls {
    pub fails: Vec<u64>,
    pub made: u64,
    pub faults: u64,
}

impl Calls {
    /// No call yet, and the numbers of those that are to fail.
    pub fn new(fails: Vec<u64>) -> Self
        ensures { result ≡ record { fails = fails; made = 0; faults = 0 } }
    {
        Calls {
            fails,
            made: 0,
            faults: 0,
        }
    }

    /// Counts a call, and answers whether it is to fail.
    pub fn next_fails(&mut self) -> bool
        ensures listed { IsTrue result ↔ Contains self.old.fails.items (risen self.old.made) }
        ensures counted { self.new ≡ record self.old { made = risen self.old.made } }
    {
        self.made = raised(self.made);
        self.fails.contains(&self.made)
    }

    /// Counts a fault.
    pub fn fail(&mut self) -> Failed
        ensures counted { self.new ≡ record self.old { faults = risen self.old.faults } }
        ensures later { self.old.faults ≤ self.new.faults }
    {
        self.faults = raised(self.faults);
        Failed
    }
}
