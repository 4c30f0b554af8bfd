//! Where the names of a generated coroutine stand.

ghost use Rattle.std.specs.Prelude.{◌≡◌, ◌+◌, ◌*◌, ◌-◌, ◌<◌, ◌≤◌};
ghost use Rattle.cli_gen.specs.Places.{is_even, parameter, entry_label, slot, id_value, need_value, dyn_label, start_label, size_value, block_value, memory_value, begin_value, first_label, end_label, clean_label, loaded_value, summed_value, suspend_value, resume_label, destroy_label, suspend_label, never_label, freed_value, end_value};

use crate::coroutine::Coroutine;
use ir_base::ValueId;

/// The name of a coroutine's parameter.
pub const PARAMETER: ValueId = 0;

/// The label of a coroutine's entry.
pub const ENTRY: ValueId = 1;

pub fn slot(j: u8) -> ValueId
    ensures { result ≡ slot j }
{
    usize::from(j) + 2
}

impl Coroutine {
    pub fn is_even(self) -> bool
        ensures { result ≡ is_even self }
    {
        self.number % 2 == 0
    }

    /// The name so many behind the slots and the two names before them.
    fn behind_slots(self, distance: u8) -> ValueId
        ensures { result ≡ self.suspends + distance }
    {
        usize::from(self.suspends) + usize::from(distance)
    }

    pub fn id_value(self) -> ValueId
        ensures { result ≡ id_value self }
    {
        self.behind_slots(2)
    }

    pub fn need_value(self) -> ValueId
        ensures { result ≡ need_value self }
    {
        self.behind_slots(3)
    }

    pub fn dyn_label(self) -> ValueId
        ensures { result ≡ dyn_label self }
    {
        self.behind_slots(4)
    }

    pub fn start_label(self) -> ValueId
        ensures { result ≡ start_label self }
    {
        self.behind_slots(5)
    }

    pub fn size_value(self) -> ValueId
        ensures { result ≡ size_value self }
    {
        self.behind_slots(if self.is_even() { 6 } else { 3 })
    }

    pub fn block_value(self) -> ValueId
        ensures { result ≡ block_value self }
    {
        self.behind_slots(if self.is_even() { 7 } else { 4 })
    }

    pub fn memory_value(self) -> ValueId
        ensures { result ≡ memory_value self }
    {
        self.behind_slots(8)
    }

    pub fn begin_value(self) -> ValueId
        ensures { result ≡ begin_value self }
    {
        self.behind_slots(if self.is_even() { 9 } else { 5 })
    }

    pub fn first_label(self) -> ValueId
        ensures { result ≡ first_label self }
    {
        self.behind_slots(if self.is_even() { 10 } else { 6 })
    }

    /// The name so many behind those of the suspends before one.
    fn behind_suspends(self, j: u8, distance: u8) -> ValueId
        ensures { result ≡ first_label self + 5 * j + distance }
    {
        self.first_label() + 5 * usize::from(j) + usize::from(distance)
    }

    pub fn end_label(self) -> ValueId
        ensures { result ≡ end_label self }
    {
        self.behind_suspends(0, 2)
    }

    pub fn clean_label(self) -> ValueId
        ensures { result ≡ clean_label self }
    {
        self.behind_suspends(0, 5)
    }

    pub fn loaded_value(self, j: u8) -> ValueId
        ensures { result ≡ loaded_value self j }
    {
        self.behind_suspends(j, 1)
    }

    pub fn summed_value(self, j: u8) -> ValueId
        ensures { result ≡ summed_value self j }
    {
        self.behind_suspends(j, 2)
    }

    pub fn suspend_value(self, j: u8) -> ValueId
        ensures { result ≡ suspend_value self j }
    {
        self.behind_suspends(j, if j == 0 { 1 } else { 3 })
    }

    /// The label at which a suspend is resumed; behind the last one it is that of `never`.
    pub fn resume_label(self, j: u8) -> ValueId
        ensures { result ≡ resume_label self j }
    {
        self.behind_suspends(j, if j == 0 { 3 } else { 4 })
    }

    pub fn destroy_label(self, j: u8) -> ValueId
        ensures { result ≡ destroy_label self j }
    {
        self.behind_suspends(j, if j == 0 { 4 } else { 5 })
    }

    /// The label of the block that ends with a suspend.
    pub fn suspend_label(self, j: u8) -> ValueId
        ensures { result ≡ suspend_label self j }
    {
        if j == 0 {
            self.first_label()
        } else {
            self.resume_label(j - 1)
        }
    }

    pub fn never_label(self) -> ValueId
        ensures { result ≡ never_label self }
    {
        self.resume_label(self.suspends.saturating_sub(1))
    }

    pub fn freed_value(self) -> ValueId
        ensures { result ≡ freed_value self }
    {
        self.behind_suspends(self.suspends, 1)
    }

    pub fn end_value(self) -> ValueId
        ensures { result ≡ end_value self }
    {
        self.behind_suspends(self.suspends, 2)
    }
}
