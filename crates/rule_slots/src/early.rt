//! Addresses of coroutine slots used before begin (rule K9).

ghost use Rattle.std.specs.Prelude.{◌≡◌, IfOk};
ghost use Rattle.std.specs.List.{list_any};
ghost use Rattle.rule_slots.specs.Early.{end_mark, is_taken_early, stands_early};

use crate::ends::Ends;
use crate::names::names_one;
use crate::slots::Slots;
use crate::uses::{ends_in_use, is_misused};
use ir_base::{Place, ValueId};
use ir_model::{Block, Function, Incoming, Instr, Phi, Terminator};
use ir_parts::FunctionRule;
use rule_windows::{PointSet, point_of};
use std::alloc::AllocError;

/// The coroutine slots of a function, its points before begin, and the labels of the blocks that end there.
#[derive(Drop)]
pub struct Early<'a> {
    pub function: &'a Function,
    pub slots: &'a Slots,
    pub before: PointSet,
    pub ends: Ends,
}

fn ends_early(ends: &Ends, label: ValueId) -> bool
    ensures { result ≡ end_mark ends.now.marks ends.now.other label }
{
    match ends.marks.get(label) {
        None => ends.other,
        Some(mark) => *mark,
    }
}

fn any_is_taken_early(slots: &Slots, ends: &Ends, incoming: &[Incoming]) -> bool
    ensures { result ≡ list_any (is_taken_early slots.now.addresses ends.now.marks ends.now.other) incoming.now }
{
    for one in incoming {
        if names_one(&slots.addresses, &one.value) && ends_early(ends, one.from) {
            return true;
        }
    }
    false
}

impl FunctionRule for Early<'_> {
    ghost breaks = { λ r. stands_early r.function.now r.slots.now.addresses r.slots.now.themselves r.before r.ends.marks r.ends.other };

    fn breaks_signature(&self, _place: Place, _function: &Function) -> Result<bool, AllocError> {
        Ok(false)
    }

    fn breaks_block(&self, _place: Place, _block: &Block) -> Result<bool, AllocError> {
        Ok(false)
    }

    fn breaks_phi(&self, _place: Place, phi: &Phi) -> Result<bool, AllocError> {
        Ok(any_is_taken_early(self.slots, &self.ends, phi.incoming.as_slice()))
    }

    fn breaks_instr(&self, place: Place, instr: &Instr) -> Result<bool, AllocError> {
        Ok(self.before.has(point_of(self.function, place)) && is_misused(self.slots, instr)?)
    }

    fn breaks_ending(&self, place: Place, term: &Terminator) -> Result<bool, AllocError> {
        Ok(self.before.has(point_of(self.function, place)) && ends_in_use(self.slots, term)?)
    }
}
