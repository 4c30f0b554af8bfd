//! Markers in windows and after the end (rule K8).

ghost use Rattle.std.specs.Prelude.{◌≡◌, IfOk};
ghost use Rattle.ir_paths.specs.Windows.{call_operand};
ghost use Rattle.rule_slots.specs.Marked.{is_marker, stands_marked};
ghost use Rattle.rule_slots.specs.Names.{names_one as names_one_of};

use crate::names::{NameSet, names_one};
use crate::slots::Slots;
use ir_base::Place;
use ir_calls::{is_call_of, operand_of};
use ir_model::{Block, Function, Instr, Intrinsic, Phi, Terminator};
use ir_parts::FunctionRule;
use rule_windows::{PointSet, point_of};
use std::alloc::AllocError;

/// The coroutine slots of a function, and its points in windows and after the end.
#[derive(Drop)]
pub struct Marked<'a> {
    pub function: &'a Function,
    pub slots: &'a Slots,
    pub closed: PointSet,
}

fn is_marker(instr: &Instr) -> bool
    ensures { result ≡ is_marker instr.now }
{
    is_call_of(Intrinsic::LifetimeStart, instr) || is_call_of(Intrinsic::LifetimeEnd, instr)
}

/// Whether the second operand of a call is a local of the set.
fn points_to_one(set: &NameSet, instr: &Instr) -> bool
    ensures { result ≡ names_one_of set.now (call_operand instr.now 1) }
{
    match instr {
        Instr::Call { args, .. } => match operand_of(args.as_slice(), 1) {
            None => false,
            Some(operand) => names_one(set, operand),
        },
        _ => false,
    }
}

impl FunctionRule for Marked<'_> {
    ghost breaks = { λ r. stands_marked r.function.now r.slots.now.themselves r.closed };

    fn breaks_signature(&self, _place: Place, _function: &Function) -> Result<bool, AllocError> {
        Ok(false)
    }

    fn breaks_block(&self, _place: Place, _block: &Block) -> Result<bool, AllocError> {
        Ok(false)
    }

    fn breaks_phi(&self, _place: Place, _phi: &Phi) -> Result<bool, AllocError> {
        Ok(false)
    }

    fn breaks_instr(&self, place: Place, instr: &Instr) -> Result<bool, AllocError> {
        Ok(
            is_marker(instr)
                && (points_to_one(&self.slots.themselves, instr)
                    && self.closed.has(point_of(self.function, place))),
        )
    }

    fn breaks_ending(&self, _place: Place, _term: &Terminator) -> Result<bool, AllocError> {
        Ok(false)
    }
}
