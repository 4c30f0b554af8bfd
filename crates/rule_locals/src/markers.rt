//! Lifetime markers.

ghost use Rattle.std.specs.Prelude.{◌≡◌, ℕ, IfOk, option_map};
ghost use Rattle.ir_locals.specs.Tables.{noted};
ghost use Rattle.rule_locals.specs.Markers.{is_size_or_all, marks_size, marks_slot, marks as marks_by, is_marker, marks_otherwise, first_other_mark as first_other_mark_of};

use crate::instrs::{InstrRule, first_instr};
use crate::slots::slots_of;
use ir_base::{FuncId, Place};
use ir_locals::LocalTable;
use ir_model::{Arg, Callee, Function, Instr, Intrinsic, Operand};
use ir_sizes::Sizes;
use run_ints::cut_signed;
use std::alloc::{AllocError, Global};

/// Markers whose pointer is no alloca, or whose size is neither its type's nor -1 (rule K13).
#[derive(Drop)]
struct OtherMarks {
    slots: LocalTable<u64>,
}

fn is_marker(callee: &Callee) -> bool
    ensures { result ≡ is_marker callee.now }
{
    matches!(
        callee,
        Callee::Intrinsic(Intrinsic::LifetimeStart | Intrinsic::LifetimeEnd)
    )
}

fn is_size_or_all(operand: &Operand, size: u64) -> bool
    ensures { result ≡ is_size_or_all operand.now size }
{
    match operand {
        Operand::Number(number) => {
            let word = cut_signed(64, *number);
            word == size || word == u64::MAX
        }
        _ => false,
    }
}

impl OtherMarks {
    fn marks(&self, args: &[Arg]) -> bool
        ensures { result ≡ marks_by (noted self.now.slots) args.now }
    {
        match args {
            [size, pointer] => match &pointer.value {
                Operand::Local(local) => match self.slots.get(*local) {
                    None => false,
                    Some(slot) => is_size_or_all(&size.value, slot),
                },
                _ => false,
            },
            _ => false,
        }
    }
}

impl InstrRule for OtherMarks {
    ghost instr_breaks = { λ r. marks_otherwise (noted r.slots) };

    fn is_broken(&self, _place: Place, instr: &Instr) -> Result<bool, AllocError> {
        match instr {
            Instr::Call { callee, args, .. } => {
                Ok(is_marker(callee) && !self.marks(args.as_slice()))
            }
            _ => Ok(false),
        }
    }
}

/// The first marker whose pointer is no alloca of the function, or whose size is neither its type's nor -1 (rule K13).
pub fn first_other_mark(
    alloc: Global,
    sizes: &Sizes<'_>,
    func: FuncId,
    function: &Function,
) -> Result<Option<Place>, AllocError>
    ensures { IfOk result (λ p. p ≡ first_other_mark_of sizes.now.names.now.source.now func function.now) }
{
    let slots = slots_of(alloc, sizes, function)?;
    let place = first_instr(&OtherMarks { slots }, func, function)?;
    Ok(place)
}
