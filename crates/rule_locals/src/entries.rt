//! Allocas outside the entry block.

ghost use Rattle.std.specs.Prelude.{◌≡◌, IfOk};
ghost use Rattle.rule_locals.specs.Entries.{is_past_entry, allocates_late, first_late_alloca as first_late_alloca_of};

use crate::instrs::{InstrRule, first_instr};
use ir_base::{BlockId, FuncId, Place};
use ir_model::{Function, Instr};
use std::alloc::AllocError;

/// Allocas outside the entry block (rule F3).
#[derive(Drop)]
struct LateAllocas {}

fn is_past_entry(block: Option<BlockId>) -> bool
    ensures { result ≡ is_past_entry block }
{
    match block {
        None => false,
        Some(block) => block != 0,
    }
}

impl InstrRule for LateAllocas {
    ghost instr_breaks = { λ r. allocates_late };

    fn is_broken(&self, place: Place, instr: &Instr) -> Result<bool, AllocError> {
        match instr {
            Instr::Alloca { .. } => Ok(is_past_entry(place.block)),
            _ => Ok(false),
        }
    }
}

/// The first alloca outside the entry block (rule F3).
pub fn first_late_alloca(func: FuncId, function: &Function) -> Result<Option<Place>, AllocError>
    ensures { IfOk result (λ p. p ≡ first_late_alloca_of func function.now) }
{
    first_instr(&LateAllocas {}, func, function)
}
