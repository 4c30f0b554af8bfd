//! Rules on instructions alone.

ghost use Rattle.std.specs.Prelude.{◌≡◌, Bool, IfOk};
ghost use Rattle.ir_base.specs.declared.outcome.Place.{Place as ThePlace};
ghost use Rattle.ir_parts.specs.Parts.{parts_of, first_part as first_part_of};
ghost use Rattle.ir_model.specs.declared.instr.Instr.{Instr as TheInstr};
ghost use Rattle.rule_locals.specs.Instrs.{on_instr};

use ir_base::{FuncId, Place};
use ir_model::{Block, Function, Instr, Phi, Terminator};
use ir_parts::{FunctionRule, first_part};
use std::alloc::AllocError;

/// A rule that only instructions that are no phis and no terminators break.
pub trait InstrRule: Sized {
    ghost instr_breaks: { Self → ThePlace → TheInstr → Bool };

    /// Whether an instruction breaks the rule.
    fn is_broken(&self, place: Place, instr: &Instr) -> Result<bool, AllocError>
        ensures { IfOk result (λ b. b ≡ instr_breaks self.now place instr.now) };
}

/// A rule on instructions, as a rule on the parts of functions.
#[derive(Drop)]
struct OnInstrs<'a, R> {
    rule: &'a R,
}

impl<R: InstrRule> FunctionRule for OnInstrs<'_, R> {
    ghost breaks = { λ r. on_instr (R.instr_breaks r.rule.now) };

    fn breaks_signature(&self, _place: Place, _function: &Function) -> Result<bool, AllocError> {
        Ok(false)
    }

    fn breaks_block(&self, _place: Place, _block: &Block) -> Result<bool, AllocError> {
        Ok(false)
    }

    fn breaks_phi(&self, _place: Place, _phi: &Phi) -> Result<bool, AllocError> {
        Ok(false)
    }

    fn breaks_instr(&self, place: Place, instr: &Instr) -> Result<bool, AllocError> {
        self.rule.is_broken(place, instr)
    }

    fn breaks_ending(&self, _place: Place, _term: &Terminator) -> Result<bool, AllocError> {
        Ok(false)
    }
}

/// The place of the function's first instruction that breaks the rule.
pub fn first_instr<R: InstrRule>(
    rule: &R,
    func: FuncId,
    function: &Function,
) -> Result<Option<Place>, AllocError>
    ensures { IfOk result (λ p. p ≡ first_part_of (on_instr (R.instr_breaks rule.now)) (parts_of func function.now)) }
{
    first_part(&OnInstrs { rule }, func, function)
}
