//! Addresses of functions and indirect calls.

ghost use Rattle.std.specs.Prelude.{◌≡◌, IfOk};
ghost use Rattle.ir_parts.specs.Parts.{OfInstr};
ghost use Rattle.rule_locals.specs.Addresses.{is_no_function, is_indirect, calls_indirectly, points_to_functions, first_function_pointer as first_function_pointer_of};

use ir_base::{FuncId, Place};
use ir_model::{Block, Callee, Function, Instr, Operand, Phi, Terminator};
use ir_parts::{
    FunctionRule, OperandTest, ending_operands_pass, first_part, incoming_operands_pass,
    instr_operands_pass,
};
use ir_tables::Names;
use std::alloc::AllocError;

/// Addresses of functions and indirect calls, of which a source has none (rule P1).
#[derive(Drop)]
struct FunctionPointers<'a> {
    names: &'a Names<'a>,
}

fn is_indirect(callee: &Callee) -> bool
    ensures { result ≡ is_indirect callee.now }
{
    matches!(callee, Callee::Local(_))
}

fn calls_indirectly(instr: &Instr) -> bool
    ensures { result ≡ calls_indirectly (OfInstr instr.now) }
{
    match instr {
        Instr::Call { callee, .. } => is_indirect(callee),
        _ => false,
    }
}

impl OperandTest for FunctionPointers<'_> {
    ghost operand_passes = { λ r. is_no_function r.names.now.source.now };

    fn passes(&self, operand: &Operand) -> Result<bool, AllocError> {
        match operand {
            Operand::Global(name) => Ok(self.names.global_named(name).is_some()),
            _ => Ok(true),
        }
    }
}

impl FunctionRule for FunctionPointers<'_> {
    ghost breaks = { λ r. points_to_functions r.names.now.source.now };

    fn breaks_signature(&self, _place: Place, _function: &Function) -> Result<bool, AllocError> {
        Ok(false)
    }

    fn breaks_block(&self, _place: Place, _block: &Block) -> Result<bool, AllocError> {
        Ok(false)
    }

    fn breaks_phi(&self, _place: Place, phi: &Phi) -> Result<bool, AllocError> {
        Ok(!incoming_operands_pass(self, phi.incoming.as_slice())?)
    }

    fn breaks_instr(&self, _place: Place, instr: &Instr) -> Result<bool, AllocError> {
        Ok(!instr_operands_pass(self, instr)? || calls_indirectly(instr))
    }

    fn breaks_ending(&self, _place: Place, term: &Terminator) -> Result<bool, AllocError> {
        Ok(!ending_operands_pass(self, term)?)
    }
}

/// The first place at which a function's address is used or a call is indirect, which no source may have (rule P1).
pub fn first_function_pointer(
    names: &Names<'_>,
    func: FuncId,
    function: &Function,
) -> Result<Option<Place>, AllocError>
    ensures { IfOk result (λ p. p ≡ first_function_pointer_of names.now.source.now func function.now) }
{
    first_part(&FunctionPointers { names }, func, function)
}
