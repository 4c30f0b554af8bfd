//! Coro intrinsics where they may not stand.

ghost use Rattle.std.specs.Prelude.{◌≡◌, IfOk};
ghost use Rattle.ir_parts.specs.Parts.{OfInstr};
ghost use Rattle.rule_locals.specs.Intrinsics.{is_inner, is_coro, is_call_of, calls_inner, is_no_coro, is_coro_part, has_coro, first_misplaced};

use crate::instrs::{InstrRule, first_instr};
use ir_base::{Data, FuncId, Place};
use ir_model::{Block, Callee, Function, Instr, Intrinsic, Operand, Phi, Terminator, callee_of};
use ir_parts::{
    FunctionRule, OperandTest, ending_operands_pass, first_part, incoming_operands_pass,
    instr_operands_pass,
};
use rule_names::Stage;
use std::alloc::{AllocError, Global};

/// Calls, outside a coroutine, of the intrinsics that stand in coroutines alone (rule K1 of sources).
#[derive(Drop)]
struct InnerCalls {
    coroutine: bool,
}

/// Coro intrinsics and coroutines, of which a plain module has none (rule K1 of plain modules).
#[derive(Drop)]
struct AnyCoro {
    alloc: Global,
}

/// Whether an intrinsic stands in coroutines alone.
fn is_inner(intrinsic: Intrinsic) -> bool
    ensures { result ≡ is_inner intrinsic }
{
    match intrinsic {
        Intrinsic::CoroId => true,
        Intrinsic::CoroSizeI32 => true,
        Intrinsic::CoroSizeI64 => true,
        Intrinsic::CoroAlignI32 => true,
        Intrinsic::CoroAlignI64 => true,
        Intrinsic::CoroAlloc => true,
        Intrinsic::CoroBegin => true,
        Intrinsic::CoroFree => true,
        Intrinsic::CoroFrame => true,
        Intrinsic::CoroSave => true,
        Intrinsic::CoroSuspend => true,
        Intrinsic::CoroEnd => true,
        _ => false,
    }
}

fn is_coro(intrinsic: Intrinsic) -> bool
    ensures { result ≡ is_coro intrinsic }
{
    match intrinsic {
        Intrinsic::CoroResume => true,
        Intrinsic::CoroDestroy => true,
        Intrinsic::CoroDone => true,
        Intrinsic::CoroPromise => true,
        other => is_inner(other),
    }
}

fn calls_inner(callee: &Callee) -> bool
    ensures { result ≡ is_call_of is_inner callee.now }
{
    match callee {
        Callee::Intrinsic(intrinsic) => is_inner(*intrinsic),
        _ => false,
    }
}

fn calls_coro(callee: &Callee) -> bool
    ensures { result ≡ is_call_of is_coro callee.now }
{
    match callee {
        Callee::Intrinsic(intrinsic) => is_coro(*intrinsic),
        _ => false,
    }
}

fn is_coro_instr(instr: &Instr) -> bool
    ensures { result ≡ is_coro_part (OfInstr instr.now) }
{
    match instr {
        Instr::Call { callee, .. } => calls_coro(callee),
        _ => false,
    }
}

impl InstrRule for InnerCalls {
    ghost instr_breaks = { λ r. calls_inner r.coroutine };

    fn is_broken(&self, _place: Place, instr: &Instr) -> Result<bool, AllocError> {
        match instr {
            Instr::Call { callee, .. } => Ok(!self.coroutine && calls_inner(callee)),
            _ => Ok(false),
        }
    }
}

impl OperandTest for AnyCoro {
    ghost operand_passes = { λ r. is_no_coro };

    fn passes(&self, operand: &Operand) -> Result<bool, AllocError> {
        match operand {
            Operand::Global(name) => {
                let callee = callee_of(name.copied(self.alloc)?);
                Ok(!calls_coro(&callee))
            }
            _ => Ok(true),
        }
    }
}

impl FunctionRule for AnyCoro {
    ghost breaks = { λ r. has_coro };

    fn breaks_signature(&self, _place: Place, function: &Function) -> Result<bool, AllocError> {
        Ok(function.coroutine)
    }

    fn breaks_block(&self, _place: Place, _block: &Block) -> Result<bool, AllocError> {
        Ok(false)
    }

    fn breaks_phi(&self, _place: Place, phi: &Phi) -> Result<bool, AllocError> {
        Ok(!incoming_operands_pass(self, phi.incoming.as_slice())?)
    }

    fn breaks_instr(&self, _place: Place, instr: &Instr) -> Result<bool, AllocError> {
        Ok(is_coro_instr(instr) || !instr_operands_pass(self, instr)?)
    }

    fn breaks_ending(&self, _place: Place, term: &Terminator) -> Result<bool, AllocError> {
        Ok(!ending_operands_pass(self, term)?)
    }
}

/// The first place at which a coro intrinsic may not stand: in a source, a call outside a coroutine of an intrinsic that
/// stands in coroutines alone; in a plain module, a coroutine, or any coro intrinsic, called or its address (rule K1).
pub fn first_misplaced_intrinsic(
    alloc: Global,
    stage: Stage,
    func: FuncId,
    function: &Function,
) -> Result<Option<Place>, AllocError>
    ensures { IfOk result (λ p. p ≡ first_misplaced stage func function.now) }
{
    match stage {
        Stage::Source => {
            let rule = InnerCalls {
                coroutine: function.coroutine,
            };
            first_instr(&rule, func, function)
        }
        Stage::Plain => first_part(&AnyCoro { alloc }, func, function),
    }
}
