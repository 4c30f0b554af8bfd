//! `musttail` calls.

ghost use Rattle.std.specs.Prelude.{◌≡◌, IfOk, Some, map, slice_get};
ghost use Rattle.rule_locals.specs.Transfers.{is_one_pointer, is_void_of_pointer, is_void_return, returns_behind, block_at, may_transfer, breaks_transfers, first_wrong_transfer as first_wrong_transfer_of};

use crate::calls::is_pointer;
use crate::instrs::{InstrRule, first_instr};
use ir_base::{BlockId, FuncId, Place};
use ir_model::{Arg, Block, Function, Instr, IrType, Param, Terminator};
use rule_names::{Stage, is_source};
use std::alloc::AllocError;

/// `musttail` calls, in a plain module those that may be no transfers (rule Y5).
#[derive(Drop)]
struct Transfers<'a> {
    stage: Stage,
    function: &'a Function,
}

fn is_one_pointer_of_params(params: &[Param]) -> bool
    ensures { result ≡ is_one_pointer (map (λ p. p.ty) params.now) }
{
    match params {
        [param] => is_pointer(&param.ty),
        _ => false,
    }
}

fn is_one_pointer_of_args(args: &[Arg]) -> bool
    ensures { result ≡ is_one_pointer (map (λ a. a.ty) args.now) }
{
    match args {
        [arg] => is_pointer(&arg.ty),
        _ => false,
    }
}

fn is_void_return(term: &Terminator) -> bool
    ensures { result ≡ is_void_return term.now }
{
    matches!(term, Terminator::Ret(None))
}

fn is_last(block: &Block, at: usize) -> Result<bool, AllocError>
    ensures { IfOk result (λ b. b ≡ returns_behind (Some block.now) (Some at)) }
{
    let Some(behind) = at.checked_add(1) else {
        return Err(AllocError);
    };
    let Some(end) = block.phis.len().checked_add(block.instrs.len()) else {
        return Err(AllocError);
    };
    Ok(behind == end && is_void_return(&block.term))
}

impl Transfers<'_> {
    /// Whether `ret void` follows a place at once.
    fn returns_behind(&self, place: Place) -> Result<bool, AllocError>
        ensures { IfOk result (λ b. b ≡ returns_behind (block_at self.now.function.now place.block) place.instr) }
    {
        let (Some(block), Some(at)) = (place.block, place.instr) else {
            return Ok(false);
        };
        match self.function.blocks.get(block) {
            None => Ok(false),
            Some(block) => is_last(block, at),
        }
    }

    fn may_transfer(
        &self,
        place: Place,
        ty: &Option<IrType>,
        args: &[Arg],
    ) -> Result<bool, AllocError>
        ensures { IfOk result (λ b. b ≡ may_transfer self.now.function.now place ty.now (map (λ a. a.ty) args.now)) }
    {
        let is_caller = self.function.result.is_none()
            && is_one_pointer_of_params(self.function.params.as_slice());
        let is_callee = ty.is_none() && is_one_pointer_of_args(args);
        Ok(self.returns_behind(place)? && (is_caller && is_callee))
    }
}

impl InstrRule for Transfers<'_> {
    ghost instr_breaks = { λ r. breaks_transfers r.stage r.function.now };

    fn is_broken(&self, place: Place, instr: &Instr) -> Result<bool, AllocError> {
        match instr {
            Instr::Call {
                must_tail: true,
                ty,
                args,
                ..
            } => { Ok(is_source(self.stage) || !self.may_transfer(place, ty, args.as_slice())?) }
            _ => Ok(false),
        }
    }
}

/// The first `musttail` call; in a plain module the first that isn't followed at once by `ret void`, or whose caller's or
/// callee's type isn't void(ptr) (rule Y5).
pub fn first_wrong_transfer(
    stage: Stage,
    func: FuncId,
    function: &Function,
) -> Result<Option<Place>, AllocError>
    ensures { IfOk result (λ p. p ≡ first_wrong_transfer_of stage func function.now) }
{
    first_instr(&Transfers { stage, function }, func, function)
}
