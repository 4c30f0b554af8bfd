//! Types of values.

ghost use Rattle.std.specs.Prelude.{◌≡◌, IfOk};
ghost use Rattle.std.specs.List.{list_all};
ghost use Rattle.ir_locals.specs.Tables.{noted};
ghost use Rattle.rule_values.specs.Values.{has_scalar, is_scalar_or_void, fits_signature, takes, fits_phi, fits_return, fits_ending, breaks_values, first_wrong_value as first_wrong_value_of};

use crate::fits::{fits, fits_i1, fits_scalar, is_same_type, is_scalar};
use crate::instrs::{Kinds, fits_instr};
use crate::switches::fits_switch;
use crate::table::kinds_of;
use ir_base::{FuncId, Place};
use ir_model::{Arg, Block, Function, Incoming, Instr, IrType, Param, Phi, Terminator};
use ir_parts::{FunctionRule, first_part};
use ir_tables::Names;
use std::alloc::{AllocError, Global};

/// Types, operands, results, literals and indices that don't fit (rule Y1).
#[derive(Drop)]
struct WrongValues<'a> {
    alloc: Global,
    names: &'a Names<'a>,
    function: &'a Function,
    kinds: Kinds,
}

fn are_scalars(params: &[Param]) -> bool
    ensures { result ≡ list_all has_scalar params.now }
{
    for param in params {
        if !is_scalar(&param.ty) {
            return false;
        }
    }
    true
}

fn is_scalar_or_void(ty: &Option<IrType>) -> bool
    ensures { result ≡ is_scalar_or_void ty.now }
{
    match ty {
        None => true,
        Some(ty) => is_scalar(ty),
    }
}

fn fits_signature(function: &Function) -> bool
    ensures { result ≡ fits_signature function.now }
{
    is_scalar_or_void(&function.result) && are_scalars(function.params.as_slice())
}

fn all_take(kinds: &Kinds, ty: &IrType, incoming: &[Incoming]) -> bool
    ensures { result ≡ list_all (takes (noted kinds.now) ty.now) incoming.now }
{
    for one in incoming {
        if !fits(kinds, ty, &one.value) {
            return false;
        }
    }
    true
}

fn fits_return(kinds: &Kinds, ty: &Option<IrType>, value: &Option<Arg>) -> bool
    ensures { result ≡ fits_return (noted kinds.now) ty.now value.now }
{
    match (ty, value) {
        (None, None) => true,
        (Some(ty), Some(arg)) => is_same_type(&arg.ty, ty) && fits_scalar(kinds, arg),
        _ => false,
    }
}

impl WrongValues<'_> {
    fn fits_ending(&self, term: &Terminator) -> Result<bool, AllocError>
        ensures { IfOk result (λ b. b ≡ fits_ending (noted self.now.kinds) self.now.function.now.result term.now) }
    {
        match term {
            Terminator::Jump(_) => Ok(true),
            Terminator::Branch { cond, .. } => Ok(fits_i1(&self.kinds, cond)),
            Terminator::Switch { arg, cases, .. } => {
                fits_switch(self.alloc, &self.kinds, arg, cases.as_slice())
            }
            Terminator::Ret(value) => Ok(fits_return(&self.kinds, &self.function.result, value)),
            Terminator::Unreachable => Ok(true),
        }
    }
}

impl FunctionRule for WrongValues<'_> {
    ghost breaks = { λ r. breaks_values r.names.now.source.now (noted r.kinds) r.function.now.result };

    fn breaks_signature(&self, _place: Place, function: &Function) -> Result<bool, AllocError> {
        Ok(!fits_signature(function))
    }

    fn breaks_block(&self, _place: Place, _block: &Block) -> Result<bool, AllocError> {
        Ok(false)
    }

    fn breaks_phi(&self, _place: Place, phi: &Phi) -> Result<bool, AllocError> {
        Ok(!(is_scalar(&phi.ty) && all_take(&self.kinds, &phi.ty, phi.incoming.as_slice())))
    }

    fn breaks_instr(&self, _place: Place, instr: &Instr) -> Result<bool, AllocError> {
        Ok(!fits_instr(self.names, &self.kinds, instr))
    }

    fn breaks_ending(&self, _place: Place, term: &Terminator) -> Result<bool, AllocError> {
        Ok(!self.fits_ending(term)?)
    }
}

/// The first place of a function at which an operand, result, literal or constant index doesn't fit its type, a switch has
/// a value twice or one that is no constant, a token is used otherwise than the table of intrinsics says, or a type stands
/// where it may not (rule Y1).
pub fn first_wrong_value(
    alloc: Global,
    names: &Names<'_>,
    func: FuncId,
    function: &Function,
) -> Result<Option<Place>, AllocError>
    ensures { IfOk result (λ p. p ≡ first_wrong_value_of names.now.source.now func function.now) }
{
    let kinds = kinds_of(alloc, function)?;
    let rule = WrongValues {
        alloc,
        names,
        function,
        kinds,
    };
    let place = first_part(&rule, func, function)?;
    Ok(place)
}
