//! Types of calls and of what is called.

ghost use Rattle.std.specs.Prelude.{◌≡◌, IfOk, map, slice_get, Some};
ghost use Rattle.ir_model.specs.Layout.{same_type};
ghost use Rattle.ir_parts.specs.Parts.{OfInstr};
ghost use Rattle.rule_types.specs.Signatures.{same_result, same_list, fits_function, fits_declared, fits_named, is_result, are_types, are_wanted, fits_callee, fits_table, calls_otherwise, other_types};
ghost use Rattle.rule_names.specs.Items.{first_place as first_place_of};

use crate::wants::{
    Basic, Wanted, allocator_params, allocator_result, intrinsic_params, intrinsic_result,
};
use ir_base::{Data, FuncId, Name, Place};
use ir_model::{
    Arg, Block, Callee, Declaration, Function, GlobalItem, Instr, IrType, Param, Phi, Terminator,
    TypeItem, callee_of,
};
use ir_parts::{FunctionRule, first_part};
use ir_tables::Names;
use rule_names::{ModuleRule, allocator_name, first_place};
use std::alloc::{AllocError, Global};

/// Types of calls that differ from their callees', and intrinsics and allocators that differ from the table (rule Y2).
#[derive(Drop)]
pub struct OtherTypes<'a> {
    pub alloc: Global,
    pub names: &'a Names<'a>,
}

fn is_same_type(a: &IrType, b: &IrType) -> bool
    ensures { result ≡ same_type a.now b.now }
{
    a.is_same(b)
}

fn same_result(a: &Option<IrType>, b: &Option<IrType>) -> bool
    ensures { result ≡ same_result a.now b.now }
{
    match (a, b) {
        (None, None) => true,
        (Some(a), Some(b)) => is_same_type(a, b),
        _ => false,
    }
}

fn fits_params(args: &[Arg], params: &[Param]) -> bool
    ensures { result ≡ same_list (map (λ a. a.ty) args.now) (map (λ p. p.ty) params.now) }
{
    let mut given = args;
    let mut wanted = params;
    loop {
        match given {
            [] => return wanted.is_empty(),
            [arg, more_given @ ..] => match wanted {
                [] => return false,
                [param, more_wanted @ ..] => {
                    if !is_same_type(&arg.ty, &param.ty) {
                        return false;
                    }
                    given = more_given;
                    wanted = more_wanted;
                }
            },
        }
    }
}

fn fits_types(args: &[Arg], types: &[IrType]) -> bool
    ensures { result ≡ same_list (map (λ a. a.ty) args.now) types.now }
{
    let mut given = args;
    let mut wanted = types;
    loop {
        match given {
            [] => return wanted.is_empty(),
            [arg, more_given @ ..] => match wanted {
                [] => return false,
                [ty, more_wanted @ ..] => {
                    if !is_same_type(&arg.ty, ty) {
                        return false;
                    }
                    given = more_given;
                    wanted = more_wanted;
                }
            },
        }
    }
}

fn are_types(wanted: &[Wanted], types: &[IrType]) -> bool
    ensures { result ≡ are_types wanted.now types.now }
{
    let mut wanted_left = wanted;
    let mut given = types;
    loop {
        match wanted_left {
            [] => return given.is_empty(),
            [want, more_wanted @ ..] => match given {
                [] => return false,
                [ty, more_given @ ..] => {
                    if !want.ty.is_type(ty) {
                        return false;
                    }
                    wanted_left = more_wanted;
                    given = more_given;
                }
            },
        }
    }
}

fn are_wanted(wanted: &[Wanted], args: &[Arg]) -> bool
    ensures { result ≡ are_wanted wanted.now args.now }
{
    let mut wanted_left = wanted;
    let mut given = args;
    loop {
        match wanted_left {
            [] => return given.is_empty(),
            [want, more_wanted @ ..] => match given {
                [] => return false,
                [arg, more_given @ ..] => {
                    if !(want.ty.is_type(&arg.ty) && want.value.is_met(&arg.value)) {
                        return false;
                    }
                    wanted_left = more_wanted;
                    given = more_given;
                }
            },
        }
    }
}

fn is_result(wanted: Option<Basic>, given: &Option<IrType>) -> bool
    ensures { result ≡ is_result wanted given.now }
{
    match (wanted, given) {
        (None, None) => true,
        (Some(wanted), Some(given)) => wanted.is_type(given),
        _ => false,
    }
}

fn fits_function(ty: &Option<IrType>, args: &[Arg], function: &Function) -> bool
    ensures { result ≡ fits_function ty.now (map (λ a. a.ty) args.now) (Some function.now) }
{
    same_result(ty, &function.result) && fits_params(args, function.params.as_slice())
}

fn fits_declared(ty: &Option<IrType>, args: &[Arg], declaration: &Declaration) -> bool
    ensures { result ≡ fits_declared ty.now (map (λ a. a.ty) args.now) (Some declaration.now) }
{
    same_result(ty, &declaration.result) && fits_types(args, declaration.params.as_slice())
}

/// Whether a declaration is by the table, where it is an intrinsic's or an allocator's.
fn fits_table(declaration: &Declaration, callee: &Callee) -> bool
    ensures { result ≡ fits_table declaration.now callee.now }
{
    let params = declaration.params.as_slice();
    match callee {
        Callee::Intrinsic(intrinsic) => {
            is_result(intrinsic_result(*intrinsic), &declaration.result)
                && are_types(intrinsic_params(*intrinsic), params)
        }
        Callee::Allocator(allocator) => {
            is_result(allocator_result(*allocator), &declaration.result)
                && are_types(allocator_params(*allocator), params)
        }
        _ => true,
    }
}

impl OtherTypes<'_> {
    fn fits_position(&self, ty: &Option<IrType>, args: &[Arg], func: FuncId) -> bool
        ensures { result ≡ fits_function ty.now (map (λ a. a.ty) args.now) (slice_get self.now.names.now.source.now.functions func) }
    {
        match self.names.source.functions.get(func) {
            None => false,
            Some(function) => fits_function(ty, args, function),
        }
    }

    fn fits_declaration(&self, ty: &Option<IrType>, args: &[Arg], at: usize) -> bool
        ensures { result ≡ fits_declared ty.now (map (λ a. a.ty) args.now) (slice_get self.now.names.now.source.now.declarations at) }
    {
        match self.names.source.declarations.get(at) {
            None => false,
            Some(declaration) => fits_declared(ty, args, declaration),
        }
    }

    fn fits_named(&self, ty: &Option<IrType>, args: &[Arg], name: &Name) -> bool
        ensures { result ≡ fits_named self.now.names.now.source.now ty.now (map (λ a. a.ty) args.now) name.now }
    {
        if let Some(func) = self.names.function_named(name) {
            return self.fits_position(ty, args, func);
        }
        match self.names.declaration_named(name) {
            None => false,
            Some(at) => self.fits_declaration(ty, args, at),
        }
    }

    fn fits_callee(
        &self,
        ty: &Option<IrType>,
        args: &[Arg],
        callee: &Callee,
    ) -> Result<bool, AllocError>
        ensures { IfOk result (λ b. b ≡ fits_callee self.now.names.now.source.now ty.now args.now callee.now) }
    {
        match callee {
            Callee::Named(name) => Ok(self.fits_named(ty, args, name)),
            Callee::Allocator(allocator) => {
                let name = allocator_name(self.alloc, *allocator)?;
                let is_wanted = is_result(allocator_result(*allocator), ty)
                    && are_wanted(allocator_params(*allocator), args);
                Ok(is_wanted && self.fits_named(ty, args, &name))
            }
            Callee::Intrinsic(intrinsic) => {
                Ok(
                    is_result(intrinsic_result(*intrinsic), ty)
                        && are_wanted(intrinsic_params(*intrinsic), args),
                )
            }
            Callee::Local(_) => Ok(true),
        }
    }
}

impl FunctionRule for OtherTypes<'_> {
    ghost breaks = { λ r. calls_otherwise r.names.now.source.now };

    fn breaks_signature(&self, _place: Place, _function: &Function) -> Result<bool, AllocError> {
        Ok(false)
    }

    fn breaks_block(&self, _place: Place, _block: &Block) -> Result<bool, AllocError> {
        Ok(false)
    }

    fn breaks_phi(&self, _place: Place, _phi: &Phi) -> Result<bool, AllocError> {
        Ok(false)
    }

    fn breaks_instr(&self, _place: Place, instr: &Instr) -> Result<bool, AllocError> {
        match instr {
            Instr::Call {
                ty,
                callee,
                args,
                ..
            } => Ok(!self.fits_callee(ty, args.as_slice(), callee)?),
            _ => Ok(false),
        }
    }

    fn breaks_ending(&self, _place: Place, _term: &Terminator) -> Result<bool, AllocError> {
        Ok(false)
    }
}

impl ModuleRule for OtherTypes<'_> {
    ghost says = { λ r. other_types r.names.now.source.now };

    fn breaks_type(&self, _at: usize, _item: &TypeItem) -> Result<bool, AllocError> {
        Ok(false)
    }

    fn breaks_global(&self, _at: usize, _item: &GlobalItem) -> Result<bool, AllocError> {
        Ok(false)
    }

    fn breaks_declaration(&self, _at: usize, item: &Declaration) -> Result<bool, AllocError> {
        let callee = callee_of(item.name.copied(self.alloc)?);
        Ok(!fits_table(item, &callee))
    }

    fn first_in(&self, func: FuncId, function: &Function) -> Result<Option<Place>, AllocError> {
        first_part(self, func, function)
    }
}

/// The first call or declaration whose types aren't those of what is called (rule Y2).
pub fn first_other_type(alloc: Global, names: &Names<'_>) -> Result<Option<Place>, AllocError>
    ensures { IfOk result (λ p. p ≡ first_place_of (other_types names.now.source.now) names.now.source.now) }
{
    first_place(&OtherTypes { alloc, names }, names.source)
}
