//! Calls of functions that are declared only.

ghost use Rattle.std.specs.Prelude.{◌≡◌, IfOk, Some, slice_get, option_to_list, ◌++◌};
ghost use Rattle.std.specs.List.{list_any};
ghost use Rattle.rule_types.specs.Wants.{is_ptr};
ghost use Rattle.rule_names.specs.Reserved.{begins_with, name_begins};
ghost use Rattle.rule_locals.specs.Calls.{has_pointer, is_closed, is_closed_declaration, calls_closed, first_closed_call as first_closed_call_of};

use crate::instrs::{InstrRule, first_instr};
use ir_base::{FuncId, Name, Place};
use ir_model::{Callee, Declaration, Function, Instr, IrType};
use ir_tables::Names;
use rule_types::Basic;
use std::alloc::AllocError;

/// Calls of functions that are declared only and aren't open to observed calls (rule Y3).
#[derive(Drop)]
struct ClosedCalls<'a> {
    names: &'a Names<'a>,
}

fn begins_with(head: &[u8], text: &[u8]) -> bool
    ensures { result ≡ begins_with head.now text.now }
{
    let mut wanted = head;
    let mut given = text;
    loop {
        match wanted {
            [] => return true,
            [x, more_wanted @ ..] => match given {
                [] => return false,
                [y, more_given @ ..] => {
                    if *x != *y {
                        return false;
                    }
                    wanted = more_wanted;
                    given = more_given;
                }
            },
        }
    }
}

fn name_begins(head: &[u8], name: &Name) -> bool
    ensures { result ≡ name_begins head.now name.now }
{
    match name {
        Name::Number(_) => false,
        Name::Text(text) => begins_with(head, text.as_bytes()),
    }
}

/// Whether a type is `ptr`.
pub fn is_pointer(ty: &IrType) -> bool
    ensures { result ≡ is_ptr ty.now }
{
    Basic::Ptr.is_type(ty)
}

fn any_pointer(types: &[IrType]) -> bool
    ensures { result ≡ list_any is_ptr types.now }
{
    for ty in types {
        if is_pointer(ty) {
            return true;
        }
    }
    false
}

fn has_pointer(declaration: &Declaration) -> bool
    ensures { result ≡ has_pointer (Some declaration.now) }
{
    let params = declaration.params.as_slice();
    match &declaration.result {
        None => any_pointer(params),
        Some(result) => is_pointer(result) || any_pointer(params),
    }
}

impl ClosedCalls<'_> {
    fn has_pointer_at(&self, at: usize) -> bool
        ensures { result ≡ has_pointer (slice_get self.now.names.now.source.now.declarations at) }
    {
        match self.names.source.declarations.get(at) {
            None => false,
            Some(declaration) => has_pointer(declaration),
        }
    }

    fn is_closed(&self, name: &Name) -> bool
        ensures { result ≡ is_closed self.now.names.now.source.now name.now }
    {
        if self.names.function_named(name).is_some() {
            return false;
        }
        match self.names.declaration_named(name) {
            None => false,
            Some(at) => name_begins(b"llvm.", name) || self.has_pointer_at(at),
        }
    }
}

impl InstrRule for ClosedCalls<'_> {
    ghost instr_breaks = { λ r. calls_closed r.names.now.source.now };

    fn is_broken(&self, _place: Place, instr: &Instr) -> Result<bool, AllocError> {
        match instr {
            Instr::Call {
                callee: Callee::Named(name),
                ..
            } => Ok(self.is_closed(name)),
            _ => Ok(false),
        }
    }
}

/// The first call of a function that is declared only, is no allocator, and has a pointer parameter or result or a name
/// beginning with `llvm.` (rule Y3).
pub fn first_closed_call(
    names: &Names<'_>,
    func: FuncId,
    function: &Function,
) -> Result<Option<Place>, AllocError>
    ensures { IfOk result (λ p. p ≡ first_closed_call_of names.now.source.now func function.now) }
{
    first_instr(&ClosedCalls { names }, func, function)
}
