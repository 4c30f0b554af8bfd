//! Initial values of globals.

ghost use Rattle.std.specs.Prelude.{◌≡◌, IfOk};
ghost use Rattle.rule_values.specs.Initials.{fits_initial, wrong_initials};
ghost use Rattle.rule_names.specs.Items.{first_place as first_place_of};

use crate::fits::{fits_literal, is_pointer};
use ir_base::{FuncId, Place};
use ir_model::{Declaration, Function, GlobalItem, IrType, Operand, TypeItem};
use ir_tables::Names;
use rule_names::{ModuleRule, first_place};
use rule_types::Basic;
use std::alloc::AllocError;

/// Initial values that don't fit their types or name a function (rule Y1).
#[derive(Drop)]
struct WrongInitials<'a> {
    names: &'a Names<'a>,
}

fn fits_initial(names: &Names<'_>, ty: &IrType, init: &Operand) -> bool
    ensures { result ≡ fits_initial names.now.source.now ty.now init.now }
{
    match init {
        Operand::Number(number) => fits_literal(ty, *number),
        Operand::True => Basic::I1.is_type(ty),
        Operand::False => Basic::I1.is_type(ty),
        Operand::Null => is_pointer(ty),
        Operand::Global(name) => is_pointer(ty) && names.global_named(name).is_some(),
        _ => false,
    }
}

impl ModuleRule for WrongInitials<'_> {
    ghost says = { λ r. wrong_initials r.names.now.source.now };

    fn breaks_type(&self, _at: usize, _item: &TypeItem) -> Result<bool, AllocError> {
        Ok(false)
    }

    fn breaks_global(&self, _at: usize, item: &GlobalItem) -> Result<bool, AllocError> {
        Ok(!fits_initial(self.names, &item.ty, &item.init))
    }

    fn breaks_declaration(&self, _at: usize, _item: &Declaration) -> Result<bool, AllocError> {
        Ok(false)
    }

    fn first_in(&self, _func: FuncId, _function: &Function) -> Result<Option<Place>, AllocError> {
        Ok(None)
    }
}

/// The first global whose initial value doesn't fit its type or names a function (rule Y1).
pub fn first_wrong_initial(names: &Names<'_>) -> Result<Option<Place>, AllocError>
    ensures { IfOk result (λ p. p ≡ first_place_of (wrong_initials names.now.source.now) names.now.source.now) }
{
    first_place(&WrongInitials { names }, names.source)
}
