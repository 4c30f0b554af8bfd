//! The indices of `getelementptr`.

ghost use Rattle.std.specs.Prelude.{◌≡◌, Some};
ghost use Rattle.std.specs.Option.{option_copied};
ghost use Rattle.ir_model.specs.Layout.{unnamed as unnamed_of};
ghost use Rattle.ir_model.specs.Ty.{to_tys};
ghost use Rattle.rule_values.specs.Geps.{field_at, field_number, part_of, inner_part, leads_in, indices_fit};

use ir_model::{Arg, IrType, Node, Operand};
use ir_tables::Names;
use rule_types::Basic;

fn field_number(operand: &Operand) -> Option<u128>
    ensures { result ≡ field_number operand.now }
{
    match operand {
        Operand::Number(number) => {
            if *number >= 0 {
                Some(*number as u128)
            } else {
                None
            }
        }
        _ => None,
    }
}

fn field_at(fields: &[IrType], at: u128) -> Option<&IrType>
    ensures { option_copied result ≡ field_at (to_tys fields.now) at }
{
    if at < fields.len() as u128 {
        match fields.get(at as usize) {
            None => None,
            Some(field) => Some(field),
        }
    } else {
        None
    }
}

/// The type to which an index leads that is no name.
fn part_of<'a>(ty: &'a IrType, arg: &Arg) -> Option<&'a IrType>
    ensures { option_copied result ≡ part_of ty.now arg.now }
{
    match ty.node() {
        Node::Array(_, element) => Some(element),
        Node::Struct(fields) => {
            if !Basic::I32.is_type(&arg.ty) {
                return None;
            }
            match field_number(&arg.value) {
                None => None,
                Some(at) => field_at(fields, at),
            }
        }
        _ => None,
    }
}

/// What a name stands for.
fn unnamed<'a>(names: &'a Names<'a>, ty: &'a IrType) -> &'a IrType
    ensures { result.now ≡ unnamed_of names.now.source.now ty.now }
{
    match ty.node() {
        Node::Named(name) => match names.type_named(name) {
            None => ty,
            Some(at) => match names.source.types.get(at) {
                None => ty,
                Some(item) => &item.ty,
            },
        },
        _ => ty,
    }
}

/// Whether the indices lead into a type.
fn leads_in<'a>(names: &'a Names<'a>, ty: &'a IrType, indices: &[Arg]) -> bool
    ensures { result ≡ leads_in names.now.source.now (Some ty.now) indices.now }
{
    let mut inside = ty;
    for arg in indices {
        match part_of(unnamed(names, inside), arg) {
            None => return false,
            Some(part) => inside = part,
        }
    }
    true
}

/// Whether the indices of a `getelementptr` fit its type: the first counts whole types, the others lead into it.
pub fn indices_fit<'a>(names: &'a Names<'a>, ty: &'a IrType, indices: &[Arg]) -> bool
    ensures { result ≡ indices_fit names.now.source.now ty.now indices.now }
{
    match indices {
        [] => false,
        [_, rest @ ..] => leads_in(names, ty, rest),
    }
}
