//! Which operands fit a type.

ghost use Rattle.std.specs.Prelude.{◌≡◌, ◌≤◌, ◌^◌, IsTrue, ◌↔◌};
ghost use Rattle.ir_model.specs.Layout.{same_type};
ghost use Rattle.ir_model.specs.Ty.{to_tys, int, ptr};
ghost use Rattle.ir_locals.specs.Tables.{noted};
ghost use Rattle.rule_types.specs.Wants.{is_ptr, is_token, is_int};
ghost use Rattle.rule_values.specs.Fits.{is_integer, is_scalar, is_literal, fits_literal, fits_kind, fits as fits_of, fits_arg, fits_integer, fits_scalar, is_tokenless, are_tokenless};

use crate::kinds::{Kind, width_bits};
use ir_base::Data;
use ir_locals::LocalTable;
use ir_model::{Arg, IntWidth, IrType, Node, Operand};
use rule_types::Basic;

/// Whether a type is an integer type.
pub fn is_integer(ty: &IrType) -> bool
    ensures { result ≡ is_integer ty.now }
{
    matches!(ty.node(), Node::Int(_))
}

/// Whether a type is `ptr`.
pub fn is_pointer(ty: &IrType) -> bool
    ensures { result ≡ is_ptr ty.now }
{
    Basic::Ptr.is_type(ty)
}

/// Whether a type is `token`.
pub fn is_token(ty: &IrType) -> bool
    ensures { result ≡ is_token ty.now }
{
    Basic::Token.is_type(ty)
}

/// Whether a type is an i1.
fn is_i1(ty: &IrType) -> bool
    ensures { result ≡ is_int 1 ty.now }
{
    Basic::I1.is_type(ty)
}

/// Whether a type is an integer type or `ptr`.
pub fn is_scalar(ty: &IrType) -> bool
    ensures { result ≡ is_scalar ty.now }
{
    is_integer(ty) || is_pointer(ty)
}

/// Whether both are the same type.
pub fn is_same_type(a: &IrType, b: &IrType) -> bool
    ensures { result ≡ same_type a.now b.now }
{
    a.is_same(b)
}

/// How many words of a width there are.
fn count(bits: u32) -> u128
    requires { bits ≤ 64 }
    ensures { result ≡ 2 ^ bits }
{
    1 << bits
}

fn is_literal(bits: u32, number: i128) -> bool
    requires { bits ≤ 64 }
    ensures { result ≡ is_literal bits number }
{
    if number >= 0 {
        (number as u128) < count(bits)
    } else {
        2 * ((-1 - number) as u128) < count(bits)
    }
}

/// Whether a literal is in the range of an integer type.
pub fn fits_literal(ty: &IrType, number: i128) -> bool
    ensures { result ≡ fits_literal ty.now number }
{
    match ty.node() {
        Node::Int(width) => is_literal(width_bits(*width), number),
        _ => false,
    }
}

fn fits_kind(kind: Option<Kind>, ty: &IrType) -> bool
    ensures { result ≡ fits_kind kind ty.now }
{
    match (kind, ty.node()) {
        (Some(Kind::Int(bits)), Node::Int(width)) => bits == width_bits(*width),
        (Some(Kind::Ptr), Node::Ptr) => true,
        (Some(Kind::Token), Node::Token) => true,
        (Some(Kind::Saved), Node::Token) => true,
        _ => false,
    }
}

/// Whether an operand fits a type.
pub fn fits(kinds: &LocalTable<Kind>, ty: &IrType, operand: &Operand) -> bool
    ensures { result ≡ fits_of (noted kinds.now) ty.now operand.now }
{
    match operand {
        Operand::Local(local) => fits_kind(kinds.get(*local), ty),
        Operand::Global(_) => is_pointer(ty),
        Operand::Number(number) => fits_literal(ty, *number),
        Operand::True => is_i1(ty),
        Operand::False => is_i1(ty),
        Operand::Null => is_pointer(ty),
        Operand::None => is_token(ty),
        Operand::Poison => is_scalar(ty),
    }
}

/// Whether an operand fits its type.
pub fn fits_arg(kinds: &LocalTable<Kind>, arg: &Arg) -> bool
    ensures { result ≡ fits_arg (noted kinds.now) arg.now }
{
    fits(kinds, &arg.ty, &arg.value)
}

/// Whether an operand fits its type, which is an integer type.
pub fn fits_integer(kinds: &LocalTable<Kind>, arg: &Arg) -> bool
    ensures { result ≡ fits_integer (noted kinds.now) arg.now }
{
    is_integer(&arg.ty) && fits_arg(kinds, arg)
}

/// Whether an operand fits its type, which is an integer type or `ptr`.
pub fn fits_scalar(kinds: &LocalTable<Kind>, arg: &Arg) -> bool
    ensures { result ≡ fits_scalar (noted kinds.now) arg.now }
{
    is_scalar(&arg.ty) && fits_arg(kinds, arg)
}

/// Whether an operand is a pointer.
pub fn fits_pointer(kinds: &LocalTable<Kind>, operand: &Operand) -> bool
    ensures { result ≡ fits_of (noted kinds.now) ptr operand.now }
{
    fits(kinds, &IrType::pointer(), operand)
}

/// Whether an operand is an i1.
pub fn fits_i1(kinds: &LocalTable<Kind>, operand: &Operand) -> bool
    ensures { result ≡ fits_of (noted kinds.now) (int 1) operand.now }
{
    fits(kinds, &IrType::int(IntWidth::I1), operand)
}

/// Whether no token is written in a type.
#[cycle(tokenless)]
#[tactic(auto, using(ir_model::specs::TypeView::item_below_tys_size))]
pub fn is_tokenless(ty: &IrType) -> bool
    ensures { result ≡ is_tokenless ty.now }
{
    match ty.node() {
        Node::Int(_) | Node::Ptr | Node::Named(_) => true,
        Node::Token => false,
        Node::Array(_, element) => is_tokenless(element),
        Node::Struct(fields) => are_tokenless(fields),
    }
}

#[cycle(tokenless)]
#[tactic(auto, using(ir_model::specs::TypeView::item_below_tys_size))]
fn are_tokenless(fields: &[IrType]) -> bool
    ensures { result ≡ are_tokenless (to_tys fields.now) }
{
    for field in fields {
        if !is_tokenless(field) {
            return false;
        }
    }
    true
}
