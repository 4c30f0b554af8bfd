//! What the values of a function are.

ghost use Rattle.std.specs.Prelude.{◌≡◌, ◌≤◌};
ghost use Rattle.ir_model.specs.TypeView.{bits_of};
ghost use Rattle.rule_values.specs.Kinds.{kind_of, result_kind};

use ir_model::{Callee, IntWidth, Intrinsic, IrType, Node};

/// What a value is: an integer of so many bits, a pointer, a token, the token of a save, or of a type of which there are
/// no values.
#[derive(Clone, Copy, Debug, PartialEq, Eq, Drop)]
pub enum Kind {
    Int(u32),
    Ptr,
    Token,
    Saved,
    Other,
}

/// How many bits a width has.
pub fn width_bits(width: IntWidth) -> u32
    ensures value { result ≡ bits_of width }
    ensures narrow { result ≤ 64 }
{
    match width {
        IntWidth::I1 => 1,
        IntWidth::I8 => 8,
        IntWidth::I16 => 16,
        IntWidth::I32 => 32,
        IntWidth::I64 => 64,
    }
}

/// What a value of a type is.
pub fn kind_of(ty: &IrType) -> Kind
    ensures { result ≡ kind_of ty.now }
{
    match ty.node() {
        Node::Int(width) => Kind::Int(width_bits(*width)),
        Node::Ptr => Kind::Ptr,
        Node::Token => Kind::Token,
        _ => Kind::Other,
    }
}

/// What the result of a call is.
pub fn result_kind(callee: &Callee, ty: &Option<IrType>) -> Kind
    ensures { result ≡ result_kind callee.now ty.now }
{
    match ty {
        None => Kind::Other,
        Some(ty) => match callee {
            Callee::Intrinsic(Intrinsic::CoroSave) => Kind::Saved,
            _ => kind_of(ty),
        },
    }
}
