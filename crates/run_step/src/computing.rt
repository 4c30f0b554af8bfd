//! Operations on values.

ghost use Rattle.std.specs.Prelude.{◌≡◌};
ghost use Rattle.run_memory.specs.run_ints.Numbers.{binary as binary_of, icmp as icmp_of};
ghost use Rattle.ir_paths.specs.ir_model.TypeView.{bits_of};
ghost use Rattle.run_step.specs.Values.{number_at as number_at_type, number_of_width};
ghost use Rattle.run_step.specs.Step.{cast_to, chosen, by_pred};

use crate::operand::{from_number, number_at, to_number};
use crate::width::bits;
use ir_paths::ir_base_library::{BinOp, CastOp, Cause, Flags, Pred};
use ir_paths::ir_model_library::{IntWidth, IrType, Node};
use run_memory::Value;
use run_memory::run_ints_library::{Num, binary, cast, icmp};

fn compute_at(
    width: IntWidth,
    op: BinOp,
    flags: Flags,
    left: Value,
    right: Value,
) -> Result<Num, Cause>
    ensures { result ≡ binary_of op flags (number_of_width (bits_of width) left) (number_of_width (bits_of width) right) }
{
    let left = to_number(width, left);
    let right = to_number(width, right);
    binary(op, flags, left, right)
}

/// A binary operation on two values of a type.
pub fn compute(
    op: BinOp,
    flags: Flags,
    ty: &IrType,
    left: Value,
    right: Value,
) -> Result<Num, Cause>
    ensures { result ≡ binary_of op flags (number_at_type ty.now left) (number_at_type ty.now right) }
{
    match ty.node() {
        Node::Int(width) => compute_at(*width, op, flags, left, right),
        _ => binary(op, flags, Num::Poison, Num::Poison),
    }
}

/// A comparison of two values of an integer type.
pub fn compare_at(width: IntWidth, pred: Pred, left: Value, right: Value) -> Num
    ensures { result ≡ icmp_of pred (number_of_width (bits_of width) left) (number_of_width (bits_of width) right) }
{
    let left = to_number(width, left);
    let right = to_number(width, right);
    icmp(pred, left, right)
}

/// What a comparison of pointers says, which is by `eq` or `ne`.
pub fn by(pred: Pred, same: bool) -> bool
    ensures { result ≡ by_pred pred same }
{
    match pred {
        Pred::Ne => !same,
        _ => same,
    }
}

/// A value of a type cast to a type.
pub fn converted(op: CastOp, nneg: bool, from: &IrType, value: Value, to: &IrType) -> Value
    ensures { result ≡ cast_to op nneg (number_at_type from.now value) to.now }
{
    match to.node() {
        Node::Int(width) => {
            let number = number_at(from, value);
            from_number(cast(op, nneg, number, bits(*width)))
        }
        _ => Value::Poison,
    }
}

/// The value that a condition chooses.
pub fn choose(condition: Value, yes: Value, no: Value) -> Value
    ensures { result ≡ chosen condition yes no }
{
    match condition {
        Value::Int(word) => { if word.bits == 1 { yes } else { no } }
        _ => Value::Poison,
    }
}
