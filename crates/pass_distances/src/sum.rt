//! The instructions that sum a distance.

ghost use Rattle.std.specs.Prelude.{◌≡◌, ◌+◌, IfOk, OnOk, ◌++◌, ◌∷◌, []};
ghost use Rattle.pass_intrinsics.specs.Lowered.{no_flags};
ghost use Rattle.ir_model.specs.Ty.{int};
ghost use Rattle.pass_distances.specs.Ways.{ways_of as ways_of_gep};
ghost use Rattle.pass_distances.specs.Sums.{is_wide, widening, widened, on_number, way_instrs, sum_instrs, sum_next, sum_value, start_instrs, start_value, distance_instrs, distance_next};

use crate::types::Types;
use crate::way::Way;
use ir_base::{BinOp, CastOp, Data, Flags, Items, ValueId};
use ir_model::{Arg, Instr, IntWidth, IrType, Node, Operand};
use pass_intrinsics::later;
use std::alloc::{AllocError, Global};

/// The type of a distance.
pub fn number_type() -> IrType
    ensures { result ≡ int 64 }
{
    IrType::int(IntWidth::I64)
}

/// Whether an index of the type is taken as it is.
fn is_wide(ty: &IrType) -> bool
    ensures { result ≡ is_wide ty.now }
{
    match ty.node() {
        Node::Int(width) => match width {
            IntWidth::I64 => true,
            IntWidth::I1 | IntWidth::I8 | IntWidth::I16 | IntWidth::I32 => false,
        },
        _ => true,
    }
}

fn push_widening(
    alloc: Global,
    all: &mut Items<Instr>,
    next: ValueId,
    index: &Arg,
) -> Result<(), AllocError>
    ensures { OnOk result (all.new ≡ all.old ++ widening next index.now) }
{
    if !is_wide(&index.ty) {
        all.push(Instr::Cast {
            result: next,
            op: CastOp::Sext,
            nneg: false,
            arg: index.copied(alloc)?,
            to: number_type(),
        })?;
    }
    Ok(())
}

fn widened(alloc: Global, next: ValueId, index: &Arg) -> Result<Operand, AllocError>
    ensures { IfOk result (λ x. x ≡ widened next index.now) }
{
    if is_wide(&index.ty) {
        index.value.copied(alloc)
    } else {
        Ok(Operand::Local(next))
    }
}

/// An operation on distances, which wraps.
fn on_numbers(id: ValueId, op: BinOp, left: Operand, right: Operand) -> Instr
    ensures { result ≡ on_number id op left right }
{
    Instr::Binary {
        result: id,
        op,
        flags: Flags {
            nuw: false,
            nsw: false,
            exact: false,
            disjoint: false,
        },
        ty: number_type(),
        left,
        right,
    }
}

/// Adds what sums a distance and one way more.
fn push_way(
    alloc: Global,
    all: &mut Items<Instr>,
    next: ValueId,
    so_far: Operand,
    way: &Way,
) -> Result<(), AllocError>
    ensures { OnOk result (all.new ≡ all.old ++ way_instrs next so_far way.now) }
{
    let sum = later(next, 2)?;
    match way {
        Way::Bytes(bytes) => {
            let bytes = Operand::Number(i128::from(*bytes));
            all.push(on_numbers(sum, BinOp::Add, so_far, bytes))?;
        }
        Way::Elements(index, size) => {
            let product = later(next, 1)?;
            let size = Operand::Number(i128::from(*size));
            push_widening(alloc, all, next, index)?;
            let index = widened(alloc, next, index)?;
            all.push(on_numbers(product, BinOp::Mul, index, size))?;
            all.push(on_numbers(sum, BinOp::Add, so_far, Operand::Local(product)))?;
        }
    }
    Ok(())
}

/// Adds what sums a distance and the ways, and gives the sum and the next new name.
fn push_sum(
    alloc: Global,
    all: &mut Items<Instr>,
    first: ValueId,
    start: Operand,
    ways: &[Way],
) -> Result<(Operand, ValueId), AllocError>
    ensures instrs { OnOk result (all.new ≡ all.old ++ sum_instrs first start ways.now) }
    ensures value { IfOk result (λ x. x.0 ≡ sum_value first start ways.now) }
    ensures next { IfOk result (λ x. x.1 ≡ sum_next first ways.now) }
{
    let mut so_far = start;
    let mut next = first;
    for way in ways {
        push_way(alloc, all, next, so_far, way)?;
        so_far = Operand::Local(later(next, 2)?);
        next = later(next, 3)?;
    }
    Ok((so_far, next))
}

fn push_start(
    all: &mut Items<Instr>,
    next: ValueId,
    from: Option<ValueId>,
) -> Result<(), AllocError>
    ensures { OnOk result (all.new ≡ all.old ++ start_instrs next from) }
{
    match from {
        None => Ok(()),
        Some(cell) => {
            all.push(Instr::Load {
                result: next,
                ty: number_type(),
                address: Operand::Local(cell),
                align: 8,
            })?;
            Ok(())
        }
    }
}

fn start_value(next: ValueId, from: Option<ValueId>) -> Operand
    ensures { result ≡ start_value next from }
{
    match from {
        None => Operand::Number(0),
        Some(_) => Operand::Local(next),
    }
}

/// Adds what sums the distance of a `getelementptr` and stores it in a cell, and gives the next new name. The sum begins with
/// the distance that another cell keeps of the base, or with 0.
pub fn push_distance(
    alloc: Global,
    types: &Types<'_>,
    all: &mut Items<Instr>,
    next: ValueId,
    from: Option<ValueId>,
    cell: ValueId,
    ty: &IrType,
    indices: &[Arg],
) -> Result<ValueId, AllocError>
    ensures instrs { OnOk result (all.new ≡ all.old ++ distance_instrs next from cell (ways_of_gep types.now.sizes.now.names.now.source.now ty.now indices.now)) }
    ensures next { IfOk result (λ n. n ≡ distance_next next (ways_of_gep types.now.sizes.now.names.now.source.now ty.now indices.now)) }
{
    let ways = types.ways_of(alloc, ty, indices)?;
    push_start(all, next, from)?;
    let start = start_value(next, from);
    let (sum, after) = push_sum(alloc, all, later(next, 1)?, start, ways.as_slice())?;
    all.push(Instr::Store {
        arg: Arg {
            ty: number_type(),
            value: sum,
        },
        address: Operand::Local(cell),
        align: 8,
    })?;
    Ok(after)
}
