//! From where the edges of each block come.

ghost use Rattle.std.specs.Prelude.{◌≡◌, IfOk, OnOk, []};
ghost use Rattle.pass_split.specs.Pieces.{after_cut, is_nowhere, next_origin, origin_after, origin_in, origins_by, suspend_origins, origins_of};

use crate::origin::Origin;
use crate::pieces::begins_again;
use ir_base::Items;
use ir_model::{Block, Instr};
use pass_intrinsics::{Cut, Part, Shape, SuspendPoint, cut_at, later};
use std::alloc::AllocError;

fn after_cut(origin: Origin, cut: Cut) -> Origin
    ensures { result ≡ after_cut origin cut }
{
    match cut {
        Cut::Marks(label) => Origin::Piece(label),
        Cut::Returns => Origin::Nowhere,
        Cut::Stays | Cut::Suspends | Cut::Transfers(_) => origin,
    }
}

fn is_nowhere(origin: Origin) -> bool
    ensures { result ≡ is_nowhere origin }
{
    match origin {
        Origin::Nowhere => true,
        _ => false,
    }
}

fn next_origin(
    shape: &Shape,
    part: Part,
    origin: Origin,
    instr: &Instr,
) -> Result<Origin, AllocError>
    ensures { IfOk result (λ o. o ≡ next_origin shape.now part origin instr.now) }
{
    if begins_again(part, instr) {
        return Ok(Origin::Nowhere);
    }
    let cut = cut_at(shape, part, instr, &[])?;
    Ok(after_cut(origin, cut))
}

fn origin_after(
    shape: &Shape,
    part: Part,
    origin: Origin,
    instr: &Instr,
) -> Result<Origin, AllocError>
    ensures { IfOk result (λ o. o ≡ origin_after shape.now part origin instr.now) }
{
    if is_nowhere(origin) {
        return Ok(origin);
    }
    next_origin(shape, part, origin, instr)
}

fn origin_in(
    shape: &Shape,
    part: Part,
    first: Origin,
    instrs: &[Instr],
) -> Result<Origin, AllocError>
    ensures { IfOk result (λ o. o ≡ origin_in shape.now part first instrs.now) }
{
    let mut origin = first;
    for instr in instrs {
        origin = origin_after(shape, part, origin, instr)?;
    }
    Ok(origin)
}

fn set_blocks(
    shape: &Shape,
    part: Part,
    table: &mut Items<Origin>,
    blocks: &[Block],
) -> Result<(), AllocError>
    ensures { OnOk result (table.new ≡ origins_by shape.now part table.old blocks.now) }
{
    for block in blocks {
        let first = Origin::Piece(block.label);
        let origin = origin_in(shape, part, first, block.instrs.as_slice())?;
        table.set(block.label, origin);
    }
    Ok(())
}

fn set_suspends(table: &mut Items<Origin>, suspends: &[SuspendPoint]) -> Result<(), AllocError>
    ensures { OnOk result (table.new ≡ suspend_origins table.old 0 suspends.now) }
{
    let mut number = 0;
    for point in suspends {
        table.set(point.block, Origin::Suspend(number));
        number = later(number, 1)?;
    }
    Ok(())
}

/// Sets from where the edges of each label's block come.
pub fn set_origins(
    shape: &Shape,
    part: Part,
    table: &mut Items<Origin>,
    blocks: &[Block],
) -> Result<(), AllocError>
    ensures { OnOk result (table.new ≡ origins_of shape.now part table.old blocks.now) }
{
    set_blocks(shape, part, table, blocks)?;
    set_suspends(table, shape.suspends.as_slice())
}
