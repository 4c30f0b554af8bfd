//! Values on their way between cells and fields.

ghost use Rattle.std.specs.Prelude.{◌≡◌, ◌+◌, ◌++◌, ◌∷◌, [], IfOk, OnOk, slice_get};
ghost use Rattle.ir_model.specs.Layout.{bytes_of_width};
ghost use Rattle.ir_model.specs.Ty.{int, ptr};
ghost use Rattle.ir_model.specs.TypeView.{bits_of};
ghost use Rattle.pass_fetch.specs.Fetching.{value_bytes};
ghost use Rattle.pass_cells.specs.Moves.{load_from, store_to, cell_alloca, saved_one, saved_values, after_saved, address_again, again_one, again_values, after_again};

use crate::plan::KeptValue;
use ir_base::{Data, Items, Short, ValueId};
use ir_model::{Arg, Instr, IntWidth, IrType, Node, Operand};
use pass_intrinsics::later;
use std::alloc::{AllocError, Global};

fn width_bytes(width: IntWidth) -> u64
    ensures { result ≡ bytes_of_width (bits_of width) }
{
    match width {
        IntWidth::I1 | IntWidth::I8 => 1,
        IntWidth::I16 => 2,
        IntWidth::I32 => 4,
        IntWidth::I64 => 8,
    }
}

fn value_bytes(ty: &IrType) -> u64
    ensures { result ≡ value_bytes ty.now }
{
    match ty.node() {
        Node::Int(width) => width_bytes(*width),
        _ => 8,
    }
}

fn load_from(alloc: Global, id: ValueId, ty: &IrType, from: ValueId) -> Result<Instr, AllocError>
    ensures { IfOk result (λ i. i ≡ load_from id ty.now from) }
{
    Ok(Instr::Load {
        result: id,
        ty: ty.copied(alloc)?,
        address: Operand::Local(from),
        align: value_bytes(ty),
    })
}

/// A store of a value into a cell or a field.
pub fn store_to(alloc: Global, ty: &IrType, id: ValueId, to: ValueId) -> Result<Instr, AllocError>
    ensures { IfOk result (λ i. i ≡ store_to ty.now id to) }
{
    Ok(Instr::Store {
        arg: Arg {
            ty: ty.copied(alloc)?,
            value: Operand::Local(id),
        },
        address: Operand::Local(to),
        align: value_bytes(ty),
    })
}

/// A cell or a field.
pub fn cell_alloca(alloc: Global, id: ValueId, ty: &IrType) -> Result<Instr, AllocError>
    ensures { IfOk result (λ i. i ≡ cell_alloca id ty.now) }
{
    Ok(Instr::Alloca {
        result: id,
        ty: ty.copied(alloc)?,
        align: value_bytes(ty),
    })
}

// ---- before a save

fn push_saved(
    alloc: Global,
    all: &mut Items<Instr>,
    next: ValueId,
    kept: &Items<KeptValue>,
    place: usize,
) -> Result<(), AllocError>
    ensures { OnOk result (all.new ≡ all.old ++ saved_one next (slice_get kept.now place)) }
{
    if let Some(value) = kept.get(place) {
        all.push(load_from(alloc, next, &value.field_ty, value.field_cell)?)?;
        all.push(store_to(alloc, &value.field_ty, next, value.field)?)?;
    }
    Ok(())
}

/// Adds what stores values in their fields, and gives the next new name.
pub fn push_saved_values(
    alloc: Global,
    all: &mut Items<Instr>,
    kept: &Items<KeptValue>,
    first: ValueId,
    places: &[usize],
) -> Result<ValueId, AllocError>
    ensures instrs { OnOk result (all.new ≡ all.old ++ saved_values kept.now first places.now) }
    ensures next { IfOk result (λ n. n ≡ after_saved first places.now) }
{
    let mut next = first;
    for place in places {
        push_saved(alloc, all, next, kept, *place)?;
        next = later(next, 1)?;
    }
    Ok(next)
}

// ---- where a coroutine goes on

fn one_number(alloc: Global, id: ValueId) -> Result<Short<Arg>, AllocError>
    ensures { IfOk result (λ x. x ≡ (record { ty = int 64; value = Operand.Local id }) ∷ []) }
{
    let mut args = Short::new(alloc);
    args.push(Arg {
        ty: IrType::int(IntWidth::I64),
        value: Operand::Local(id),
    })?;
    Ok(args)
}

fn push_address(
    alloc: Global,
    all: &mut Items<Instr>,
    next: ValueId,
    cell: ValueId,
    slot: Option<ValueId>,
) -> Result<(), AllocError>
    ensures { OnOk result (all.new ≡ all.old ++ address_again next cell slot) }
{
    if let Some(slot) = slot {
        let address = later(next, 1)?;
        all.push(Instr::Gep {
            result: address,
            inbounds: false,
            ty: IrType::int(IntWidth::I8),
            base: Operand::Local(slot),
            indices: one_number(alloc, next)?,
        })?;
        all.push(store_to(alloc, &IrType::pointer(), address, cell)?)?;
    }
    Ok(())
}

fn push_again(
    alloc: Global,
    all: &mut Items<Instr>,
    next: ValueId,
    kept: &Items<KeptValue>,
    place: usize,
) -> Result<(), AllocError>
    ensures { OnOk result (all.new ≡ all.old ++ again_one next (slice_get kept.now place)) }
{
    if let Some(value) = kept.get(place) {
        all.push(load_from(alloc, next, &value.field_ty, value.field)?)?;
        all.push(store_to(alloc, &value.field_ty, next, value.field_cell)?)?;
        push_address(alloc, all, next, value.cell, value.slot)?;
    }
    Ok(())
}

/// Adds what loads values from their fields, and gives the next new name.
pub fn push_again_values(
    alloc: Global,
    all: &mut Items<Instr>,
    kept: &Items<KeptValue>,
    first: ValueId,
    places: &[usize],
) -> Result<ValueId, AllocError>
    ensures instrs { OnOk result (all.new ≡ all.old ++ again_values kept.now first places.now) }
    ensures next { IfOk result (λ n. n ≡ after_again first places.now) }
{
    let mut next = first;
    for place in places {
        push_again(alloc, all, next, kept, *place)?;
        next = later(next, 2)?;
    }
    Ok(next)
}
