//! What the pass goes by.

ghost use Rattle.std.specs.Prelude.{◌≡◌, ◌+◌, IfOk, OnOk, ◌++◌, None as NoEntry, Some as IsTold, replicate, length, get_or};
ghost use Rattle.ir_model.specs.Ty.{ptr};
ghost use Rattle.pass_intrinsics.specs.Shapes.{suspends_of as all_suspends, saves_of as all_saves};
ghost use Rattle.pass_cells.specs.Kept.{keeping_of as keeping_by};
ghost use Rattle.pass_cells.specs.Links.{bases_of as all_bases, slots_of as all_slots, marks_of as all_marks};
ghost use Rattle.pass_cells.specs.Plan.{type_at, kept_value, kept_from, with_returns, returns_of, plan_of, plan_by};

use crate::climbing::{bases_of, marks_of, slots_of};
use crate::keeping::{Keeping, keeping_of, rows_of};
use crate::links::distance_cells;
use crate::names::{cell_name, field_name};
use crate::tables::{entry, no_entries};
use crate::value_types::value_types;
use ir_base::{Data, Items, SuspendId, ValueId};
use ir_model::{Function, IntWidth, IrType};
use pass_intrinsics::{SuspendPoint, later, saves_of, suspends_of};
use std::alloc::{AllocError, Global};

/// A value that is kept: its type, its cell, its field, and what the field is filled from: the cell, or the one of the value's
/// distance from a slot.
#[derive(Drop)]
pub struct KeptValue {
    pub ty: IrType,
    pub cell: ValueId,
    pub field: ValueId,
    pub field_ty: IrType,
    pub field_cell: ValueId,
    /// The slot, where the field keeps a distance.
    pub slot: Option<ValueId>,
}

/// What the pass goes by.
#[derive(Drop)]
pub struct Plan {
    /// The first name behind those of the function.
    pub first: ValueId,
    /// The values that are kept, in order, and for each name its place among them.
    pub kept: Items<KeptValue>,
    pub places: Items<Option<usize>>,
    /// For each name the base of the `getelementptr` that makes it, and the cell of its distance.
    pub bases: Items<Option<ValueId>>,
    pub cells: Items<Option<ValueId>>,
    /// How many links have a cell and aren't kept.
    pub links: usize,
    /// For each suspend the places of the values that cross it.
    pub rows: Items<Items<usize>>,
    /// For each name the suspend whose save it is, or whose resume or destroy edge leads to it.
    pub saves: Items<Option<SuspendId>>,
    pub returns: Items<Option<SuspendId>>,
}

fn type_at(alloc: Global, types: &Items<IrType>, place: usize) -> Result<IrType, AllocError>
    ensures { IfOk result (λ t. t ≡ type_at types.now place) }
{
    match types.get(place) {
        None => Ok(IrType::pointer()),
        Some(ty) => ty.copied(alloc),
    }
}

fn kept_value(
    alloc: Global,
    cell: ValueId,
    field: ValueId,
    ty: IrType,
    distance: Option<ValueId>,
    slot: Option<ValueId>,
) -> Result<KeptValue, AllocError>
    ensures { IfOk result (λ k. k ≡ kept_value cell field ty distance slot) }
{
    match distance {
        None => Ok(KeptValue {
            field_ty: ty.copied(alloc)?,
            ty,
            cell,
            field,
            field_cell: cell,
            slot: None,
        }),
        Some(distance) => Ok(KeptValue {
            ty,
            cell,
            field,
            field_ty: IrType::int(IntWidth::I64),
            field_cell: distance,
            slot,
        }),
    }
}

fn kept_of(
    alloc: Global,
    first: ValueId,
    types: &Items<IrType>,
    cells: &Items<Option<ValueId>>,
    slots: &Items<Option<ValueId>>,
    values: &[ValueId],
) -> Result<Items<KeptValue>, AllocError>
    ensures { IfOk result (λ x. x ≡ kept_from first (length values.now) types.now cells.now slots.now 0 values.now) }
{
    let mut all = Items::new(alloc);
    let count = values.len();
    let mut place = 0;
    for value in values {
        let cell = cell_name(first, place)?;
        let field = field_name(first, count, place)?;
        let ty = type_at(alloc, types, place)?;
        let distance = entry(cells, *value);
        let slot = entry(slots, *value);
        all.push(kept_value(alloc, cell, field, ty, distance, slot)?)?;
        place = later(place, 1)?;
    }
    Ok(all)
}

fn set_returns(
    table: &mut Items<Option<SuspendId>>,
    suspends: &[SuspendPoint],
) -> Result<(), AllocError>
    ensures { OnOk result (table.new ≡ with_returns table.old 0 suspends.now) }
{
    let mut number = 0;
    for point in suspends {
        table.set(point.resume, Some(number));
        table.set(point.destroy, Some(number));
        number = later(number, 1)?;
    }
    Ok(())
}

/// For each label the suspend whose resume or destroy edge leads there.
fn returns_of(
    alloc: Global,
    count: usize,
    suspends: &[SuspendPoint],
) -> Result<Items<Option<SuspendId>>, AllocError>
    ensures { IfOk result (λ x. x ≡ returns_of count suspends.now) }
{
    let mut table = no_entries(alloc, count)?;
    set_returns(&mut table, suspends)?;
    Ok(table)
}

fn plan_by(
    alloc: Global,
    function: &Function,
    crossing: &[(ValueId, SuspendId)],
    local: &[bool],
    keeping: Keeping,
    suspends: &[SuspendPoint],
) -> Result<Plan, AllocError>
    ensures { IfOk result (λ p. p ≡ plan_by function.now crossing.now keeping suspends.now (all_bases function.now) (all_slots local.now (all_bases function.now)) (all_marks (all_bases function.now) (all_slots local.now (all_bases function.now)) keeping.values)) }
{
    let first = function.names.len();
    let values = keeping.values.as_slice();
    let types = value_types(alloc, function, &keeping)?;
    let bases = bases_of(alloc, function)?;
    let slots = slots_of(alloc, local, &bases)?;
    let marks = marks_of(alloc, &bases, &slots, values)?;
    let (cells, links) = distance_cells(
        alloc,
        first,
        values.len(),
        &keeping.places,
        marks.as_slice(),
    )?;
    Ok(Plan {
        first,
        kept: kept_of(alloc, first, &types, &cells, &slots, values)?,
        bases,
        cells,
        links,
        rows: rows_of(alloc, &keeping.places, suspends.len(), crossing)?,
        saves: saves_of(alloc, function, suspends)?,
        returns: returns_of(alloc, first, suspends)?,
        places: keeping.places,
    })
}

/// What the pass goes by, from the pairs of values and suspends that they cross, and for each name whether it is a local slot.
pub fn plan_of(
    alloc: Global,
    function: &Function,
    crossing: &[(ValueId, SuspendId)],
    local: &[bool],
) -> Result<Plan, AllocError>
    ensures { IfOk result (λ p. p ≡ plan_of function.now crossing.now local.now) }
{
    let keeping = keeping_of(alloc, function.names.len(), crossing)?;
    let suspends = suspends_of(alloc, function)?;
    plan_by(
        alloc,
        function,
        crossing,
        local,
        keeping,
        suspends.as_slice(),
    )
}
