//! What stands around the instructions and at the fronts of the blocks.

ghost use Rattle.std.specs.Prelude.{◌≡◌, ◌++◌, IfOk, OnOk, length, slice_get};
ghost use Rattle.ir_parts.specs.Contents.{result_of as result_of_instr};
ghost use Rattle.pass_cells.specs.Written.{row_at, save_at, stored_one, stored, stored_result, distance_from, distance_behind, after_distance, written_one, after_one, written_instrs, after_instrs, stored_phis, written_block, after_block, written_blocks, after_blocks, entry_blocks, kept_allocas, distance_allocas, link_allocas, stored_params, entry_front};

use crate::moves::{cell_alloca, push_again_values, push_saved_values, store_to};
use crate::names::link_name;
use crate::plan::{KeptValue, Plan};
use crate::tables::entry;
use ir_base::{Data, Items, SuspendId, ValueId};
use ir_model::{Block, Callee, Instr, IntWidth, Intrinsic, IrType, Param, Phi};
use ir_parts::result_of;
use pass_distances::{Types, push_distance};
use std::alloc::{AllocError, Global};

// ---- what stands around an instruction

/// The places of the values that cross a suspend.
fn row_at(rows: &Items<Items<usize>>, suspend: Option<SuspendId>) -> &[usize]
    ensures { result.now ≡ row_at rows.now suspend }
{
    match suspend {
        None => &[],
        Some(number) => match rows.get(number) {
            None => &[],
            Some(row) => row.as_slice(),
        },
    }
}

/// The suspend whose save an instruction is.
fn save_at(plan: &Plan, instr: &Instr) -> Option<SuspendId>
    ensures { result ≡ save_at plan.now.saves instr.now }
{
    match instr {
        Instr::Call {
            result: Some(id),
            must_tail: _,
            ty: _,
            callee: Callee::Intrinsic(Intrinsic::CoroSave),
            args: _,
        } => entry(&plan.saves, *id),
        _ => None,
    }
}

fn push_stored_one(
    alloc: Global,
    all: &mut Items<Instr>,
    kept: &Items<KeptValue>,
    place: usize,
    id: ValueId,
) -> Result<(), AllocError>
    ensures { OnOk result (all.new ≡ all.old ++ stored_one id (slice_get kept.now place)) }
{
    if let Some(value) = kept.get(place) {
        all.push(store_to(alloc, &value.ty, id, value.cell)?)?;
    }
    Ok(())
}

/// Adds a value's store into its cell, where it is kept.
fn push_stored(
    alloc: Global,
    all: &mut Items<Instr>,
    plan: &Plan,
    id: ValueId,
) -> Result<(), AllocError>
    ensures { OnOk result (all.new ≡ all.old ++ stored plan.now id) }
{
    match entry(&plan.places, id) {
        None => Ok(()),
        Some(place) => push_stored_one(alloc, all, &plan.kept, place, id),
    }
}

fn push_stored_result(
    alloc: Global,
    all: &mut Items<Instr>,
    plan: &Plan,
    instr: &Instr,
) -> Result<(), AllocError>
    ensures { OnOk result (all.new ≡ all.old ++ stored_result plan.now (result_of_instr instr.now)) }
{
    match result_of(instr) {
        None => Ok(()),
        Some(id) => push_stored(alloc, all, plan, id),
    }
}

/// The cell of the distance from which that of a `getelementptr` goes on.
fn distance_from(plan: &Plan, id: ValueId) -> Option<ValueId>
    ensures { result ≡ distance_from plan.now id }
{
    match entry(&plan.bases, id) {
        None => None,
        Some(base) => entry(&plan.cells, base),
    }
}

/// Adds what sums the distance of a `getelementptr`, where it has a cell, and gives the next new name.
fn push_distance_behind(
    alloc: Global,
    types: &Types<'_>,
    all: &mut Items<Instr>,
    plan: &Plan,
    next: ValueId,
    instr: &Instr,
) -> Result<ValueId, AllocError>
    ensures instrs { OnOk result (all.new ≡ all.old ++ distance_behind types.now.sizes.now.names.now.source.now plan.now next instr.now) }
    ensures next { IfOk result (λ n. n ≡ after_distance types.now.sizes.now.names.now.source.now plan.now next instr.now) }
{
    match instr {
        Instr::Gep {
            result: id,
            inbounds: _,
            ty,
            base: _,
            indices,
        } => match entry(&plan.cells, *id) {
            None => Ok(next),
            Some(cell) => {
                let from = distance_from(plan, *id);
                push_distance(alloc, types, all, next, from, cell, ty, indices.as_slice())
            }
        },
        _ => Ok(next),
    }
}

/// Adds an instruction with what stands before and behind it, and gives the next new name.
fn push_written(
    alloc: Global,
    types: &Types<'_>,
    all: &mut Items<Instr>,
    plan: &Plan,
    next: ValueId,
    instr: &Instr,
) -> Result<ValueId, AllocError>
    ensures instrs { OnOk result (all.new ≡ all.old ++ written_one types.now.sizes.now.names.now.source.now plan.now next instr.now) }
    ensures next { IfOk result (λ n. n ≡ after_one types.now.sizes.now.names.now.source.now plan.now next instr.now) }
{
    let row = row_at(&plan.rows, save_at(plan, instr));
    let next = push_saved_values(alloc, all, &plan.kept, next, row)?;
    all.push(instr.copied(alloc)?)?;
    push_stored_result(alloc, all, plan, instr)?;
    push_distance_behind(alloc, types, all, plan, next, instr)
}

fn push_all_written(
    alloc: Global,
    types: &Types<'_>,
    all: &mut Items<Instr>,
    plan: &Plan,
    first: ValueId,
    instrs: &[Instr],
) -> Result<ValueId, AllocError>
    ensures instrs { OnOk result (all.new ≡ all.old ++ written_instrs types.now.sizes.now.names.now.source.now plan.now first instrs.now) }
    ensures next { IfOk result (λ n. n ≡ after_instrs types.now.sizes.now.names.now.source.now plan.now first instrs.now) }
{
    let mut next = first;
    for instr in instrs {
        next = push_written(alloc, types, all, plan, next, instr)?;
    }
    Ok(next)
}

// ---- blocks

fn push_stored_phis(
    alloc: Global,
    all: &mut Items<Instr>,
    plan: &Plan,
    phis: &[Phi],
) -> Result<(), AllocError>
    ensures { OnOk result (all.new ≡ all.old ++ stored_phis plan.now phis.now) }
{
    for phi in phis {
        push_stored(alloc, all, plan, phi.result)?;
    }
    Ok(())
}

/// A block behind what stands at its front, and the next new name.
fn written_block(
    alloc: Global,
    types: &Types<'_>,
    plan: &Plan,
    front: Items<Instr>,
    next: ValueId,
    block: &Block,
) -> Result<(Block, ValueId), AllocError>
    ensures block { IfOk result (λ x. x.0 ≡ written_block types.now.sizes.now.names.now.source.now plan.now front next block.now) }
    ensures next { IfOk result (λ x. x.1 ≡ after_block types.now.sizes.now.names.now.source.now plan.now next block.now) }
{
    let mut instrs = front;
    let row = row_at(&plan.rows, entry(&plan.returns, block.label));
    let next = push_again_values(alloc, &mut instrs, &plan.kept, next, row)?;
    push_stored_phis(alloc, &mut instrs, plan, block.phis.as_slice())?;
    let source = block.instrs.as_slice();
    let next = push_all_written(alloc, types, &mut instrs, plan, next, source)?;
    let block = Block {
        label: block.label,
        phis: block.phis.copied(alloc)?,
        instrs,
        term: block.term.copied(alloc)?,
    };
    Ok((block, next))
}

fn push_written_blocks(
    alloc: Global,
    types: &Types<'_>,
    all: &mut Items<Block>,
    plan: &Plan,
    first: ValueId,
    blocks: &[Block],
) -> Result<ValueId, AllocError>
    ensures blocks { OnOk result (all.new ≡ all.old ++ written_blocks types.now.sizes.now.names.now.source.now plan.now first blocks.now) }
    ensures next { IfOk result (λ n. n ≡ after_blocks types.now.sizes.now.names.now.source.now plan.now first blocks.now) }
{
    let mut next = first;
    for block in blocks {
        let (block, after) = written_block(alloc, types, plan, Items::new(alloc), next, block)?;
        all.push(block)?;
        next = after;
    }
    Ok(next)
}

/// The blocks, the first one behind what stands at the front of the function, and the next new name.
pub fn written_blocks(
    alloc: Global,
    types: &Types<'_>,
    plan: &Plan,
    front: Items<Instr>,
    first: ValueId,
    blocks: &[Block],
) -> Result<(Items<Block>, ValueId), AllocError>
    ensures blocks { IfOk result (λ x. x.0 ≡ entry_blocks types.now.sizes.now.names.now.source.now plan.now front first blocks.now) }
    ensures next { IfOk result (λ x. x.1 ≡ after_blocks types.now.sizes.now.names.now.source.now plan.now first blocks.now) }
{
    let mut all = Items::new(alloc);
    match blocks {
        [] => Ok((all, first)),
        [block, others @ ..] => {
            let (block, next) = written_block(alloc, types, plan, front, first, block)?;
            all.push(block)?;
            let next = push_written_blocks(alloc, types, &mut all, plan, next, others)?;
            Ok((all, next))
        }
    }
}

// ---- the front of the function

fn push_distance_alloca(
    alloc: Global,
    all: &mut Items<Instr>,
    value: &KeptValue,
) -> Result<(), AllocError>
    ensures { OnOk result (all.new ≡ all.old ++ distance_allocas value.now) }
{
    match value.slot {
        None => Ok(()),
        Some(_) => {
            all.push(cell_alloca(alloc, value.field_cell, &value.field_ty)?)?;
            Ok(())
        }
    }
}

fn push_kept_allocas(
    alloc: Global,
    all: &mut Items<Instr>,
    kept: &[KeptValue],
) -> Result<(), AllocError>
    ensures { OnOk result (all.new ≡ all.old ++ kept_allocas kept.now) }
{
    for value in kept {
        all.push(cell_alloca(alloc, value.cell, &value.ty)?)?;
        all.push(cell_alloca(alloc, value.field, &value.field_ty)?)?;
        push_distance_alloca(alloc, all, value)?;
    }
    Ok(())
}

#[tactic(auto, using(crate::proofs::Numbered::link_allocas_step))]
fn link_allocas(
    alloc: Global,
    first: ValueId,
    count: usize,
    links: usize,
) -> Result<Items<Instr>, AllocError>
    ensures { IfOk result (λ x. x ≡ link_allocas first count links) }
{
    let mut all = Items::new(alloc);
    for number in 0..links {
        let id = link_name(first, count, number)?;
        all.push(cell_alloca(alloc, id, &IrType::int(IntWidth::I64))?)?;
    }
    Ok(all)
}

fn push_link_allocas(alloc: Global, all: &mut Items<Instr>, plan: &Plan) -> Result<(), AllocError>
    ensures { OnOk result (all.new ≡ all.old ++ link_allocas plan.now.first (length plan.now.kept) plan.now.links) }
{
    let more = link_allocas(alloc, plan.first, plan.kept.len(), plan.links)?;
    for instr in more.into_vec() {
        all.push(instr)?;
    }
    Ok(())
}

fn push_stored_params(
    alloc: Global,
    all: &mut Items<Instr>,
    plan: &Plan,
    params: &[Param],
) -> Result<(), AllocError>
    ensures { OnOk result (all.new ≡ all.old ++ stored_params plan.now params.now) }
{
    for param in params {
        push_stored(alloc, all, plan, param.name)?;
    }
    Ok(())
}

/// The allocas of cells and fields, and the parameters' stores.
pub fn entry_front(alloc: Global, plan: &Plan, params: &[Param]) -> Result<Items<Instr>, AllocError>
    ensures { IfOk result (λ x. x ≡ entry_front plan.now params.now) }
{
    let mut all = Items::new(alloc);
    push_kept_allocas(alloc, &mut all, plan.kept.as_slice())?;
    push_link_allocas(alloc, &mut all, plan)?;
    push_stored_params(alloc, &mut all, plan, params)?;
    Ok(all)
}
