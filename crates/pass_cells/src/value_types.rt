//! The types of the values that are kept.

ghost use Rattle.std.specs.Prelude.{◌≡◌, IfOk, OnOk, replicate};
ghost use Rattle.ir_model.specs.Ty.{ptr};
ghost use Rattle.pass_cells.specs.Kept.{answer_type, result_type, with_type, with_param_types, with_phi_types, with_result_type, with_result_types, with_block_types, value_types};

use crate::keeping::Keeping;
use crate::tables::entry;
use ir_base::{Data, Items, ValueId};
use ir_model::{Block, Function, Instr, IntWidth, IrType, Param, Phi};
use ir_parts::result_of;
use std::alloc::{AllocError, Global};

fn answer_type(alloc: Global, ty: &Option<IrType>) -> Result<IrType, AllocError>
    ensures { IfOk result (λ t. t ≡ answer_type ty.now) }
{
    match ty {
        None => Ok(IrType::pointer()),
        Some(ty) => ty.copied(alloc),
    }
}

/// The type of an instruction's result.
fn result_type(alloc: Global, instr: &Instr) -> Result<IrType, AllocError>
    ensures { IfOk result (λ t. t ≡ result_type instr.now) }
{
    match instr {
        Instr::Binary { ty, .. } => ty.copied(alloc),
        Instr::Icmp { .. } => Ok(IrType::int(IntWidth::I1)),
        Instr::Select { yes, .. } => yes.ty.copied(alloc),
        Instr::Cast { to, .. } => to.copied(alloc),
        Instr::Alloca { .. } => Ok(IrType::pointer()),
        Instr::Load { ty, .. } => ty.copied(alloc),
        Instr::Store { .. } => Ok(IrType::pointer()),
        Instr::Gep { .. } => Ok(IrType::pointer()),
        Instr::Call { ty, .. } => answer_type(alloc, ty),
    }
}

fn set_type(
    alloc: Global,
    types: &mut Items<IrType>,
    place: Option<usize>,
    ty: &IrType,
) -> Result<(), AllocError>
    ensures { OnOk result (types.new ≡ with_type types.old place ty.now) }
{
    if let Some(place) = place {
        types.set(place, ty.copied(alloc)?);
    }
    Ok(())
}

fn set_param_types(
    alloc: Global,
    types: &mut Items<IrType>,
    places: &Items<Option<usize>>,
    params: &[Param],
) -> Result<(), AllocError>
    ensures { OnOk result (types.new ≡ with_param_types places.now types.old params.now) }
{
    for param in params {
        set_type(alloc, types, entry(places, param.name), &param.ty)?;
    }
    Ok(())
}

fn set_phi_types(
    alloc: Global,
    types: &mut Items<IrType>,
    places: &Items<Option<usize>>,
    phis: &[Phi],
) -> Result<(), AllocError>
    ensures { OnOk result (types.new ≡ with_phi_types places.now types.old phis.now) }
{
    for phi in phis {
        set_type(alloc, types, entry(places, phi.result), &phi.ty)?;
    }
    Ok(())
}

fn set_result_type(
    alloc: Global,
    types: &mut Items<IrType>,
    places: &Items<Option<usize>>,
    name: Option<ValueId>,
    instr: &Instr,
) -> Result<(), AllocError>
    ensures { OnOk result (types.new ≡ with_result_type places.now types.old name instr.now) }
{
    match name {
        None => Ok(()),
        Some(id) => {
            let ty = result_type(alloc, instr)?;
            set_type(alloc, types, entry(places, id), &ty)
        }
    }
}

fn set_result_types(
    alloc: Global,
    types: &mut Items<IrType>,
    places: &Items<Option<usize>>,
    instrs: &[Instr],
) -> Result<(), AllocError>
    ensures { OnOk result (types.new ≡ with_result_types places.now types.old instrs.now) }
{
    for instr in instrs {
        set_result_type(alloc, types, places, result_of(instr), instr)?;
    }
    Ok(())
}

fn set_block_types(
    alloc: Global,
    types: &mut Items<IrType>,
    places: &Items<Option<usize>>,
    blocks: &[Block],
) -> Result<(), AllocError>
    ensures { OnOk result (types.new ≡ with_block_types places.now types.old blocks.now) }
{
    for block in blocks {
        set_phi_types(alloc, types, places, block.phis.as_slice())?;
        set_result_types(alloc, types, places, block.instrs.as_slice())?;
    }
    Ok(())
}

fn pointers(alloc: Global, count: usize) -> Result<Items<IrType>, AllocError>
    ensures { IfOk result (λ x. x ≡ replicate count ptr) }
{
    let mut all = Items::new(alloc);
    for _ in 0..count {
        all.push(IrType::pointer())?;
    }
    Ok(all)
}

/// The types of the values that are kept, in order.
pub fn value_types(
    alloc: Global,
    function: &Function,
    keeping: &Keeping,
) -> Result<Items<IrType>, AllocError>
    ensures { IfOk result (λ x. x ≡ value_types function.now keeping.now) }
{
    let mut types = pointers(alloc, keeping.values.len())?;
    set_param_types(
        alloc,
        &mut types,
        &keeping.places,
        function.params.as_slice(),
    )?;
    set_block_types(
        alloc,
        &mut types,
        &keeping.places,
        function.blocks.as_slice(),
    )?;
    Ok(types)
}
