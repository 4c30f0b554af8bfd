//! The slots that are used before begin, with their temporaries and the cells of their addresses.

ghost use Rattle.std.specs.Prelude.{◌≡◌, ◌++◌, IfOk, OnOk, None, length, replicate};
ghost use Rattle.pass_copies.specs.Slots.{early_slot, slot_of, after_slot, slots_from, entry_instrs, early_slots, set_fetches, fetches_of, set_resumed, resumed_at};

use crate::slot::EarlySlot;
use crate::uses::flag_at;
use ir_base::{Data, Items, ValueId};
use ir_model::{Block, Function, Instr, IrType};
use pass_fetch::Fetch;
use pass_intrinsics::{SuspendPoint, later, suspends_of};
use std::alloc::{AllocError, Global};

fn early_slot(
    alloc: Global,
    sizes: &[u64],
    next: ValueId,
    slot: ValueId,
    ty: &IrType,
    align: u64,
) -> Result<EarlySlot, AllocError>
    ensures { IfOk result (λ s. s ≡ early_slot sizes.now next slot ty.now align) }
{
    let size = match sizes.get(slot) {
        None => 0,
        Some(size) => *size,
    };
    Ok(EarlySlot {
        slot,
        ty: ty.copied(alloc)?,
        align,
        size,
        temporary: next,
        cell: later(next, 1)?,
    })
}

/// Adds the slot of an alloca that is used before begin.
fn push_slot(
    alloc: Global,
    all: &mut Items<EarlySlot>,
    used: &[bool],
    sizes: &[u64],
    next: ValueId,
    instr: &Instr,
) -> Result<(), AllocError>
    ensures { OnOk result (all.new ≡ all.old ++ slot_of used.now sizes.now next instr.now) }
{
    match instr {
        Instr::Alloca { result, ty, align } => {
            if flag_at(used, *result) {
                all.push(early_slot(alloc, sizes, next, *result, ty, *align)?)?;
            }
            Ok(())
        }
        _ => Ok(()),
    }
}

fn after_slot(used: &[bool], next: ValueId, instr: &Instr) -> Result<ValueId, AllocError>
    ensures { IfOk result (λ n. n ≡ after_slot used.now next instr.now) }
{
    match instr {
        Instr::Alloca { result, .. } => {
            if flag_at(used, *result) {
                later(next, 2)
            } else {
                Ok(next)
            }
        }
        _ => Ok(next),
    }
}

fn slots_from(
    alloc: Global,
    used: &[bool],
    sizes: &[u64],
    first: ValueId,
    instrs: &[Instr],
) -> Result<Items<EarlySlot>, AllocError>
    ensures { IfOk result (λ x. x ≡ slots_from used.now sizes.now first instrs.now) }
{
    let mut all = Items::new(alloc);
    let mut next = first;
    for instr in instrs {
        push_slot(alloc, &mut all, used, sizes, next, instr)?;
        next = after_slot(used, next, instr)?;
    }
    Ok(all)
}

fn entry_instrs(blocks: &[Block]) -> &[Instr]
    ensures { result.now ≡ entry_instrs blocks.now }
{
    match blocks {
        [] => &[],
        [entry, ..] => entry.instrs.as_slice(),
    }
}

/// The slots that are used before begin, in order of their allocas.
pub fn early_slots(
    alloc: Global,
    function: &Function,
    used: &[bool],
    sizes: &[u64],
) -> Result<Items<EarlySlot>, AllocError>
    ensures { IfOk result (λ x. x ≡ early_slots function.now used.now sizes.now) }
{
    let first = function.names.len();
    slots_from(
        alloc,
        used,
        sizes,
        first,
        entry_instrs(function.blocks.as_slice()),
    )
}

fn no_fetches(alloc: Global, count: usize) -> Result<Items<Option<Fetch>>, AllocError>
    ensures { IfOk result (λ x. x ≡ replicate count None) }
{
    let mut table = Items::new(alloc);
    for _at in 0..count {
        table.push(None)?;
    }
    Ok(table)
}

fn set_fetches(table: &mut Items<Option<Fetch>>, slots: &[EarlySlot])
    ensures { table.new ≡ set_fetches table.old slots.now }
{
    for slot in slots {
        table.set(
            slot.slot,
            Some(Fetch::Load {
                ty: IrType::pointer(),
                cell: slot.cell,
            }),
        );
    }
}

/// For each name how it is fetched at a point before begin: a slot's address is loaded from its cell.
pub fn fetches_of(
    alloc: Global,
    function: &Function,
    slots: &[EarlySlot],
) -> Result<Items<Option<Fetch>>, AllocError>
    ensures { IfOk result (λ x. x ≡ fetches_of function.now slots.now) }
{
    let mut table = no_fetches(alloc, function.names.len())?;
    set_fetches(&mut table, slots);
    Ok(table)
}

fn set_resumed(flags: &mut Items<bool>, suspends: &[SuspendPoint])
    ensures { flags.new ≡ set_resumed flags.old suspends.now }
{
    for point in suspends {
        flags.set(point.resume, true);
        flags.set(point.destroy, true);
    }
}

/// For each label whether a suspend's resume or destroy edge leads to it.
pub fn resumed_at(alloc: Global, function: &Function) -> Result<Items<bool>, AllocError>
    ensures { IfOk result (λ x. x ≡ resumed_at function.now) }
{
    let suspends = suspends_of(alloc, function)?;
    let count = function.names.len();
    let mut flags = Items::from_vec(Vec::from_elem(alloc, false, count)?);
    set_resumed(&mut flags, suspends.as_slice());
    Ok(flags)
}
