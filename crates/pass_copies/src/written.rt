//! What is written for slots that are used before begin.

ghost use Rattle.std.specs.Prelude.{◌≡◌, ◌++◌, IfOk, OnOk, map};
ghost use Rattle.pass_copies.specs.BeginCopies.{put, slot_allocas, entry_front, puts, copy_args, copy, begin_copies};

use crate::slot::EarlySlot;
use ir_base::{Data, Items, Short, ValueId};
use ir_model::{Arg, Callee, Instr, IntWidth, Intrinsic, IrType, Operand};
use pass_intrinsics::{number_arg, pointer_arg};
use std::alloc::{AllocError, Global};

/// An address is put into a cell.
fn put(address: ValueId, cell: ValueId) -> Instr
    ensures { result ≡ put address cell }
{
    Instr::Store {
        arg: pointer_arg(Operand::Local(address)),
        address: Operand::Local(cell),
        align: 8,
    }
}

fn push_allocas(
    alloc: Global,
    all: &mut Items<Instr>,
    slots: &[EarlySlot],
) -> Result<(), AllocError>
    ensures { OnOk result (all.new ≡ all.old ++ slot_allocas slots.now) }
{
    for slot in slots {
        all.push(Instr::Alloca {
            result: slot.temporary,
            ty: slot.ty.copied(alloc)?,
            align: slot.align,
        })?;
        all.push(Instr::Alloca {
            result: slot.cell,
            ty: IrType::pointer(),
            align: 8,
        })?;
    }
    Ok(())
}

fn push_first_puts(all: &mut Items<Instr>, slots: &[EarlySlot]) -> Result<(), AllocError>
    ensures { OnOk result (all.new ≡ all.old ++ map (λ s. put s.temporary s.cell) slots.now) }
{
    for slot in slots {
        all.push(put(slot.temporary, slot.cell))?;
    }
    Ok(())
}

/// What stands at the front of the entry block: the cells have the temporaries' addresses.
pub fn entry_front(alloc: Global, slots: &[EarlySlot]) -> Result<Items<Instr>, AllocError>
    ensures { IfOk result (λ x. x ≡ entry_front slots.now) }
{
    let mut all = Items::new(alloc);
    push_allocas(alloc, &mut all, slots)?;
    push_first_puts(&mut all, slots)?;
    Ok(all)
}

/// Adds what gives the cells the slots' addresses.
pub fn push_puts(all: &mut Items<Instr>, slots: &[EarlySlot]) -> Result<(), AllocError>
    ensures { OnOk result (all.new ≡ all.old ++ puts slots.now) }
{
    for slot in slots {
        all.push(put(slot.slot, slot.cell))?;
    }
    Ok(())
}

fn copy_args(alloc: Global, slot: &EarlySlot) -> Result<Short<Arg>, AllocError>
    ensures { IfOk result (λ x. x ≡ copy_args slot.now) }
{
    let mut args = Short::new(alloc);
    args.push(pointer_arg(Operand::Local(slot.slot)))?;
    args.push(pointer_arg(Operand::Local(slot.temporary)))?;
    args.push(number_arg(IntWidth::I64, i128::from(slot.size)))?;
    args.push(Arg {
        ty: IrType::int(IntWidth::I1),
        value: Operand::False,
    })?;
    Ok(args)
}

/// The bytes of a slot's temporary are copied into it.
fn copy(alloc: Global, slot: &EarlySlot) -> Result<Instr, AllocError>
    ensures { IfOk result (λ x. x ≡ copy slot.now) }
{
    Ok(Instr::Call {
        result: None,
        must_tail: false,
        ty: None,
        callee: Callee::Intrinsic(Intrinsic::MemcpyI64),
        args: copy_args(alloc, slot)?,
    })
}

/// Adds what stands behind begin.
pub fn push_begin_copies(
    alloc: Global,
    all: &mut Items<Instr>,
    slots: &[EarlySlot],
) -> Result<(), AllocError>
    ensures { OnOk result (all.new ≡ all.old ++ begin_copies slots.now) }
{
    for slot in slots {
        all.push(copy(alloc, slot)?)?;
        all.push(put(slot.slot, slot.cell))?;
    }
    Ok(())
}
