//! The blocks of a generated coroutine up to its beginning.

ghost use Rattle.std.specs.Prelude.{◌≡◌, ◌++◌, IfOk, OnOk};
ghost use Rattle.cli_gen.specs.Suspending.{asking_entry, begin_call, dyn_block, entry_blocks, id_call, malloc_call, memory_phi, need_call, plain_entry, size_call, slot_alloca, slot_allocas, start_block};

use crate::coroutine::Coroutine;
use crate::pieces::{block_of, call, intrinsic_call, number_arg, pointer_arg, token_arg};
use crate::places::{ENTRY, slot};
use ir_base::{Items, ValueId};
use ir_model::{
    Allocator, Arg, Block, Callee, Incoming, Instr, IntWidth, Intrinsic, IrType, Operand, Phi,
    Terminator,
};
use std::alloc::{AllocError, Global};

fn slot_alloca(alloc: Global, j: u8) -> Result<Instr, AllocError>
    ensures { IfOk result (λ i. i ≡ slot_alloca j) }
{
    Ok(Instr::Alloca {
        result: slot(j),
        ty: IrType::array(alloc, 3, IrType::int(IntWidth::I64))?,
        align: 8,
    })
}

#[tactic(auto, using(crate::proofs::Each::each_step))]
fn slot_allocas(alloc: Global, coroutine: Coroutine) -> Result<Items<Instr>, AllocError>
    ensures { IfOk result (λ x. x ≡ slot_allocas coroutine) }
{
    let mut all = Items::new(alloc);
    for j in 0..coroutine.suspends {
        all.push(slot_alloca(alloc, j)?)?;
    }
    Ok(all)
}

fn id_call(alloc: Global, coroutine: Coroutine) -> Result<Instr, AllocError>
    ensures { IfOk result (λ i. i ≡ id_call coroutine) }
{
    let args = vec![in alloc;
        number_arg(IntWidth::I32, 0),
        pointer_arg(Operand::Null),
        pointer_arg(Operand::Null),
        pointer_arg(Operand::Null),
    ]?;
    intrinsic_call(
        alloc,
        Some(coroutine.id_value()),
        Some(IrType::token()),
        Intrinsic::CoroId,
        args,
    )
}

fn need_call(alloc: Global, coroutine: Coroutine) -> Result<Instr, AllocError>
    ensures { IfOk result (λ i. i ≡ need_call coroutine) }
{
    let args = vec![in alloc; token_arg(Operand::Local(coroutine.id_value()))]?;
    intrinsic_call(
        alloc,
        Some(coroutine.need_value()),
        Some(IrType::int(IntWidth::I1)),
        Intrinsic::CoroAlloc,
        args,
    )
}

fn size_call(alloc: Global, coroutine: Coroutine) -> Result<Instr, AllocError>
    ensures { IfOk result (λ i. i ≡ size_call coroutine) }
{
    intrinsic_call(
        alloc,
        Some(coroutine.size_value()),
        Some(IrType::int(IntWidth::I64)),
        Intrinsic::CoroSizeI64,
        Vec::new(alloc),
    )
}

fn malloc_call(alloc: Global, coroutine: Coroutine) -> Result<Instr, AllocError>
    ensures { IfOk result (λ i. i ≡ malloc_call coroutine) }
{
    let size = Arg {
        ty: IrType::int(IntWidth::I64),
        value: Operand::Local(coroutine.size_value()),
    };
    call(
        alloc,
        Some(coroutine.block_value()),
        Some(IrType::pointer()),
        Callee::Allocator(Allocator::Malloc),
        vec![in alloc; size]?,
    )
}

fn begin_call(alloc: Global, coroutine: Coroutine, memory: ValueId) -> Result<Instr, AllocError>
    ensures { IfOk result (λ i. i ≡ begin_call coroutine memory) }
{
    let args = vec![in alloc;
        token_arg(Operand::Local(coroutine.id_value())),
        pointer_arg(Operand::Local(memory)),
    ]?;
    intrinsic_call(
        alloc,
        Some(coroutine.begin_value()),
        Some(IrType::pointer()),
        Intrinsic::CoroBegin,
        args,
    )
}

fn memory_phi(alloc: Global, coroutine: Coroutine) -> Result<Phi, AllocError>
    ensures { IfOk result (λ p. p ≡ memory_phi coroutine) }
{
    let incoming = vec![in alloc;
        Incoming {
            value: Operand::Null,
            from: ENTRY,
        },
        Incoming {
            value: Operand::Local(coroutine.block_value()),
            from: coroutine.dyn_label(),
        },
    ]?;
    Ok(Phi {
        result: coroutine.memory_value(),
        ty: IrType::pointer(),
        incoming: Items::from_vec(incoming),
    })
}

/// The entry of an even coroutine, which asks whether memory is needed.
fn asking_entry(alloc: Global, coroutine: Coroutine) -> Result<Block, AllocError>
    ensures { IfOk result (λ b. b ≡ asking_entry coroutine) }
{
    let mut instrs = slot_allocas(alloc, coroutine)?;
    instrs.push(id_call(alloc, coroutine)?)?;
    instrs.push(need_call(alloc, coroutine)?)?;
    let term = Terminator::Branch {
        cond: Operand::Local(coroutine.need_value()),
        yes: coroutine.dyn_label(),
        no: coroutine.start_label(),
    };
    Ok(block_of(alloc, ENTRY, instrs, term))
}

fn dyn_block(alloc: Global, coroutine: Coroutine) -> Result<Block, AllocError>
    ensures { IfOk result (λ b. b ≡ dyn_block coroutine) }
{
    let mut instrs = Items::new(alloc);
    instrs.push(size_call(alloc, coroutine)?)?;
    instrs.push(malloc_call(alloc, coroutine)?)?;
    Ok(block_of(
        alloc,
        coroutine.dyn_label(),
        instrs,
        Terminator::Jump(coroutine.start_label()),
    ))
}

fn start_block(alloc: Global, coroutine: Coroutine) -> Result<Block, AllocError>
    ensures { IfOk result (λ b. b ≡ start_block coroutine) }
{
    let mut phis = Items::new(alloc);
    phis.push(memory_phi(alloc, coroutine)?)?;
    let mut instrs = Items::new(alloc);
    instrs.push(begin_call(alloc, coroutine, coroutine.memory_value())?)?;
    Ok(Block {
        label: coroutine.start_label(),
        phis,
        instrs,
        term: Terminator::Jump(coroutine.first_label()),
    })
}

/// The entry of an odd coroutine.
fn plain_entry(alloc: Global, coroutine: Coroutine) -> Result<Block, AllocError>
    ensures { IfOk result (λ b. b ≡ plain_entry coroutine) }
{
    let mut instrs = slot_allocas(alloc, coroutine)?;
    instrs.push(id_call(alloc, coroutine)?)?;
    instrs.push(size_call(alloc, coroutine)?)?;
    instrs.push(malloc_call(alloc, coroutine)?)?;
    instrs.push(begin_call(alloc, coroutine, coroutine.block_value())?)?;
    Ok(block_of(
        alloc,
        ENTRY,
        instrs,
        Terminator::Jump(coroutine.first_label()),
    ))
}

/// The blocks up to the first with a suspend.
pub fn entry_blocks(alloc: Global, coroutine: Coroutine) -> Result<Items<Block>, AllocError>
    ensures { IfOk result (λ x. x ≡ entry_blocks coroutine) }
{
    let mut blocks = Items::new(alloc);
    if coroutine.is_even() {
        blocks.push(asking_entry(alloc, coroutine)?)?;
        blocks.push(dyn_block(alloc, coroutine)?)?;
        blocks.push(start_block(alloc, coroutine)?)?;
    } else {
        blocks.push(plain_entry(alloc, coroutine)?)?;
    }
    Ok(blocks)
}
