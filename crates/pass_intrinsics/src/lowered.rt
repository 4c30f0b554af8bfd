//! What stands in the place of each coro intrinsic.

ghost use Rattle.std.specs.Prelude.{◌≡◌, ◌+◌, ◌*◌, IfOk, OnOk, [], ◌∷◌, ◌++◌, slice_get};
ghost use Rattle.ir_model.specs.TypeView.{bits_of};
ghost use Rattle.pass_intrinsics.specs.Shapes.{index_bytes, is_true};
ghost use Rattle.pass_intrinsics.specs.Lowered.{operand_at, set_address, allocates, begin_memory, destroyed_by, freed_by, begin_stores, resumed_by, is_final_at, save_stores, resume_call, destroy_call, done_test, promise_distance, number_of_save, save_or_none, lowered_call, lowered, names_for, names_taken};

use crate::shape::{Part, Shape};
use crate::small::{
    address, call_pointer, later, load_pointer, number_arg, operand_at, push_address, push_number,
    push_truth, store_pointer,
};
use ir_base::{Data, Items, Name, Pred, SuspendId, ValueId};
use ir_model::{Arg, Callee, Instr, IntWidth, Intrinsic, IrType, Operand};
use std::alloc::{AllocError, Global};

/// The size in bytes of an index, which is also its alignment.
pub fn index_bytes(width: IntWidth) -> u64
    ensures { result ≡ index_bytes width }
{
    match width {
        IntWidth::I16 => 2,
        _ => 1,
    }
}

/// Whether an operand is the constant true of type i1.
pub fn is_true(operand: &Operand) -> bool
    ensures { result ≡ is_true operand.now }
{
    match operand {
        Operand::True => true,
        Operand::Number(n) => *n == 1 || *n == -1,
        _ => false,
    }
}

/// Whether `llvm.coro.alloc` is true in a part.
fn allocates(part: Part) -> bool
    ensures { result ≡ allocates part }
{
    match part {
        Part::GivenRamp => false,
        Part::Ramp | Part::Resume | Part::Destroy | Part::Cleanup => true,
    }
}

/// The memory of begin.
fn begin_memory(
    alloc: Global,
    shape: &Shape,
    part: Part,
    args: &[Arg],
) -> Result<Operand, AllocError>
    ensures { IfOk result (λ x. x ≡ begin_memory shape.now part args.now) }
{
    match part {
        Part::GivenRamp => Ok(Operand::Local(shape.given_name()?)),
        Part::Ramp | Part::Resume | Part::Destroy | Part::Cleanup => operand_at(alloc, args, 1),
    }
}

/// The function that a destroy calls.
fn destroyed_by(shape: &Shape, part: Part) -> &Name
    ensures { result.now ≡ destroyed_by shape.now part }
{
    match part {
        Part::GivenRamp => &shape.cleanup_name,
        Part::Ramp | Part::Resume | Part::Destroy | Part::Cleanup => &shape.destroy_name,
    }
}

/// What `llvm.coro.free` gives.
fn freed_by(shape: &Shape, part: Part) -> Operand
    ensures { result ≡ freed_by shape.now part }
{
    match part {
        Part::GivenRamp | Part::Cleanup => Operand::Null,
        Part::Ramp | Part::Resume | Part::Destroy => Operand::Local(shape.begin),
    }
}

fn push_begin(
    alloc: Global,
    all: &mut Items<Instr>,
    shape: &Shape,
    part: Part,
    next: ValueId,
    block: Operand,
) -> Result<(), AllocError>
    ensures { OnOk result (all.new ≡ all.old ++ begin_stores shape.now part next block) }
{
    let frame = shape.begin;
    let resume = Operand::Global(shape.resume_name.copied(alloc)?);
    let destroy = Operand::Global(destroyed_by(shape, part).copied(alloc)?);
    all.push(address(alloc, frame, block, 0)?)?;
    all.push(store_pointer(resume, Operand::Local(frame)))?;
    all.push(address(alloc, next, Operand::Local(frame), 8)?)?;
    all.push(store_pointer(destroy, Operand::Local(next)))?;
    Ok(())
}

fn resumed_by(alloc: Global, shape: &Shape, is_final: bool) -> Result<Operand, AllocError>
    ensures { IfOk result (λ x. x ≡ resumed_by shape.now is_final) }
{
    if is_final {
        Ok(Operand::Null)
    } else {
        Ok(Operand::Global(shape.resume_name.copied(alloc)?))
    }
}

fn is_final_at(shape: &Shape, suspend: SuspendId) -> bool
    ensures { result ≡ is_final_at (slice_get shape.now.suspends suspend) }
{
    match shape.suspends.get(suspend) {
        None => false,
        Some(point) => point.is_final,
    }
}

fn push_save(
    alloc: Global,
    all: &mut Items<Instr>,
    shape: &Shape,
    next: ValueId,
    suspend: SuspendId,
) -> Result<(), AllocError>
    ensures { OnOk result (all.new ≡ all.old ++ save_stores shape.now next suspend) }
{
    let resumed = resumed_by(alloc, shape, is_final_at(shape, suspend))?;
    let frame = shape.begin;
    let number = i128::from(suspend as u64);
    all.push(address(alloc, next, Operand::Local(frame), i128::from(shape.index))?)?;
    all.push(Instr::Store {
        arg: number_arg(shape.width, number),
        address: Operand::Local(next),
        align: index_bytes(shape.width),
    })?;
    all.push(store_pointer(resumed, Operand::Local(frame)))?;
    Ok(())
}

fn push_resume(
    alloc: Global,
    all: &mut Items<Instr>,
    next: ValueId,
    args: &[Arg],
) -> Result<(), AllocError>
    ensures { OnOk result (all.new ≡ all.old ++ resume_call next (operand_at args.now 0)) }
{
    all.push(load_pointer(next, operand_at(alloc, args, 0)?))?;
    all.push(call_pointer(alloc, next, operand_at(alloc, args, 0)?)?)?;
    Ok(())
}

fn push_destroy(
    alloc: Global,
    all: &mut Items<Instr>,
    next: ValueId,
    args: &[Arg],
) -> Result<(), AllocError>
    ensures { OnOk result (all.new ≡ all.old ++ destroy_call next (operand_at args.now 0)) }
{
    let function = later(next, 1)?;
    all.push(address(alloc, next, operand_at(alloc, args, 0)?, 8)?)?;
    all.push(load_pointer(function, Operand::Local(next)))?;
    all.push(call_pointer(alloc, function, operand_at(alloc, args, 0)?)?)?;
    Ok(())
}

fn push_done(
    alloc: Global,
    all: &mut Items<Instr>,
    next: ValueId,
    name: Option<ValueId>,
    args: &[Arg],
) -> Result<(), AllocError>
    ensures { OnOk result (all.new ≡ all.old ++ done_test next name (operand_at args.now 0)) }
{
    if let Some(id) = name {
        all.push(load_pointer(next, operand_at(alloc, args, 0)?))?;
        all.push(Instr::Icmp {
            result: id,
            pred: Pred::Eq,
            ty: IrType::pointer(),
            left: Operand::Local(next),
            right: Operand::Null,
        })?;
    }
    Ok(())
}

fn promise_distance(leads_back: bool) -> i128
    ensures { result ≡ promise_distance leads_back }
{
    if leads_back { -16 } else { 16 }
}

/// The suspend of a save.
pub fn number_of_save(shape: &Shape, save: Option<ValueId>) -> Option<SuspendId>
    ensures { result ≡ number_of_save shape.now save }
{
    match save {
        None => None,
        Some(id) => match shape.saves.get(id) {
            None => None,
            Some(number) => *number,
        },
    }
}

fn push_save_or_none(
    alloc: Global,
    all: &mut Items<Instr>,
    shape: &Shape,
    next: ValueId,
    number: Option<SuspendId>,
) -> Result<(), AllocError>
    ensures { OnOk result (all.new ≡ all.old ++ save_or_none shape.now next number) }
{
    match number {
        None => Ok(()),
        Some(suspend) => push_save(alloc, all, shape, next, suspend),
    }
}

fn push_promise(
    alloc: Global,
    all: &mut Items<Instr>,
    name: Option<ValueId>,
    args: &[Arg],
) -> Result<(), AllocError>
    ensures { OnOk result (all.new ≡ all.old ++ set_address name (operand_at args.now 0) (promise_distance (is_true (operand_at args.now 2)))) }
{
    let base = operand_at(alloc, args, 0)?;
    let leads_back = is_true(&operand_at(alloc, args, 2)?);
    push_address(alloc, all, name, base, promise_distance(leads_back))
}

fn push_call(
    alloc: Global,
    all: &mut Items<Instr>,
    shape: &Shape,
    part: Part,
    next: ValueId,
    instr: &Instr,
    intrinsic: Intrinsic,
    name: Option<ValueId>,
    args: &[Arg],
) -> Result<(), AllocError>
    ensures { OnOk result (all.new ≡ all.old ++ lowered_call shape.now part next instr.now intrinsic name args.now) }
{
    match intrinsic {
        Intrinsic::CoroSizeI32 => push_number(all, name, IntWidth::I32, shape.size),
        Intrinsic::CoroSizeI64 => push_number(all, name, IntWidth::I64, shape.size),
        Intrinsic::CoroAlignI32 => push_number(all, name, IntWidth::I32, shape.align),
        Intrinsic::CoroAlignI64 => push_number(all, name, IntWidth::I64, shape.align),
        Intrinsic::CoroAlloc => push_truth(all, name, allocates(part)),
        Intrinsic::CoroBegin => {
            let block = begin_memory(alloc, shape, part, args)?;
            push_begin(alloc, all, shape, part, next, block)
        }
        Intrinsic::CoroFree => push_address(alloc, all, name, freed_by(shape, part), 0),
        Intrinsic::CoroFrame => push_address(alloc, all, name, Operand::Local(shape.begin), 0),
        Intrinsic::CoroSave => {
            push_save_or_none(alloc, all, shape, next, number_of_save(shape, name))
        }
        Intrinsic::CoroSuspend => Ok(()),
        Intrinsic::CoroEnd => push_truth(all, name, false),
        Intrinsic::CoroResume => push_resume(alloc, all, next, args),
        Intrinsic::CoroDestroy => push_destroy(alloc, all, next, args),
        Intrinsic::CoroDone => push_done(alloc, all, next, name, args),
        Intrinsic::CoroPromise => push_promise(alloc, all, name, args),
        Intrinsic::CoroId
        | Intrinsic::LifetimeStart
        | Intrinsic::LifetimeEnd
        | Intrinsic::MemcpyI64
        | Intrinsic::MemcpyI32 => push_copy(alloc, all, instr),
    }
}

fn push_copy(alloc: Global, all: &mut Items<Instr>, instr: &Instr) -> Result<(), AllocError>
    ensures { OnOk result (all.new ≡ all.old ++ instr.now ∷ []) }
{
    all.push(instr.copied(alloc)?)?;
    Ok(())
}

/// Adds what stands in the place of an instruction in a part; `next` is the next new name.
pub fn push_lowered(
    alloc: Global,
    all: &mut Items<Instr>,
    shape: &Shape,
    part: Part,
    next: ValueId,
    instr: &Instr,
) -> Result<(), AllocError>
    ensures { OnOk result (all.new ≡ all.old ++ lowered shape.now part next instr.now) }
{
    match instr {
        Instr::Call {
            result: name,
            must_tail: _,
            ty: _,
            callee: Callee::Intrinsic(intrinsic),
            args,
        } => push_call(
            alloc,
            all,
            shape,
            part,
            next,
            instr,
            *intrinsic,
            *name,
            args.as_slice(),
        ),
        _ => push_copy(alloc, all, instr),
    }
}

fn names_for(intrinsic: Intrinsic) -> usize
    ensures { result ≡ names_for intrinsic }
{
    match intrinsic {
        Intrinsic::CoroBegin => 1,
        Intrinsic::CoroSave => 1,
        Intrinsic::CoroResume => 1,
        Intrinsic::CoroDestroy => 2,
        Intrinsic::CoroDone => 1,
        _ => 0,
    }
}

/// How many new names the instruction takes.
pub fn names_taken(instr: &Instr) -> usize
    ensures { result ≡ names_taken instr.now }
{
    match instr {
        Instr::Call {
            result: _,
            must_tail: _,
            ty: _,
            callee: Callee::Intrinsic(intrinsic),
            args: _,
        } => names_for(*intrinsic),
        _ => 0,
    }
}
