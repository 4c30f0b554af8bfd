//! Calls that give their callees a frame.

ghost use Rattle.std.specs.Prelude.{◌≡◌, ◌++◌, ◌∷◌, [], ◌+◌, IfOk, OnOk, Some, length};
ghost use Rattle.ir_model.specs.Names.{noalloc_of};
ghost use Rattle.ir_model.specs.Ty.{array, int, ptr};
ghost use Rattle.ir_model.specs.declared.operand.Operand.{Operand as TheOperand};
ghost use Rattle.pass_elide.specs.Elided.{elided_by, given_call, frame_address, frame_alloca, frame_allocas};
ghost use Rattle.pass_elide.specs.Elided.{frames_by};

use crate::given::GivenFrame;
use ir_base::{Data, Items, Short, ValueId};
use ir_model::{Arg, Callee, Instr, IntWidth, IrType, Operand};
use pass_fetch::address_behind;
use pass_intrinsics::{later, part_name, pointer_arg};
use std::alloc::{AllocError, Global};

/// The arguments, and the address of a frame behind them.
fn with_address(
    alloc: Global,
    args: &Short<Arg>,
    address: ValueId,
) -> Result<Short<Arg>, AllocError>
    ensures { IfOk result (λ x. x ≡ args.now ++ record { ty = ptr; value = TheOperand.Local address } ∷ []) }
{
    let mut all = args.copied(alloc)?;
    all.push(pointer_arg(Operand::Local(address)))?;
    Ok(all)
}

/// A call of the ramp that is given its frame.
fn given_call(alloc: Global, address: ValueId, instr: &Instr) -> Result<Instr, AllocError>
    ensures { IfOk result (λ i. i ≡ given_call address instr.now) }
{
    match instr {
        Instr::Call {
            result,
            must_tail,
            ty,
            callee: Callee::Named(name),
            args,
        } => Ok(Instr::Call {
            result: *result,
            must_tail: *must_tail,
            ty: ty.copied(alloc)?,
            callee: Callee::Named(part_name(alloc, name, b".noalloc")?),
            args: with_address(alloc, args, address)?,
        }),
        other => other.copied(alloc),
    }
}

fn push_address(
    alloc: Global,
    all: &mut Items<Instr>,
    name: ValueId,
    frame: GivenFrame,
) -> Result<(), AllocError>
    ensures { OnOk result (all.new ≡ all.old ++ frame_address name frame) }
{
    match frame {
        GivenFrame::Alloca { .. } => Ok(()),
        GivenFrame::Field { base, distance } => {
            all.push(address_behind(alloc, name, base, distance)?)?;
            Ok(())
        }
    }
}

/// Adds a call that gives its callee a frame, and notes the frame.
fn push_given(
    alloc: Global,
    all: &mut Items<Instr>,
    frames: &mut Items<GivenFrame>,
    base: ValueId,
    frame: GivenFrame,
    instr: &Instr,
) -> Result<(), AllocError>
    ensures instrs { OnOk result (all.new ≡ all.old ++ elided_by (length frames.old + base) (Some frame) instr.now) }
    ensures frames { OnOk result (frames.new ≡ frames.old ++ frame ∷ []) }
{
    let name = later(frames.len(), base)?;
    push_address(alloc, all, name, frame)?;
    all.push(given_call(alloc, name, instr)?)?;
    frames.push(frame)?;
    Ok(())
}

/// Adds an instruction, which may give its callee a frame. New names are counted by the frames.
pub fn push_elided(
    alloc: Global,
    all: &mut Items<Instr>,
    frames: &mut Items<GivenFrame>,
    base: ValueId,
    frame: Option<GivenFrame>,
    instr: &Instr,
) -> Result<(), AllocError>
    ensures instrs { OnOk result (all.new ≡ all.old ++ elided_by (length frames.old + base) frame instr.now) }
    ensures frames { OnOk result (frames.new ≡ frames.old ++ frames_by frame) }
{
    match frame {
        None => {
            all.push(instr.copied(alloc)?)?;
            Ok(())
        }
        Some(frame) => push_given(alloc, all, frames, base, frame, instr),
    }
}

fn push_alloca(
    alloc: Global,
    all: &mut Items<Instr>,
    name: ValueId,
    frame: GivenFrame,
) -> Result<(), AllocError>
    ensures { OnOk result (all.new ≡ all.old ++ frame_alloca name frame) }
{
    match frame {
        GivenFrame::Field { .. } => Ok(()),
        GivenFrame::Alloca { size, align } => {
            all.push(Instr::Alloca {
                result: name,
                ty: IrType::array(alloc, size, IrType::int(IntWidth::I8))?,
                align,
            })?;
            Ok(())
        }
    }
}

/// The allocas in which frames lie, with new names from the first on.
pub fn frame_allocas(
    alloc: Global,
    first: ValueId,
    frames: &[GivenFrame],
) -> Result<Items<Instr>, AllocError>
    ensures { IfOk result (λ x. x ≡ frame_allocas first frames.now) }
{
    let mut all = Items::new(alloc);
    let mut name = first;
    for frame in frames {
        push_alloca(alloc, &mut all, name, *frame)?;
        name = later(name, 1)?;
    }
    Ok(all)
}
