//! What an instruction does to its block.

ghost use Rattle.std.specs.Prelude.{◌≡◌, IfOk};
ghost use Rattle.pass_intrinsics.specs.Cuts.{goes_on, marks_save, token_in, next_suspend, transfers, cut_call, cut_at};

use crate::lowered::number_of_save;
use crate::shape::{Part, Shape};
use crate::shapes::save_of;
use ir_base::{SuspendId, ValueId};
use ir_model::{Callee, Instr, Intrinsic};
use std::alloc::AllocError;

/// What an instruction does to its block.
#[derive(Clone, Copy, Debug, PartialEq, Eq, Drop)]
pub enum Cut {
    /// Nothing.
    Stays,
    /// Behind it begins the piece of a label.
    Marks(ValueId),
    /// The block ends at a suspend.
    Suspends,
    /// The part returns.
    Returns,
    /// It is a resume right before the suspend of a number.
    Transfers(SuspendId),
}

/// Whether a part goes on behind a suspend.
pub fn goes_on(part: Part) -> bool
    ensures { result ≡ goes_on part }
{
    match part {
        Part::Ramp | Part::GivenRamp => false,
        Part::Resume | Part::Destroy | Part::Cleanup => true,
    }
}

fn marks_save(shape: &Shape, number: Option<SuspendId>) -> Result<Cut, AllocError>
    ensures { IfOk result (λ c. c ≡ marks_save shape.now number) }
{
    match number {
        None => Ok(Cut::Stays),
        Some(suspend) => Ok(Cut::Marks(shape.saved_label(suspend)?)),
    }
}

fn token_in(instr: &Instr) -> Option<ValueId>
    ensures { result ≡ token_in instr.now }
{
    match instr {
        Instr::Call {
            result: _,
            must_tail: _,
            ty: _,
            callee: Callee::Intrinsic(Intrinsic::CoroSuspend),
            args,
        } => save_of(args.as_slice()),
        _ => None,
    }
}

fn next_suspend(shape: &Shape, after: &[Instr]) -> Option<SuspendId>
    ensures { result ≡ next_suspend shape.now after.now }
{
    match after {
        [] => None,
        [next, ..] => number_of_save(shape, token_in(next)),
    }
}

fn transfers(number: Option<SuspendId>) -> Cut
    ensures { result ≡ transfers number }
{
    match number {
        None => Cut::Stays,
        Some(suspend) => Cut::Transfers(suspend),
    }
}

fn cut_call(
    shape: &Shape,
    part: Part,
    name: Option<ValueId>,
    after: &[Instr],
    intrinsic: Intrinsic,
) -> Result<Cut, AllocError>
    ensures { IfOk result (λ c. c ≡ cut_call shape.now part name after.now intrinsic) }
{
    match intrinsic {
        Intrinsic::CoroBegin => Ok(Cut::Marks(shape.begun_label())),
        Intrinsic::CoroSave => marks_save(shape, number_of_save(shape, name)),
        Intrinsic::CoroSuspend => Ok(Cut::Suspends),
        Intrinsic::CoroEnd => {
            if goes_on(part) {
                Ok(Cut::Returns)
            } else {
                Ok(Cut::Stays)
            }
        }
        Intrinsic::CoroResume => {
            if goes_on(part) {
                Ok(transfers(next_suspend(shape, after)))
            } else {
                Ok(Cut::Stays)
            }
        }
        _ => Ok(Cut::Stays),
    }
}

/// What an instruction, with those behind it, does to its block.
pub fn cut_at(shape: &Shape, part: Part, instr: &Instr, after: &[Instr]) -> Result<Cut, AllocError>
    ensures { IfOk result (λ c. c ≡ cut_at shape.now part instr.now after.now) }
{
    match instr {
        Instr::Call {
            result: name,
            must_tail: _,
            ty: _,
            callee: Callee::Intrinsic(intrinsic),
            args: _,
        } => cut_call(shape, part, *name, after, *intrinsic),
        _ => Ok(Cut::Stays),
    }
}
