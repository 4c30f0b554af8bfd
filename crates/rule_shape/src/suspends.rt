//! Final suspends (rule K4), and how many suspends there may be (rule K11).

ghost use Rattle.std.specs.Prelude.{◌≡◌, IfOk};
ghost use Rattle.rule_shape.specs.Suspends.{is_suspend as is_suspend_of, is_final_suspend, suspends_of as suspends_in, second_final, suspend_too_many};

use crate::places::places_where;
use ir_base::{FuncId, Items, Place};
use ir_model::{Function, Instr, Intrinsic};
use rule_windows::ir_calls_library::{InstrTest, is_call_of, is_final};
use std::alloc::{AllocError, Global};

/// How many suspends a coroutine has at most.
const MOST_SUSPENDS: usize = 65536;

/// The test for suspends.
#[derive(Clone, Copy, Debug, Drop)]
struct Suspend;

/// The test for final suspends.
#[derive(Clone, Copy, Debug, Drop)]
struct FinalSuspend;

fn is_suspend(instr: &Instr) -> bool
    ensures { result ≡ is_suspend_of instr.now }
{
    is_call_of(Intrinsic::CoroSuspend, instr)
}

impl InstrTest for Suspend {
    ghost instr_passes = { λ t. is_suspend_of };

    fn passes(&self, instr: &Instr) -> bool {
        is_suspend(instr)
    }
}

impl InstrTest for FinalSuspend {
    ghost instr_passes = { λ t. is_final_suspend };

    fn passes(&self, instr: &Instr) -> bool {
        is_suspend(instr) && is_final(instr)
    }
}

/// The places of a function's suspends, in order of the text.
pub fn suspends_of(
    alloc: Global,
    func: FuncId,
    function: &Function,
) -> Result<Items<Place>, AllocError>
    ensures { IfOk result (λ all. all ≡ suspends_in func function.now) }
{
    places_where(alloc, &Suspend, func, function)
}

/// The second final suspend (rule K4).
pub fn first_second_final(
    alloc: Global,
    func: FuncId,
    function: &Function,
) -> Result<Option<Place>, AllocError>
    ensures { IfOk result (λ p. p ≡ second_final func function.now) }
{
    if !function.coroutine {
        return Ok(None);
    }
    let finals = places_where(alloc, &FinalSuspend, func, function)?;
    Ok(finals.get(1).copied())
}

/// The first suspend too many (rule K11).
pub fn first_suspend_too_many(
    alloc: Global,
    func: FuncId,
    function: &Function,
) -> Result<Option<Place>, AllocError>
    ensures { IfOk result (λ p. p ≡ suspend_too_many func function.now) }
{
    if !function.coroutine {
        return Ok(None);
    }
    let suspends = suspends_of(alloc, func, function)?;
    Ok(suspends.get(MOST_SUSPENDS).copied())
}
