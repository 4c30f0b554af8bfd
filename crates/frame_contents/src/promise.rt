//! The promise of a coroutine, and its suspends.

ghost use Rattle.std.specs.Prelude.{◌≡◌, IfOk};
ghost use Rattle.frame_contents.specs.Held.{suspend_count as count_of_suspends};
ghost use Rattle.ir_paths.specs.Slots.{local_of, promise_of as promise_of_function};
ghost use Rattle.ir_paths.specs.Windows.{call_operand};

use frame_conflicts::rule_windows_library::{instr_at, points_where};
use ir_base::ValueId;
use ir_calls::{CallOf, operand_of};
use ir_model::{Function, Instr, Intrinsic, Operand};
use std::alloc::{AllocError, Global};

fn second_local(instr: &Instr) -> Option<ValueId>
    ensures { result ≡ local_of (call_operand instr.now 1) }
{
    match instr {
        Instr::Call { args, .. } => match operand_of(args.as_slice(), 1) {
            Some(Operand::Local(name)) => Some(*name),
            _ => None,
        },
        _ => None,
    }
}

/// The alloca that `coro.id` names.
pub(crate) fn promise_of(alloc: Global, function: &Function) -> Result<Option<ValueId>, AllocError>
    ensures { IfOk result (λ promise. promise ≡ promise_of_function function.now) }
{
    let id = CallOf {
        intrinsic: Intrinsic::CoroId,
    };
    let ids = points_where(alloc, &id, function)?;
    match ids.get(0) {
        None => Ok(None),
        Some(point) => match instr_at(function, *point) {
            None => Ok(None),
            Some(instr) => Ok(second_local(instr)),
        },
    }
}

/// How many suspends a function has.
pub(crate) fn suspend_count(alloc: Global, function: &Function) -> Result<usize, AllocError>
    ensures { IfOk result (λ count. count ≡ count_of_suspends function.now) }
{
    let suspend = CallOf {
        intrinsic: Intrinsic::CoroSuspend,
    };
    let suspends = points_where(alloc, &suspend, function)?;
    Ok(suspends.len())
}
