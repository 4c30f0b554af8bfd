//! What is looked for in a coroutine: its suspends and its promise.

ghost use Rattle.std.specs.Prelude.{◌≡◌, ℕ, List, slice_get, Some, None, Option, option_map, option_and_then, true, false, length, ◌+◌};
ghost use Rattle.std.specs.Option.{option_copied};
ghost use Rattle.std.specs.List.{list_any};
ghost use Rattle.ir_model.specs.Names.{first_where, is_local as is_local_operand};
ghost use Rattle.ir_model.specs.declared.instr.Instr.{Instr as TheInstr};
ghost use Rattle.ir_paths.specs.declared.point.Point.{Point as ThePoint};
ghost use Rattle.ir_paths.specs.Slots.{promise_of as promise_of_function, local_of as local_of_operand};
ghost use Rattle.ir_paths.specs.Windows.{instr_at as instr_at_point, points_where, is_call_of as is_call_of_intrinsic, is_suspend_of as is_suspend_of_token, call_operand, call_result as call_result_of, operand_at};
ghost use Rattle.run_source_tables.specs.Lookups.{args_of as args_of_call, sought, is_final_suspend as is_final_suspend_call, is_local_at};
ghost use Rattle.run_source_tables.specs.Given.{has_final as has_final_of};

use crate::points::{instr_at, is_true_at, operand_of};
use ir_base::ValueId;
use ir_model::{Arg, Callee, Function, Instr, Intrinsic, Operand, is_same_intrinsic};
use ir_paths::Point;

/// What an instruction may be looked for as.
#[derive(Clone, Copy, Debug, PartialEq, Eq, Drop)]
pub enum Sought {
    /// A call of an intrinsic.
    Call(Intrinsic),
    /// A suspend that takes the token of a name.
    SuspendOf(ValueId),
}

/// Whether an instruction is a call of an intrinsic.
pub fn is_call_of(intrinsic: Intrinsic, instr: &Instr) -> bool
    ensures { result ≡ is_call_of_intrinsic intrinsic instr.now }
{
    match instr {
        Instr::Call {
            callee: Callee::Intrinsic(other),
            ..
        } => is_same_intrinsic(intrinsic, *other),
        _ => false,
    }
}

fn is_local(name: ValueId, operand: &Operand) -> bool
    ensures { result ≡ is_local_operand name operand.now }
{
    match operand {
        Operand::Local(other) => name == *other,
        _ => false,
    }
}

fn is_name_at(args: &[Arg], i: usize, name: ValueId) -> bool
    ensures { result ≡ is_local_at name args.now i }
{
    match operand_of(args, i) {
        None => false,
        Some(operand) => is_local(name, operand),
    }
}

fn is_suspend_of(token: ValueId, instr: &Instr) -> bool
    ensures { result ≡ is_suspend_of_token (Some token) instr.now }
{
    match instr {
        Instr::Call { args, .. } => is_call_of(Intrinsic::CoroSuspend, instr)
            && is_name_at(args.as_slice(), 0, token),
        _ => false,
    }
}

fn is_sought(what: Sought, instr: &Instr) -> bool
    ensures { result ≡ sought what instr.now }
{
    match what {
        Sought::Call(intrinsic) => is_call_of(intrinsic, instr),
        Sought::SuspendOf(token) => is_suspend_of(token, instr),
    }
}

/// The position of the first instruction that is sought.
fn first_in(what: Sought, instrs: &[Instr]) -> Option<usize>
    ensures { result ≡ first_where (λ i. sought what i) instrs.now }
{
    for at in 0..instrs.len() {
        if is_sought(what, &instrs[at]) {
            return Some(at);
        }
    }
    None
}

/// The first point of a function at which stands what is sought.
pub fn first_point(what: Sought, function: &Function) -> Option<Point>
    ensures { result ≡ slice_get (points_where (λ i. sought what i) function.now) 0 }
{
    let blocks = function.blocks.as_slice();
    for block in 0..blocks.len() {
        if let Some(at) = first_in(what, blocks[block].instrs.as_slice()) {
            return Some(Point { block, at });
        }
    }
    None
}

fn local_of(operand: &Operand) -> Option<ValueId>
    ensures { result ≡ local_of_operand operand.now }
{
    match operand {
        Operand::Local(name) => Some(*name),
        _ => None,
    }
}

/// The name that the operand at a position of a call is.
pub fn local_at(args: &[Arg], i: usize) -> Option<ValueId>
    ensures { result ≡ local_of_operand (operand_at args.now i) }
{
    match operand_of(args, i) {
        None => None,
        Some(operand) => local_of(operand),
    }
}

/// The alloca of the promise, which `llvm.coro.id` names.
pub fn promise_of(function: &Function) -> Option<ValueId>
    ensures { result ≡ promise_of_function function.now }
{
    let point = first_point(Sought::Call(Intrinsic::CoroId), function)?;
    match instr_at(function, point) {
        Some(Instr::Call { args, .. }) => local_at(args.as_slice(), 1),
        _ => None,
    }
}

/// The result of the call at a point.
pub fn result_at(function: &Function, p: Point) -> Option<ValueId>
    ensures { result ≡ option_and_then (λ i. call_result_of i) (instr_at_point function.now p) }
{
    match instr_at(function, p) {
        Some(instr) => result_of(instr),
        None => None,
    }
}

/// The arguments of a call, none of another instruction.
pub fn args_of(instr: &Instr) -> &[Arg]
    ensures { result.now ≡ args_of_call instr.now }
{
    match instr {
        Instr::Call { args, .. } => args.as_slice(),
        _ => &[],
    }
}

/// The result of a call, none of another instruction.
pub fn result_of(instr: &Instr) -> Option<ValueId>
    ensures { result ≡ call_result_of instr.now }
{
    match instr {
        Instr::Call { result, .. } => *result,
        _ => None,
    }
}

/// The first suspend that takes a token.
pub fn suspend_with(function: &Function, token: ValueId) -> Option<Point>
    ensures { result ≡ slice_get (points_where (is_suspend_of_token (Some token)) function.now) 0 }
{
    first_point(Sought::SuspendOf(token), function)
}

fn has_final_in(instrs: &[Instr]) -> bool
    ensures { result ≡ list_any (λ i. is_final_suspend_call i) instrs.now }
{
    for instr in instrs {
        if is_final_suspend(instr) {
            return true;
        }
    }
    false
}

/// Whether an instruction is a final suspend.
fn is_final_suspend(instr: &Instr) -> bool
    ensures { result ≡ is_final_suspend_call instr.now }
{
    match instr {
        Instr::Call { args, .. } => is_call_of(Intrinsic::CoroSuspend, instr)
            && is_true_at(args.as_slice(), 1),
        _ => false,
    }
}

/// Whether a coroutine has a final suspend.
pub fn has_final(function: &Function) -> bool
    ensures { result ≡ has_final_of function.now }
{
    for block in function.blocks.as_slice() {
        if has_final_in(block.instrs.as_slice()) {
            return true;
        }
    }
    false
}
