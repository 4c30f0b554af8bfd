//! Calls of coro.size and of allocators, and what stands beside them.

ghost use Rattle.std.specs.Prelude.{◌≡◌, MatchOption, None, Some, find};
ghost use Rattle.std.specs.List.{list_any};
ghost use Rattle.elide_shape.specs.Calls.{deals as deals_with, deals_by, is_size_call as is_size_call_of, is_the_result, gives_size, is_size_value as is_size_value_of, is_other as is_other_call, one_other as the_other, is_without_phis as is_without, only_call as the_only_call, value_at as value_at_point};
ghost use Rattle.ir_model.specs.Names.{is_local};
ghost use Rattle.ir_model.specs.declared.operand.Operand.{Operand as TheOperand};
ghost use Rattle.ir_paths.specs.Windows.{call_operand};

use ir_base::ValueId;
use ir_calls::{call_result, is_call_of, is_value, operand_of};
use ir_model::{Allocator, Block, Callee, Function, Instr, Intrinsic, Operand, Phi};
use ir_paths::Point;
use rule_windows::instr_at;

/// What is called for memory: an allocator, or a deallocator.
#[derive(Clone, Copy, Drop)]
pub enum Dealing {
    Allocates,
    Frees,
}

fn deals(dealing: Dealing, allocator: Allocator) -> bool
    ensures { result ≡ deals_with dealing allocator }
{
    match (dealing, allocator) {
        (Dealing::Allocates, Allocator::Malloc | Allocator::Znwm) => true,
        (Dealing::Frees, Allocator::Free | Allocator::ZdlPv | Allocator::ZdlPvm) => true,
        _ => false,
    }
}

/// Whether the instruction calls an allocator, or a deallocator.
pub fn deals_with(dealing: Dealing, instr: &Instr) -> bool
    ensures { result ≡ deals_by dealing instr.now }
{
    match instr {
        Instr::Call {
            callee: Callee::Allocator(allocator),
            ..
        } => deals(dealing, *allocator),
        _ => false,
    }
}

/// The operand at a position of a call, where there is one.
fn operand_at(instr: &Instr, at: usize) -> Option<&Operand>
    ensures { MatchOption result (call_operand instr.now at ≡ TheOperand.None) (λ x. call_operand instr.now at ≡ x.now) }
{
    match instr {
        Instr::Call { args, .. } => operand_of(args.as_slice(), at),
        _ => None,
    }
}

/// Whether the operand at a position of a call is the value.
pub fn takes(value: ValueId, instr: &Instr, at: usize) -> bool
    ensures { result ≡ is_local value (call_operand instr.now at) }
{
    match operand_at(instr, at) {
        None => false,
        Some(operand) => is_value(Some(value), operand),
    }
}

fn is_size_call(instr: &Instr) -> bool
    ensures { result ≡ is_size_call_of instr.now }
{
    is_call_of(Intrinsic::CoroSizeI32, instr) || is_call_of(Intrinsic::CoroSizeI64, instr)
}

fn is_the_result(value: ValueId, result_id: Option<ValueId>) -> bool
    ensures { result ≡ is_the_result value result_id }
{
    match result_id {
        None => false,
        Some(id) => value == id,
    }
}

fn gives_size(value: ValueId, instr: &Instr) -> bool
    ensures { result ≡ gives_size value instr.now }
{
    is_size_call(instr) && is_the_result(value, call_result(instr))
}

fn gives_size_in(value: ValueId, instrs: &[Instr]) -> bool
    ensures { result ≡ list_any (gives_size value) instrs.now }
{
    instrs.iter().any(|instr| gives_size(value, instr))
}

fn gives_size_by(value: ValueId, blocks: &[Block]) -> bool
    ensures { result ≡ list_any (λ b. list_any (gives_size value) b.instrs) blocks.now }
{
    blocks
        .iter()
        .any(|block| gives_size_in(value, block.instrs.as_slice()))
}

/// Whether the first operand of a call is the value of some call of coro.size.
pub fn is_sized(function: &Function, instr: &Instr) -> bool
    ensures { result ≡ is_size_value_of function.now (call_operand instr.now 0) }
{
    match operand_at(instr, 0) {
        Some(Operand::Local(value)) => gives_size_by(*value, function.blocks.as_slice()),
        _ => false,
    }
}

fn is_other(instr: &Instr) -> bool
    ensures { result ≡ is_other_call instr.now }
{
    !is_size_call(instr)
}

fn first_other(instrs: &[Instr]) -> Option<&Instr>
    ensures { MatchOption result (find is_other_call instrs.now ≡ None) (λ i. find is_other_call instrs.now ≡ Some i.now) }
{
    for instr in instrs {
        if is_other(instr) {
            return Some(instr);
        }
    }
    None
}

/// The one instruction that is no call of coro.size.
fn one_other(instrs: &[Instr]) -> Option<&Instr>
    ensures { MatchOption result (the_other instrs.now ≡ None) (λ i. the_other instrs.now ≡ Some i.now) }
{
    if instrs.iter().filter(|instr| is_other(instr)).count() == 1 {
        first_other(instrs)
    } else {
        None
    }
}

fn is_without_phis(phis: &[Phi]) -> bool
    ensures { result ≡ is_without phis.now }
{
    matches!(phis, [])
}

/// The one call of an allocator, or of a deallocator, of a block that holds besides it only calls of coro.size.
pub fn only_call(dealing: Dealing, block: &Block) -> Option<&Instr>
    ensures { MatchOption result (the_only_call dealing block.now ≡ None) (λ i. the_only_call dealing block.now ≡ Some i.now) }
{
    if !is_without_phis(block.phis.as_slice()) {
        return None;
    }
    match one_other(block.instrs.as_slice()) {
        None => None,
        Some(instr) => {
            if deals_with(dealing, instr) {
                Some(instr)
            } else {
                None
            }
        }
    }
}

/// The value of the call at a point.
pub fn value_at(function: &Function, point: Point) -> Option<ValueId>
    ensures { result ≡ value_at_point function.now point }
{
    match instr_at(function, point) {
        None => None,
        Some(instr) => call_result(instr),
    }
}
