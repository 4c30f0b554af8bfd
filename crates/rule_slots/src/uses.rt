//! The uses of coroutine slots' addresses.

ghost use Rattle.std.specs.Prelude.{◌≡◌, IfOk, drop, not};
ghost use Rattle.std.specs.List.{list_all};
ghost use Rattle.ir_parts.specs.Contents.{arg_operands, callee_operands, ending_operands};
ghost use Rattle.ir_paths.specs.Slots.{is_memcpy as is_memcpy_callee, is_no_use as is_no_use_callee};
ghost use Rattle.ir_paths.specs.Windows.{operand_at};
ghost use Rattle.rule_slots.specs.Early.{call_uses, is_clear, is_direct as is_direct_by, is_misused as is_misused_by, memory_uses, other_uses};

use crate::names::{NameSet, names_one, names_other};
use crate::slots::Slots;
use ir_calls::operand_of;
use ir_model::{Arg, Callee, Instr, Intrinsic, Operand, Terminator};
use ir_parts::{OperandTest, ending_operands_pass, instr_operands_pass};
use std::alloc::AllocError;

/// The test for operands that are no address of a coroutine slot.
#[derive(Drop)]
struct Clear<'a> {
    addresses: &'a NameSet,
}

impl OperandTest for Clear<'_> {
    ghost operand_passes = { λ t. is_clear t.addresses.now };

    fn passes(&self, operand: &Operand) -> Result<bool, AllocError> {
        Ok(!names_one(self.addresses, operand))
    }
}

fn is_no_use(callee: &Callee) -> bool
    ensures { result ≡ is_no_use_callee callee.now }
{
    matches!(
        callee,
        Callee::Intrinsic(Intrinsic::LifetimeStart | Intrinsic::LifetimeEnd | Intrinsic::CoroId)
    )
}

fn is_memcpy(callee: &Callee) -> bool
    ensures { result ≡ is_memcpy_callee callee.now }
{
    matches!(
        callee,
        Callee::Intrinsic(Intrinsic::MemcpyI64 | Intrinsic::MemcpyI32)
    )
}

// ---- uses otherwise than as an address of memory

fn args_are_clear(addresses: &NameSet, args: &[Arg]) -> bool
    ensures { result ≡ list_all (is_clear addresses.now) (arg_operands args.now) }
{
    for arg in args {
        if names_one(addresses, &arg.value) {
            return false;
        }
    }
    true
}

fn later_args_are_clear(addresses: &NameSet, args: &[Arg]) -> bool
    ensures { result ≡ list_all (is_clear addresses.now) (arg_operands (drop 2 args.now)) }
{
    match args {
        [_, _, later @ ..] => args_are_clear(addresses, later),
        _ => true,
    }
}

fn callee_is_clear(addresses: &NameSet, callee: &Callee) -> bool
    ensures { result ≡ list_all (is_clear addresses.now) (callee_operands callee.now) }
{
    match callee {
        Callee::Local(name) => !addresses.has(*name),
        _ => true,
    }
}

fn call_is_clear(addresses: &NameSet, callee: &Callee, args: &[Arg]) -> bool
    ensures { result ≡ list_all (is_clear addresses.now) (call_uses callee.now args.now) }
{
    if is_no_use(callee) {
        return true;
    }
    if is_memcpy(callee) {
        return later_args_are_clear(addresses, args);
    }
    callee_is_clear(addresses, callee) && args_are_clear(addresses, args)
}

fn others_are_clear(addresses: &NameSet, instr: &Instr) -> Result<bool, AllocError>
    ensures { IfOk result (λ b. b ≡ list_all (is_clear addresses.now) (other_uses instr.now)) }
{
    match instr {
        Instr::Load { .. } => Ok(true),
        Instr::Store { arg, .. } => Ok(!names_one(addresses, &arg.value)),
        Instr::Call { callee, args, .. } => Ok(call_is_clear(addresses, callee, args.as_slice())),
        _ => instr_operands_pass(&Clear { addresses }, instr),
    }
}

// ---- addresses of memory

fn is_direct(slots: &Slots, operand: &Operand) -> bool
    ensures { result ≡ is_direct_by slots.now.addresses slots.now.themselves operand.now }
{
    !names_other(&slots.addresses, &slots.themselves, operand)
}

fn is_direct_at(slots: &Slots, args: &[Arg], at: usize) -> bool
    ensures { result ≡ is_direct_by slots.now.addresses slots.now.themselves (operand_at args.now at) }
{
    match operand_of(args, at) {
        None => true,
        Some(operand) => is_direct(slots, operand),
    }
}

fn memory_is_direct(slots: &Slots, instr: &Instr) -> bool
    ensures { result ≡ list_all (is_direct_by slots.now.addresses slots.now.themselves) (memory_uses instr.now) }
{
    match instr {
        Instr::Load { address, .. } => is_direct(slots, address),
        Instr::Store { address, .. } => is_direct(slots, address),
        Instr::Call { callee, args, .. } => {
            !is_memcpy(callee)
                || (is_direct_at(slots, args.as_slice(), 0)
                    && is_direct_at(slots, args.as_slice(), 1))
        }
        _ => true,
    }
}

/// Whether an instruction uses an address of a coroutine slot otherwise than directly as the address of a load, store or
/// memcpy. A marker and coro.id use nothing.
pub fn is_misused(slots: &Slots, instr: &Instr) -> Result<bool, AllocError>
    ensures { IfOk result (λ b. b ≡ is_misused_by slots.now.addresses slots.now.themselves instr.now) }
{
    let clear = others_are_clear(&slots.addresses, instr)?;
    Ok(!clear || !memory_is_direct(slots, instr))
}

/// Whether a terminator uses an address of a coroutine slot.
pub fn ends_in_use(slots: &Slots, term: &Terminator) -> Result<bool, AllocError>
    ensures { IfOk result (λ b. b ≡ not (list_all (is_clear slots.now.addresses) (ending_operands term.now))) }
{
    let test = Clear {
        addresses: &slots.addresses,
    };
    Ok(!ending_operands_pass(&test, term)?)
}
