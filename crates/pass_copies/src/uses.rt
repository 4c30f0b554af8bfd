//! Which slots are used before begin.

ghost use Rattle.std.specs.Prelude.{◌≡◌, IfOk, false, length, replicate};
ghost use Rattle.pass_copies.specs.Uses.{flag_at, is_begin, is_access, still_before, mark, mark_operand, mark_args, mark_addresses, mark_instr, mark_instrs, mark_blocks, used_before};

use ir_base::{Items, ValueId};
use ir_model::{Arg, Block, Callee, Function, Instr, Intrinsic, Operand};
use std::alloc::{AllocError, Global};

/// Whether a name is flagged; one past the end isn't.
pub fn flag_at(flags: &[bool], id: ValueId) -> bool
    ensures { result ≡ flag_at flags.now id }
{
    match flags.get(id) {
        None => false,
        Some(flag) => *flag,
    }
}

/// Whether an instruction is a call of `coro.begin`.
pub fn is_begin(instr: &Instr) -> bool
    ensures { result ≡ is_begin instr.now }
{
    matches!(
        instr,
        Instr::Call {
            callee: Callee::Intrinsic(Intrinsic::CoroBegin),
            ..
        }
    )
}

/// Whether an instruction loads, stores or copies.
pub fn is_access(instr: &Instr) -> bool
    ensures { result ≡ is_access instr.now }
{
    match instr {
        Instr::Load { .. } | Instr::Store { .. } => true,
        Instr::Call {
            callee: Callee::Intrinsic(Intrinsic::MemcpyI64 | Intrinsic::MemcpyI32),
            ..
        } => true,
        _ => false,
    }
}

/// Whether the point behind an instruction is before begin, where that of the instruction is.
pub fn still_before(is_before: bool, instr: &Instr) -> bool
    ensures { result ≡ still_before is_before instr.now }
{
    if is_begin(instr) { false } else { is_before }
}

fn mark(used: &mut Items<bool>, slots: &[bool], id: ValueId)
    ensures { used.new ≡ mark slots.now used.old id }
{
    if flag_at(slots, id) {
        used.set(id, true);
    }
}

fn mark_operand(used: &mut Items<bool>, slots: &[bool], operand: &Operand)
    ensures { used.new ≡ mark_operand slots.now used.old operand.now }
{
    if let Operand::Local(id) = operand {
        mark(used, slots, *id);
    }
}

fn mark_args(used: &mut Items<bool>, slots: &[bool], args: &[Arg])
    ensures { used.new ≡ mark_args slots.now used.old args.now }
{
    for arg in args {
        mark_operand(used, slots, &arg.value);
    }
}

fn mark_addresses(used: &mut Items<bool>, slots: &[bool], instr: &Instr)
    ensures { used.new ≡ mark_addresses slots.now used.old instr.now }
{
    match instr {
        Instr::Load { address, .. } | Instr::Store { address, .. } => {
            mark_operand(used, slots, address);
        }
        Instr::Call {
            callee: Callee::Intrinsic(Intrinsic::MemcpyI64 | Intrinsic::MemcpyI32),
            args,
            ..
        } => mark_args(used, slots, args.as_slice()),
        _ => {}
    }
}

fn mark_instr(used: &mut Items<bool>, slots: &[bool], is_before: bool, instr: &Instr)
    ensures { used.new ≡ mark_instr slots.now is_before used.old instr.now }
{
    if is_before {
        mark_addresses(used, slots, instr);
    }
}

fn mark_instrs(used: &mut Items<bool>, slots: &[bool], first: bool, instrs: &[Instr])
    ensures { used.new ≡ mark_instrs slots.now first used.old instrs.now }
{
    let mut is_before = first;
    for instr in instrs {
        mark_instr(used, slots, is_before, instr);
        is_before = still_before(is_before, instr);
    }
}

fn mark_blocks(used: &mut Items<bool>, slots: &[bool], before: &[bool], blocks: &[Block])
    ensures { used.new ≡ mark_blocks slots.now before.now used.old blocks.now }
{
    for block in blocks {
        let is_before = flag_at(before, block.label);
        mark_instrs(used, slots, is_before, block.instrs.as_slice());
    }
}

/// For each name whether it is a slot that is used before begin.
pub fn used_before(
    alloc: Global,
    function: &Function,
    slots: &[bool],
    before: &[bool],
) -> Result<Items<bool>, AllocError>
    ensures { IfOk result (λ x. x ≡ used_before function.now slots.now before.now) }
{
    let count = function.names.len();
    let mut used = Items::from_vec(Vec::from_elem(alloc, false, count)?);
    mark_blocks(&mut used, slots, before, function.blocks.as_slice());
    Ok(used)
}
