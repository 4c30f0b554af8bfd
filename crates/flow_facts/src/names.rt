//! The names that occur in a function.

ghost use Rattle.std.specs.Prelude.{◌≡◌, ◌||◌, ℕ, IfOk, OnOk};
ghost use Rattle.std.specs.List.{list_any};
ghost use Rattle.ir_model.specs.Names.{is_local};
ghost use Rattle.flow_points.specs.ir_paths.Slots.{exposed_in_block, exposes, has_name, is_in_args, is_memcpy as is_memcpy_callee, is_no_use as is_no_use_callee, occurs, occurs_in_phi, occurs_in_term};
ghost use Rattle.flow_facts.specs.Slots.{HasMore, touched_at};

use crate::windows::instr_at;
use flow_points::ir_paths_library::Point;
use ir_base::{Items, ValueId};
use ir_calls::is_call_of;
use ir_model::{
    Arg, Block, Callee, Function, Incoming, Instr, Intrinsic, Operand, Phi, Terminator,
};
use std::alloc::{AllocError, Global};

fn push_local(operand: &Operand, names: &mut Items<ValueId>) -> Result<(), AllocError>
    ensures { OnOk result (HasMore (λ v. is_local v operand.now) names.old names.new) }
{
    if let Operand::Local(name) = operand {
        names.push(*name)?;
    }
    Ok(())
}

fn push_args(args: &[Arg], names: &mut Items<ValueId>) -> Result<(), AllocError>
    ensures { OnOk result (HasMore (λ v. is_in_args v args.now) names.old names.new) }
{
    for arg in args {
        push_local(&arg.value, names)?;
    }
    Ok(())
}

/// Adds the locals among the operands of an instruction.
fn push_occurring(instr: &Instr, names: &mut Items<ValueId>) -> Result<(), AllocError>
    ensures { OnOk result (HasMore (λ v. occurs v instr.now) names.old names.new) }
{
    match instr {
        Instr::Binary { left, right, .. } | Instr::Icmp { left, right, .. } => {
            push_local(left, names)?;
            push_local(right, names)
        }
        Instr::Select { cond, yes, no, .. } => {
            push_local(cond, names)?;
            push_local(&yes.value, names)?;
            push_local(&no.value, names)
        }
        Instr::Cast { arg, .. } => push_local(&arg.value, names),
        Instr::Alloca { .. } => Ok(()),
        Instr::Load { address, .. } => push_local(address, names),
        Instr::Store { arg, address, .. } => {
            push_local(&arg.value, names)?;
            push_local(address, names)
        }
        Instr::Gep { base, indices, .. } => {
            push_local(base, names)?;
            push_args(indices.as_slice(), names)
        }
        Instr::Call { callee, args, .. } => {
            if let Callee::Local(name) = callee {
                names.push(*name)?;
            }
            push_args(args.as_slice(), names)
        }
    }
}

fn is_no_use(callee: &Callee) -> bool
    ensures { result ≡ is_no_use_callee callee.now }
{
    matches!(
        callee,
        Callee::Intrinsic(Intrinsic::LifetimeStart | Intrinsic::LifetimeEnd | Intrinsic::CoroId)
    )
}

fn is_memcpy(callee: &Callee) -> bool
    ensures { result ≡ is_memcpy_callee callee.now }
{
    matches!(
        callee,
        Callee::Intrinsic(Intrinsic::MemcpyI64 | Intrinsic::MemcpyI32)
    )
}

/// Adds the names that an instruction exposes: those that it takes otherwise than as an address of memory.
fn push_exposed(instr: &Instr, names: &mut Items<ValueId>) -> Result<(), AllocError>
    ensures { OnOk result (HasMore (λ v. exposes v instr.now) names.old names.new) }
{
    match instr {
        Instr::Load { .. } => Ok(()),
        Instr::Store { arg, .. } => push_local(&arg.value, names),
        Instr::Gep { indices, .. } => push_args(indices.as_slice(), names),
        Instr::Call { callee, .. } => {
            if is_no_use(callee) || is_memcpy(callee) {
                Ok(())
            } else {
                push_occurring(instr, names)
            }
        }
        _ => push_occurring(instr, names),
    }
}

fn push_incoming(incoming: &[Incoming], names: &mut Items<ValueId>) -> Result<(), AllocError>
    ensures { OnOk result (HasMore (λ v. list_any (λ i. is_local v i.value) incoming.now) names.old names.new) }
{
    for one in incoming {
        push_local(&one.value, names)?;
    }
    Ok(())
}

fn push_phis(phis: &[Phi], names: &mut Items<ValueId>) -> Result<(), AllocError>
    ensures { OnOk result (HasMore (λ v. list_any (occurs_in_phi v) phis.now) names.old names.new) }
{
    for phi in phis {
        push_incoming(phi.incoming.as_slice(), names)?;
    }
    Ok(())
}

fn push_instrs(instrs: &[Instr], names: &mut Items<ValueId>) -> Result<(), AllocError>
    ensures { OnOk result (HasMore (λ v. list_any (exposes v) instrs.now) names.old names.new) }
{
    for instr in instrs {
        push_exposed(instr, names)?;
    }
    Ok(())
}

fn push_term(term: &Terminator, names: &mut Items<ValueId>) -> Result<(), AllocError>
    ensures { OnOk result (HasMore (λ v. occurs_in_term v term.now) names.old names.new) }
{
    match term {
        Terminator::Branch { cond, .. } => push_local(cond, names),
        Terminator::Switch { arg, .. } | Terminator::Ret(Some(arg)) => {
            push_local(&arg.value, names)
        }
        Terminator::Jump(_) | Terminator::Ret(None) | Terminator::Unreachable => Ok(()),
    }
}

fn push_block(block: &Block, names: &mut Items<ValueId>) -> Result<(), AllocError>
    ensures { OnOk result (HasMore (λ v. exposed_in_block v block.now) names.old names.new) }
{
    push_phis(block.phis.as_slice(), names)?;
    push_instrs(block.instrs.as_slice(), names)?;
    push_term(&block.term, names)
}

/// The names that are exposed somewhere.
pub fn exposed_names(alloc: Global, function: &Function) -> Result<Items<ValueId>, AllocError>
    ensures { IfOk result (λ names. (v : ℕ) → has_name names v ≡ list_any (exposed_in_block v) function.now.blocks) }
{
    let mut names = Items::new(alloc);
    for block in function.blocks.as_slice() {
        push_block(block, &mut names)?;
    }
    Ok(names)
}

fn push_touched_at(
    function: &Function,
    point: Point,
    names: &mut Items<ValueId>,
) -> Result<(), AllocError>
    ensures { OnOk result (HasMore (λ v. touched_at function.now v point) names.old names.new) }
{
    match instr_at(function, point) {
        None => Ok(()),
        Some(instr) => {
            if is_call_of(Intrinsic::CoroId, instr) {
                Ok(())
            } else {
                push_occurring(instr, names)
            }
        }
    }
}

/// Adds the names that the instructions at these points take, where those aren't coro.id.
pub fn push_touched(
    function: &Function,
    points: &[Point],
    names: &mut Items<ValueId>,
) -> Result<(), AllocError>
    ensures { OnOk result (HasMore (λ v. list_any (touched_at function.now v) points.now) names.old names.new) }
{
    for point in points {
        push_touched_at(function, *point, names)?;
    }
    Ok(())
}
