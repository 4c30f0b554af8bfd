//! The values that instructions and terminators use.

ghost use Rattle.std.specs.Prelude.{◌≡◌, ◌++◌, IfOk, OnOk, map, option_to_list};
ghost use Rattle.rule_uses.specs.Uses.{local_of as local_of_operand, locals_in};
ghost use Rattle.ir_parts.specs.Contents.{arg_operands, callee_operands, ending_operands, instr_operands, return_operands};

use ir_base::ValueId;
use ir_model::{Arg, Callee, Case, Instr, Operand, Terminator};
use std::alloc::{AllocError, Global};

/// The value that an operand names.
pub fn local_of(operand: &Operand) -> Option<ValueId>
    ensures { result ≡ local_of_operand operand.now }
{
    match operand {
        Operand::Local(value) => Some(*value),
        _ => None,
    }
}

fn push_local(all: &mut Vec<ValueId>, operand: &Operand) -> Result<(), AllocError>
    ensures { OnOk result (all.new.items ≡ all.old.items ++ option_to_list (local_of_operand operand.now)) }
{
    if let Some(value) = local_of(operand) {
        all.push(value)?;
    }
    Ok(())
}

fn push_args(all: &mut Vec<ValueId>, args: &[Arg]) -> Result<(), AllocError>
    ensures { OnOk result (all.new.items ≡ all.old.items ++ locals_in (arg_operands args.now)) }
{
    for arg in args {
        push_local(all, &arg.value)?;
    }
    Ok(())
}

fn push_cases(all: &mut Vec<ValueId>, cases: &[Case]) -> Result<(), AllocError>
    ensures { OnOk result (all.new.items ≡ all.old.items ++ locals_in (map (λ k. k.arg.value) cases.now)) }
{
    for case in cases {
        push_local(all, &case.arg.value)?;
    }
    Ok(())
}

fn one(alloc: Global, operand: &Operand) -> Result<Vec<ValueId>, AllocError>
    ensures { IfOk result (λ all. all.items ≡ option_to_list (local_of_operand operand.now)) }
{
    let mut all = Vec::new(alloc);
    push_local(&mut all, operand)?;
    Ok(all)
}

fn two(alloc: Global, left: &Operand, right: &Operand) -> Result<Vec<ValueId>, AllocError>
    ensures { IfOk result (λ all. all.items ≡ option_to_list (local_of_operand left.now) ++ option_to_list (local_of_operand right.now)) }
{
    let mut all = one(alloc, left)?;
    push_local(&mut all, right)?;
    Ok(all)
}

fn three(
    alloc: Global,
    first: &Operand,
    left: &Operand,
    right: &Operand,
) -> Result<Vec<ValueId>, AllocError>
    ensures { IfOk result (λ all. all.items ≡ option_to_list (local_of_operand first.now) ++ option_to_list (local_of_operand left.now) ++ option_to_list (local_of_operand right.now)) }
{
    let mut all = two(alloc, first, left)?;
    push_local(&mut all, right)?;
    Ok(all)
}

fn with_args(alloc: Global, first: &Operand, args: &[Arg]) -> Result<Vec<ValueId>, AllocError>
    ensures { IfOk result (λ all. all.items ≡ option_to_list (local_of_operand first.now) ++ locals_in (arg_operands args.now)) }
{
    let mut all = one(alloc, first)?;
    push_args(&mut all, args)?;
    Ok(all)
}

fn call_locals(alloc: Global, callee: &Callee, args: &[Arg]) -> Result<Vec<ValueId>, AllocError>
    ensures { IfOk result (λ all. all.items ≡ locals_in (callee_operands callee.now ++ arg_operands args.now)) }
{
    let mut all = Vec::new(alloc);
    if let Callee::Local(value) = callee {
        all.push(*value)?;
    }
    push_args(&mut all, args)?;
    Ok(all)
}

/// The values that an instruction uses.
pub fn instr_locals(alloc: Global, instr: &Instr) -> Result<Vec<ValueId>, AllocError>
    ensures { IfOk result (λ all. all.items ≡ locals_in (instr_operands instr.now)) }
{
    match instr {
        Instr::Binary { left, right, .. } => two(alloc, left, right),
        Instr::Icmp { left, right, .. } => two(alloc, left, right),
        Instr::Select { cond, yes, no, .. } => three(alloc, cond, &yes.value, &no.value),
        Instr::Cast { arg, .. } => one(alloc, &arg.value),
        Instr::Alloca { .. } => Ok(Vec::new(alloc)),
        Instr::Load { address, .. } => one(alloc, address),
        Instr::Store { arg, address, .. } => two(alloc, &arg.value, address),
        Instr::Gep { base, indices, .. } => with_args(alloc, base, indices.as_slice()),
        Instr::Call { callee, args, .. } => call_locals(alloc, callee, args.as_slice()),
    }
}

fn switch_locals(alloc: Global, arg: &Arg, cases: &[Case]) -> Result<Vec<ValueId>, AllocError>
    ensures { IfOk result (λ all. all.items ≡ option_to_list (local_of_operand arg.now.value) ++ locals_in (map (λ k. k.arg.value) cases.now)) }
{
    let mut all = one(alloc, &arg.value)?;
    push_cases(&mut all, cases)?;
    Ok(all)
}

/// The values that a terminator uses.
pub fn ending_locals(alloc: Global, term: &Terminator) -> Result<Vec<ValueId>, AllocError>
    ensures { IfOk result (λ all. all.items ≡ locals_in (ending_operands term.now)) }
{
    match term {
        Terminator::Jump(_) => Ok(Vec::new(alloc)),
        Terminator::Branch { cond, .. } => one(alloc, cond),
        Terminator::Switch { arg, cases, .. } => switch_locals(alloc, arg, cases.as_slice()),
        Terminator::Ret(None) => Ok(Vec::new(alloc)),
        Terminator::Ret(Some(arg)) => one(alloc, &arg.value),
        Terminator::Unreachable => Ok(Vec::new(alloc)),
    }
}
