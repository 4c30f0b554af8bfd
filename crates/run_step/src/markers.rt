//! Which allocas have markers.

ghost use Rattle.std.specs.Prelude.{◌≡◌, IfOk, replicate, false};
ghost use Rattle.std.specs.List.{list_any};
ghost use Rattle.ir_paths.specs.ir_model.Names.{is_local as is_local_of};
ghost use Rattle.run_step.specs.Step.{is_lifetime as is_lifetime_callee, is_marker_of as is_marker_of_name, has_markers as has_markers_of};
ghost use Rattle.run_step.specs.Tables.{HasMarks, IsMarked};

use ir_paths::ir_base_library::{Items, ValueId};
use ir_paths::ir_model_library::{Arg, Block, Callee, Function, Instr, Intrinsic, Operand};
use std::alloc::{AllocError, Global};

fn is_lifetime(callee: &Callee) -> bool
    ensures { result ≡ is_lifetime_callee callee.now }
{
    match callee {
        Callee::Intrinsic(Intrinsic::LifetimeStart) => true,
        Callee::Intrinsic(Intrinsic::LifetimeEnd) => true,
        _ => false,
    }
}

fn is_local(name: ValueId, operand: &Operand) -> bool
    ensures { result ≡ is_local_of name operand.now }
{
    match operand {
        Operand::Local(other) => name == *other,
        _ => false,
    }
}

fn have_local(name: ValueId, args: &[Arg]) -> bool
    ensures { result ≡ list_any (λ a. is_local_of name a.value) args.now }
{
    for arg in args {
        if is_local(name, &arg.value) {
            return true;
        }
    }
    false
}

/// Whether an instruction is a marker of an alloca.
fn is_marker_of(name: ValueId, instr: &Instr) -> bool
    ensures { result ≡ is_marker_of_name name instr.now }
{
    match instr {
        Instr::Call { callee, args, .. } => is_lifetime(callee)
            && have_local(name, args.as_slice()),
        _ => false,
    }
}

fn have_marker(name: ValueId, instrs: &[Instr]) -> bool
    ensures { result ≡ list_any (λ i. is_marker_of_name name i) instrs.now }
{
    for instr in instrs {
        if is_marker_of(name, instr) {
            return true;
        }
    }
    false
}

/// Whether an alloca has markers, by a look at the whole function.
pub fn has_markers(function: &Function, name: ValueId) -> bool
    ensures { result ≡ has_markers_of function.now name }
{
    for block in function.blocks.as_slice() {
        if have_marker(name, block.instrs.as_slice()) {
            return true;
        }
    }
    false
}

/// Notes the name of an operand that is a local.
fn mark_local(table: &mut Items<bool>, operand: &Operand)
    ensures { IsMarked table.old table.new (λ name. is_local_of name operand.now) }
{
    if let Operand::Local(name) = operand {
        table.set(*name, true);
    }
}

fn mark_locals(table: &mut Items<bool>, args: &[Arg])
    ensures { IsMarked table.old table.new (λ name. list_any (λ a. is_local_of name a.value) args.now) }
{
    for arg in args {
        mark_local(table, &arg.value);
    }
}

/// Notes the names that a marker has.
fn mark_instr(table: &mut Items<bool>, instr: &Instr)
    ensures { IsMarked table.old table.new (λ name. is_marker_of_name name instr.now) }
{
    if let Instr::Call { callee, args, .. } = instr {
        if is_lifetime(callee) {
            mark_locals(table, args.as_slice());
        }
    }
}

fn mark_instrs(table: &mut Items<bool>, instrs: &[Instr])
    ensures { IsMarked table.old table.new (λ name. list_any (λ i. is_marker_of_name name i) instrs.now) }
{
    for instr in instrs {
        mark_instr(table, instr);
    }
}

fn mark_blocks(table: &mut Items<bool>, blocks: &[Block])
    ensures { IsMarked table.old table.new (λ name. list_any (λ b. list_any (λ i. is_marker_of_name name i) b.instrs) blocks.now) }
{
    for block in blocks {
        mark_instrs(table, block.instrs.as_slice());
    }
}

/// So many names without a mark.
fn unmarked(alloc: Global, count: usize) -> Result<Items<bool>, AllocError>
    ensures { IfOk result (λ all. all ≡ replicate count false) }
{
    Ok(Items::from_vec(vec![in alloc; false; count]?))
}

/// For each name of a function whether it is an alloca's that has markers.
pub fn markers_of(alloc: Global, function: &Function) -> Result<Items<bool>, AllocError>
    ensures { IfOk result (λ table. HasMarks function.now table) }
{
    let mut table = unmarked(alloc, function.names.len())?;
    mark_blocks(&mut table, function.blocks.as_slice());
    Ok(table)
}
