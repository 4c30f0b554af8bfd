//! Which coroutines are called with a frame of their caller.

ghost use Rattle.std.specs.Prelude.{◌≡◌, IfOk, OnOk, ◌++◌};
ghost use Rattle.std.specs.List.{list_any};
ghost use Rattle.ir_model.specs.Names.{first_where, same_name};
ghost use Rattle.ir_tables.specs.Tables.{FindsFirst};
ghost use Rattle.pass_split.specs.Given.{called_by, called_in, called_from, called_names, is_given_by};

use ir_base::{Data, Items, Name};
use ir_model::{Block, Callee, Function, Instr};
use ir_tables::{NameTable, Named, find, table_of};
use pass_intrinsics::part_name;
use std::alloc::{AllocError, Global};

/// A name by which a function is called.
#[derive(Drop)]
pub struct CalledName {
    pub name: Name,
}

impl Named for CalledName {
    ghost called = { λ x. x.name };

    fn name(&self) -> &Name {
        &self.name
    }
}

/// The names by which the functions of a module are called.
#[derive(Drop)]
pub struct Calls {
    pub names: Items<CalledName>,
    table: NameTable,
    ghost found: { FindsFirst (λ x. x.name) names table },
}

fn push_called(alloc: Global, all: &mut Items<CalledName>, instr: &Instr) -> Result<(), AllocError>
    ensures { OnOk result (all.new ≡ all.old ++ called_by instr.now) }
{
    match instr {
        Instr::Call {
            result: _,
            must_tail: _,
            ty: _,
            callee: Callee::Named(name),
            args: _,
        } => {
            let name = name.copied(alloc)?;
            all.push(CalledName { name })?;
            Ok(())
        }
        _ => Ok(()),
    }
}

fn push_called_in(
    alloc: Global,
    all: &mut Items<CalledName>,
    instrs: &[Instr],
) -> Result<(), AllocError>
    ensures { OnOk result (all.new ≡ all.old ++ called_in instrs.now) }
{
    for instr in instrs {
        push_called(alloc, all, instr)?;
    }
    Ok(())
}

fn push_called_from(
    alloc: Global,
    all: &mut Items<CalledName>,
    blocks: &[Block],
) -> Result<(), AllocError>
    ensures { OnOk result (all.new ≡ all.old ++ called_from blocks.now) }
{
    for block in blocks {
        push_called_in(alloc, all, block.instrs.as_slice())?;
    }
    Ok(())
}

fn called_names(alloc: Global, functions: &[Function]) -> Result<Items<CalledName>, AllocError>
    ensures { IfOk result (λ all. all ≡ called_names functions.now) }
{
    let mut all = Items::new(alloc);
    for function in functions {
        push_called_from(alloc, &mut all, function.blocks.as_slice())?;
    }
    Ok(all)
}

/// The names by which functions are called.
pub fn calls_of(alloc: Global, functions: &[Function]) -> Result<Calls, AllocError>
    ensures { IfOk result (λ calls. calls.names ≡ called_names functions.now) }
{
    let names = called_names(alloc, functions)?;
    let table = table_of(alloc, names.as_slice())?;
    Ok(Calls { names, table })
}

/// The first of them that is a name.
fn place_of(calls: &Calls, name: &Name) -> Option<usize>
    ensures { result ≡ first_where (λ c. same_name c.name name.now) calls.now.names }
{
    find(&calls.table, name)
}

/// Whether one of them is a name.
fn is_called(calls: &Calls, name: &Name) -> bool
    ensures { result ≡ list_any (λ c. same_name name.now c.name) calls.now.names }
{
    place_of(calls, name).is_some()
}

/// Whether one of them is that of the coroutine's ramp that is given its frame.
pub fn is_given_by(alloc: Global, calls: &Calls, function: &Function) -> Result<bool, AllocError>
    ensures { IfOk result (λ b. b ≡ is_given_by calls.now.names function.now) }
{
    let name = part_name(alloc, &function.name, b".noalloc")?;
    Ok(is_called(calls, &name))
}
