//! Saves that are written out.

ghost use Rattle.std.specs.Prelude.{◌≡◌, ◌++◌, ◌+◌, IfOk, OnOk};
ghost use Rattle.pass_early.specs.Early.{is_none, first_is_none, is_unsaved, save_call, with_first, saved, early_one, after_one, early_instrs, after_instrs, save_name, save_names};

use crate::renaming::Renaming;
use ir_base::{Data, Items, Name, Short, ValueId};
use ir_model::{Arg, Callee, Instr, Intrinsic, IrType, Operand, numbered_name};
use std::alloc::{AllocError, Global};

fn is_none(operand: &Operand) -> bool
    ensures { result ≡ is_none operand.now }
{
    matches!(operand, Operand::None)
}

fn first_is_none(args: &[Arg]) -> bool
    ensures { result ≡ first_is_none args.now }
{
    match args {
        [] => false,
        [first, ..] => is_none(&first.value),
    }
}

/// Whether the instruction is a suspend whose save isn't written.
fn is_unsaved(instr: &Instr) -> bool
    ensures { result ≡ is_unsaved instr.now }
{
    match instr {
        Instr::Call {
            result: _,
            must_tail: _,
            ty: _,
            callee: Callee::Intrinsic(Intrinsic::CoroSuspend),
            args,
        } => first_is_none(args.as_slice()),
        _ => false,
    }
}

fn save_call(alloc: Global, save: ValueId) -> Result<Instr, AllocError>
    ensures { IfOk result (λ x. x ≡ save_call save) }
{
    let mut args = Short::new(alloc);
    args.push(Arg {
        ty: IrType::pointer(),
        value: Operand::Null,
    })?;
    Ok(Instr::Call {
        result: Some(save),
        must_tail: false,
        ty: Some(IrType::token()),
        callee: Callee::Intrinsic(Intrinsic::CoroSave),
        args,
    })
}

/// The operands of a suspend with a save in place of the first.
fn with_first(alloc: Global, save: ValueId, args: &[Arg]) -> Result<Short<Arg>, AllocError>
    ensures { IfOk result (λ x. x ≡ with_first save args.now) }
{
    let mut all = Short::new(alloc);
    if let [first, others @ ..] = args {
        all.push(Arg {
            ty: first.ty.copied(alloc)?,
            value: Operand::Local(save),
        })?;
        for arg in others {
            all.push(arg.copied(alloc)?)?;
        }
    }
    Ok(all)
}

/// The suspend of a save.
fn saved(alloc: Global, save: ValueId, instr: Instr) -> Result<Instr, AllocError>
    ensures { IfOk result (λ x. x ≡ saved save instr) }
{
    match instr {
        Instr::Call {
            result,
            must_tail,
            ty,
            callee,
            args,
        } => Ok(Instr::Call {
            result,
            must_tail,
            ty,
            callee,
            args: with_first(alloc, save, args.as_slice())?,
        }),
        other => Ok(other),
    }
}

/// The name after a name.
fn next(id: ValueId) -> Result<ValueId, AllocError>
    ensures { IfOk result (λ n. n ≡ id + 1) }
{
    match id.checked_add(1) {
        Some(next) => Ok(next),
        None => Err(AllocError),
    }
}

/// Adds the instruction, with a save before it where it is a suspend that has none, and gives the name of the next save.
fn push_one(
    alloc: Global,
    all: &mut Items<Instr>,
    save: ValueId,
    instr: Instr,
) -> Result<ValueId, AllocError>
    ensures instrs { OnOk result (all.new ≡ all.old ++ early_one save instr) }
    ensures next { IfOk result (λ n. n ≡ after_one save instr) }
{
    if is_unsaved(&instr) {
        all.push(save_call(alloc, save)?)?;
        all.push(saved(alloc, save, instr)?)?;
        next(save)
    } else {
        all.push(instr)?;
        Ok(save)
    }
}

/// The instructions with saves written out, and the name of the next save.
pub fn early_instrs(
    alloc: Global,
    renaming: &Renaming,
    first: ValueId,
    instrs: &[Instr],
) -> Result<(Items<Instr>, ValueId), AllocError>
    ensures instrs { IfOk result (λ x. x.0 ≡ early_instrs renaming.now first instrs.now) }
    ensures next { IfOk result (λ x. x.1 ≡ after_instrs renaming.now first instrs.now) }
{
    let mut all = Items::new(alloc);
    let mut save = first;
    for instr in instrs {
        let instr = renaming.instr(alloc, instr)?;
        save = push_one(alloc, &mut all, save, instr)?;
    }
    Ok((all, save))
}

/// The names of so many saves.
#[tactic(auto, using(crate::proofs::Names::save_names_step))]
fn save_names(alloc: Global, count: usize) -> Result<Items<Name>, AllocError>
    ensures { IfOk result (λ x. x ≡ save_names count) }
{
    let mut names = Items::new(alloc);
    for k in 0..count {
        names.push(numbered_name(alloc, b"$c.save.", k)?)?;
    }
    Ok(names)
}

/// The names of a function, and behind them those of so many saves.
pub fn with_save_names(
    alloc: Global,
    names: &Items<Name>,
    count: usize,
) -> Result<Items<Name>, AllocError>
    ensures { IfOk result (λ x. x ≡ names.now ++ save_names count) }
{
    let mut all = names.copied(alloc)?;
    let saves = save_names(alloc, count)?;
    for name in saves.as_slice() {
        all.push(name.copied(alloc)?)?;
    }
    Ok(all)
}
