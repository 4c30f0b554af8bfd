//! One instruction.

ghost use Rattle.std.specs.Prelude.{◌≡◌, ℕ, IfOk, OnErr, IsTrue, IsFalse, not};
ghost use Rattle.ir_model.specs.declared.module.Function.{Function as TheFunction};
ghost use Rattle.run_memory.specs.Memory.{Rights};
ghost use Rattle.ir_model.specs.declared.instr.Instr.{Instr as TheInstr};
ghost use Rattle.run_step.specs.declared.world.World.{World as TheWorld};
ghost use Rattle.run_step.specs.Step.{instr_action, done, set_value, compared as compared_values, Context as TheContext, Work};
ghost use Rattle.run_step.specs.Effects.{IsEffect, context, is_alloca, is_new_slot, work};

use crate::call::call;
use crate::memory_step::{give, load, settle, settle_number, store};
use ir_base::{BinOp, Cause, Flags, Pred, ValueId};
use ir_model::{Instr, IrType, Node, Operand};
use run_memory::{AccessRights, Memory, Value};
use run_step::{
    Effect, Program, Values, World, by, choose, compare_at, compute, converted, from_number, moved,
    to_address, truth,
};
use std::alloc::{AllocError, Global};

/// A binary operation.
fn binary(
    program: &Program,
    values: &mut Values,
    name: ValueId,
    op: BinOp,
    flags: Flags,
    ty: &IrType,
    left: &Operand,
    right: &Operand,
) -> Effect
    ensures no_slot { IsFalse (is_new_slot result) }
    ensures done { (rights : Rights) (f : TheFunction) (world : TheWorld) → IsEffect result (work world values.old) (work world values.new) (instr_action (context program.now.«module» program.now.answers rights f) (work world values.old) (TheInstr.Binary name op flags ty.now left.now right.now)) }
{
    let left = program.value_of(values, ty, left);
    let right = program.value_of(values, ty, right);
    let outcome = compute(op, flags, ty, left, right);
    settle_number(values, name, outcome)
}

/// A comparison of two values of a type.
fn compared<R: AccessRights>(
    rights: &R,
    memory: &Memory,
    pred: Pred,
    ty: &IrType,
    left: Value,
    right: Value,
) -> Result<Value, Cause>
    ensures { (c : TheContext) (w : Work) (name : ℕ) → c.rights ≡ R.rights rights.now → w.world.memory ≡ memory.now → done (λ v. set_value w name v) result ≡ compared_values c w name pred ty.now left right }
{
    match ty.node() {
        Node::Int(width) => Ok(from_number(compare_at(*width, pred, left, right))),
        _ => match memory.compare_with(rights, to_address(left), to_address(right)) {
            Ok(same) => Ok(truth(by(pred, same))),
            Err(cause) => Err(cause),
        },
    }
}

/// A comparison.
fn icmp<R: AccessRights>(
    program: &Program,
    rights: &R,
    world: &World,
    values: &mut Values,
    name: ValueId,
    pred: Pred,
    ty: &IrType,
    left: &Operand,
    right: &Operand,
) -> Effect
    ensures no_slot { IsFalse (is_new_slot result) }
    ensures done { (f : TheFunction) → IsEffect result (work world.now values.old) (work world.now values.new) (instr_action (context program.now.«module» program.now.answers (R.rights rights.now) f) (work world.now values.old) (TheInstr.Icmp name pred ty.now left.now right.now)) }
{
    let left = program.value_of(values, ty, left);
    let right = program.value_of(values, ty, right);
    let outcome = compared(rights, &world.memory, pred, ty, left, right);
    settle(values, name, outcome)
}

/// Executes an instruction that is no alloca. Where it finds no memory the world and the values stay as they were.
pub fn execute<R: AccessRights>(
    alloc: Global,
    program: &Program,
    rights: &R,
    world: &mut World,
    values: &mut Values,
    instr: &Instr,
) -> Result<Effect, AllocError>
    requires { IsTrue (not (is_alloca instr.now)) }
    ensures done { (f : TheFunction) → IfOk result (λ e. IsEffect e (work world.old values.old) (work world.new values.new) (instr_action (context program.now.«module» program.now.answers (R.rights rights.now) f) (work world.old values.old) instr.now)) }
    ensures no_slot { IfOk result (λ e. IsFalse (is_new_slot e)) }
    ensures kept { OnErr result (work world.new values.new ≡ work world.old values.old) }
{
    match instr {
        Instr::Binary {
            result,
            op,
            flags,
            ty,
            left,
            right,
        } => Ok(binary(program, values, *result, *op, *flags, ty, left, right)),
        Instr::Icmp {
            result,
            pred,
            ty,
            left,
            right,
        } => Ok(icmp(
            program, rights, world, values, *result, *pred, ty, left, right,
        )),
        Instr::Select {
            result,
            cond,
            yes,
            no,
        } => {
            let condition = program.condition_in(values, cond);
            let yes = program.value_of_arg(values, yes);
            let no = program.value_of_arg(values, no);
            Ok(give(values, *result, choose(condition, yes, no)))
        }
        Instr::Cast {
            result,
            op,
            nneg,
            arg,
            to,
        } => {
            let value = program.value_of_arg(values, arg);
            Ok(give(values, *result, converted(*op, *nneg, &arg.ty, value, to)))
        }
        Instr::Alloca { .. } => unreachable!(),
        Instr::Load {
            result,
            ty,
            address,
            align,
        } => Ok(load(program, rights, world, values, *result, ty, address, *align)),
        Instr::Store {
            arg,
            address,
            align,
        } => Ok(store(program, rights, world, values, arg, address, *align)),
        Instr::Gep {
            result,
            inbounds,
            ty,
            base,
            indices,
        } => {
            let base = program.pointer_in(values, base);
            let distance = program.distance(values, ty, indices.as_slice());
            Ok(give(
                values,
                *result,
                moved(&world.memory, *inbounds, base, distance),
            ))
        }
        Instr::Call {
            result,
            must_tail,
            ty,
            callee,
            args,
        } => call(
            alloc,
            program,
            rights,
            world,
            values,
            *result,
            *must_tail,
            ty,
            callee,
            args.as_slice(),
        ),
    }
}
