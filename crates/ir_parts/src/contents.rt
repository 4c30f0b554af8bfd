//! Tests of the types, operands and labels that stand in the parts of a function.

ghost use Rattle.std.specs.Prelude.{◌≡◌, ◌++◌, ◌∷◌, [], ℕ, Bool, IfOk, map, option_to_list};
ghost use Rattle.std.specs.List.{list_all};
ghost use Rattle.ir_model.specs.Ty.{Ty};
ghost use Rattle.ir_model.specs.declared.operand.Operand.{Operand as TheOperand};
ghost use Rattle.ir_parts.specs.Parts.{Signature};
ghost use Rattle.ir_parts.specs.Contents.{arg_types, instr_types, ending_types, part_types, return_types, arg_operands, callee_operands, instr_operands, ending_operands, return_operands, ending_labels};

use ir_model::ir_base_library::ValueId;
use ir_model::{Arg, Callee, Case, Function, Incoming, Instr, IrType, Operand, Param, Terminator};
use std::alloc::AllocError;

/// A test of types.
pub trait TypeTest: Sized {
    ghost type_passes: { Self → Ty → Bool };

    /// Whether the type passes.
    fn passes(&self, ty: &IrType) -> bool
        ensures { result ≡ type_passes self.now ty.now };
}

/// A test of operands.
pub trait OperandTest: Sized {
    ghost operand_passes: { Self → TheOperand → Bool };

    /// Whether the operand passes.
    fn passes(&self, operand: &Operand) -> Result<bool, AllocError>
        ensures { IfOk result (λ b. b ≡ operand_passes self.now operand.now) };
}

/// A test of labels.
pub trait LabelTest: Sized {
    ghost label_passes: { Self → ℕ → Bool };

    /// Whether the label passes.
    fn passes(&self, label: ValueId) -> bool
        ensures { result ≡ label_passes self.now label };
}

// ---- types

fn arg_types_pass<T: TypeTest>(test: &T, args: &[Arg]) -> bool
    ensures { result ≡ list_all (T.type_passes test.now) (arg_types args.now) }
{
    for arg in args {
        if !test.passes(&arg.ty) {
            return false;
        }
    }
    true
}

fn type_passes<T: TypeTest>(test: &T, ty: &Option<IrType>) -> bool
    ensures { result ≡ list_all (T.type_passes test.now) (option_to_list ty.now) }
{
    match ty {
        None => true,
        Some(ty) => test.passes(ty),
    }
}

/// Whether all types of an instruction pass.
pub fn instr_types_pass<T: TypeTest>(test: &T, instr: &Instr) -> bool
    ensures { result ≡ list_all (T.type_passes test.now) (instr_types instr.now) }
{
    match instr {
        Instr::Binary { ty, .. } => test.passes(ty),
        Instr::Icmp { ty, .. } => test.passes(ty),
        Instr::Select { yes, no, .. } => test.passes(&yes.ty) && test.passes(&no.ty),
        Instr::Cast { arg, to, .. } => test.passes(&arg.ty) && test.passes(to),
        Instr::Alloca { ty, .. } => test.passes(ty),
        Instr::Load { ty, .. } => test.passes(ty),
        Instr::Store { arg, .. } => test.passes(&arg.ty),
        Instr::Gep { ty, indices, .. } => {
            test.passes(ty) && arg_types_pass(test, indices.as_slice())
        }
        Instr::Call { ty, args, .. } => {
            type_passes(test, ty) && arg_types_pass(test, args.as_slice())
        }
    }
}

fn case_types_pass<T: TypeTest>(test: &T, cases: &[Case]) -> bool
    ensures { result ≡ list_all (T.type_passes test.now) (map (λ k. k.arg.ty) cases.now) }
{
    for case in cases {
        if !test.passes(&case.arg.ty) {
            return false;
        }
    }
    true
}

/// Whether all types of a terminator pass.
pub fn ending_types_pass<T: TypeTest>(test: &T, term: &Terminator) -> bool
    ensures { result ≡ list_all (T.type_passes test.now) (ending_types term.now) }
{
    match term {
        Terminator::Jump(_) => true,
        Terminator::Branch { .. } => true,
        Terminator::Switch { arg, cases, .. } => {
            test.passes(&arg.ty) && case_types_pass(test, cases.as_slice())
        }
        Terminator::Ret(None) => true,
        Terminator::Ret(Some(arg)) => test.passes(&arg.ty),
        Terminator::Unreachable => true,
    }
}

fn param_types_pass<T: TypeTest>(test: &T, params: &[Param]) -> bool
    ensures { result ≡ list_all (T.type_passes test.now) (map (λ p. p.ty) params.now) }
{
    for param in params {
        if !test.passes(&param.ty) {
            return false;
        }
    }
    true
}

/// Whether all types of a function's signature pass.
pub fn signature_types_pass<T: TypeTest>(test: &T, function: &Function) -> bool
    ensures { result ≡ list_all (T.type_passes test.now) (part_types (Signature function.now)) }
{
    type_passes(test, &function.result) && param_types_pass(test, function.params.as_slice())
}

/// Whether all of a list of types and of what a function gives pass.
pub fn types_pass<T: TypeTest>(test: &T, given: &Option<IrType>, types: &[IrType]) -> bool
    ensures { result ≡ list_all (T.type_passes test.now) (option_to_list given.now ++ types.now) }
{
    type_passes(test, given) && all_types_pass(test, types)
}

fn all_types_pass<T: TypeTest>(test: &T, types: &[IrType]) -> bool
    ensures { result ≡ list_all (T.type_passes test.now) types.now }
{
    for ty in types {
        if !test.passes(ty) {
            return false;
        }
    }
    true
}

// ---- operands

fn both_pass<T: OperandTest>(test: &T, left: &Operand, right: &Operand) -> Result<bool, AllocError>
    ensures { IfOk result (λ b. b ≡ list_all (T.operand_passes test.now) (left.now ∷ right.now ∷ [])) }
{
    Ok(test.passes(left)? && test.passes(right)?)
}

fn args_pass<T: OperandTest>(test: &T, args: &[Arg]) -> Result<bool, AllocError>
    ensures { IfOk result (λ b. b ≡ list_all (T.operand_passes test.now) (arg_operands args.now)) }
{
    for arg in args {
        if !test.passes(&arg.value)? {
            return Ok(false);
        }
    }
    Ok(true)
}

fn callee_passes<T: OperandTest>(test: &T, callee: &Callee) -> Result<bool, AllocError>
    ensures { IfOk result (λ b. b ≡ list_all (T.operand_passes test.now) (callee_operands callee.now)) }
{
    match callee {
        Callee::Local(id) => test.passes(&Operand::Local(*id)),
        _ => Ok(true),
    }
}

/// Whether all operands of an instruction pass.
pub fn instr_operands_pass<T: OperandTest>(test: &T, instr: &Instr) -> Result<bool, AllocError>
    ensures { IfOk result (λ b. b ≡ list_all (T.operand_passes test.now) (instr_operands instr.now)) }
{
    match instr {
        Instr::Binary { left, right, .. } => both_pass(test, left, right),
        Instr::Icmp { left, right, .. } => both_pass(test, left, right),
        Instr::Select { cond, yes, no, .. } => {
            Ok(test.passes(cond)? && both_pass(test, &yes.value, &no.value)?)
        }
        Instr::Cast { arg, .. } => test.passes(&arg.value),
        Instr::Alloca { .. } => Ok(true),
        Instr::Load { address, .. } => test.passes(address),
        Instr::Store { arg, address, .. } => both_pass(test, &arg.value, address),
        Instr::Gep { base, indices, .. } => {
            Ok(test.passes(base)? && args_pass(test, indices.as_slice())?)
        }
        Instr::Call { callee, args, .. } => {
            Ok(callee_passes(test, callee)? && args_pass(test, args.as_slice())?)
        }
    }
}

/// Whether all operands of a phi pass.
pub fn incoming_operands_pass<T: OperandTest>(
    test: &T,
    incoming: &[Incoming],
) -> Result<bool, AllocError>
    ensures { IfOk result (λ b. b ≡ list_all (T.operand_passes test.now) (map (λ i. i.value) incoming.now)) }
{
    for one in incoming {
        if !test.passes(&one.value)? {
            return Ok(false);
        }
    }
    Ok(true)
}

fn case_operands_pass<T: OperandTest>(test: &T, cases: &[Case]) -> Result<bool, AllocError>
    ensures { IfOk result (λ b. b ≡ list_all (T.operand_passes test.now) (map (λ k. k.arg.value) cases.now)) }
{
    for case in cases {
        if !test.passes(&case.arg.value)? {
            return Ok(false);
        }
    }
    Ok(true)
}

/// Whether all operands of a terminator pass.
pub fn ending_operands_pass<T: OperandTest>(test: &T, term: &Terminator) -> Result<bool, AllocError>
    ensures { IfOk result (λ b. b ≡ list_all (T.operand_passes test.now) (ending_operands term.now)) }
{
    match term {
        Terminator::Jump(_) => Ok(true),
        Terminator::Branch { cond, .. } => test.passes(cond),
        Terminator::Switch { arg, cases, .. } => {
            Ok(test.passes(&arg.value)? && case_operands_pass(test, cases.as_slice())?)
        }
        Terminator::Ret(None) => Ok(true),
        Terminator::Ret(Some(arg)) => test.passes(&arg.value),
        Terminator::Unreachable => Ok(true),
    }
}

// ---- labels

/// Whether all labels of a phi pass.
pub fn incoming_labels_pass<T: LabelTest>(test: &T, incoming: &[Incoming]) -> bool
    ensures { result ≡ list_all (T.label_passes test.now) (map (λ i. i.from) incoming.now) }
{
    for one in incoming {
        if !test.passes(one.from) {
            return false;
        }
    }
    true
}

fn case_labels_pass<T: LabelTest>(test: &T, cases: &[Case]) -> bool
    ensures { result ≡ list_all (T.label_passes test.now) (map (λ k. k.target) cases.now) }
{
    for case in cases {
        if !test.passes(case.target) {
            return false;
        }
    }
    true
}

/// Whether all labels of a terminator pass.
pub fn ending_labels_pass<T: LabelTest>(test: &T, term: &Terminator) -> bool
    ensures { result ≡ list_all (T.label_passes test.now) (ending_labels term.now) }
{
    match term {
        Terminator::Jump(label) => test.passes(*label),
        Terminator::Branch { yes, no, .. } => test.passes(*yes) && test.passes(*no),
        Terminator::Switch { default, cases, .. } => {
            test.passes(*default) && case_labels_pass(test, cases.as_slice())
        }
        Terminator::Ret(_) => true,
        Terminator::Unreachable => true,
    }
}
