//! The calls of a coroutine's intrinsics.

ghost use Rattle.std.specs.Prelude.{◌≡◌, Bool, MatchOption, None, Some, slice_get};
ghost use Rattle.ir_paths.specs.ir_model.declared.operand.Operand.{Operand as TheOperand};
ghost use Rattle.ir_paths.specs.ir_model.declared.instr.Instr.{Instr as TheInstr};
ghost use Rattle.ir_paths.specs.Windows.{is_number, is_call_of as is_call, call_result as result_of, operand_at as operand_in};
ghost use Rattle.ir_calls.specs.Calls.{first_call_in, first_call_by, first_call as first_call_to, value_of_first as first_value, is_value as is_the_value, is_null as is_null_operand, is_true as is_true_operand, is_second_true, is_final};

use ir_paths::ir_base_library::ValueId;
use ir_paths::ir_model_library::{
    Arg, Block, Callee, Function, Instr, Intrinsic, Operand, is_same_intrinsic,
};

/// A test of instructions.
pub trait InstrTest: Sized {
    ghost instr_passes: { Self → TheInstr → Bool };

    /// Whether the instruction passes.
    fn passes(&self, instr: &Instr) -> bool
        ensures { result ≡ instr_passes self.now instr.now };
}

/// The test for calls of an intrinsic.
#[derive(Clone, Copy, Debug, Drop)]
pub struct CallOf {
    pub intrinsic: Intrinsic,
}

impl InstrTest for CallOf {
    ghost instr_passes = { λ t. is_call t.intrinsic };

    fn passes(&self, instr: &Instr) -> bool {
        is_call_of(self.intrinsic, instr)
    }
}

/// Whether the instruction is a call of the intrinsic.
pub fn is_call_of(intrinsic: Intrinsic, instr: &Instr) -> bool
    ensures { result ≡ is_call intrinsic instr.now }
{
    match instr {
        Instr::Call {
            callee: Callee::Intrinsic(called),
            ..
        } => is_same_intrinsic(intrinsic, *called),
        _ => false,
    }
}

/// The name of a call's result, where it has one.
pub fn call_result(instr: &Instr) -> Option<ValueId>
    ensures { result ≡ result_of instr.now }
{
    match instr {
        Instr::Call { result: id, .. } => *id,
        _ => None,
    }
}

fn first_call_in(intrinsic: Intrinsic, instrs: &[Instr]) -> Option<&Instr>
    ensures { MatchOption result (first_call_in intrinsic instrs.now ≡ None) (λ i. first_call_in intrinsic instrs.now ≡ Some i.now) }
{
    for instr in instrs {
        if is_call_of(intrinsic, instr) {
            return Some(instr);
        }
    }
    None
}

fn first_call_by(intrinsic: Intrinsic, blocks: &[Block]) -> Option<&Instr>
    ensures { MatchOption result (first_call_by intrinsic blocks.now ≡ None) (λ i. first_call_by intrinsic blocks.now ≡ Some i.now) }
{
    for block in blocks {
        if let Some(instr) = first_call_in(intrinsic, block.instrs.as_slice()) {
            return Some(instr);
        }
    }
    None
}

/// The function's first call of the intrinsic, in order of the text.
pub fn first_call(intrinsic: Intrinsic, function: &Function) -> Option<&Instr>
    ensures { MatchOption result (first_call_to intrinsic function.now ≡ None) (λ i. first_call_to intrinsic function.now ≡ Some i.now) }
{
    first_call_by(intrinsic, function.blocks.as_slice())
}

/// The result of the function's first call of the intrinsic, where it has one.
pub fn value_of_first(intrinsic: Intrinsic, function: &Function) -> Option<ValueId>
    ensures { result ≡ first_value intrinsic function.now }
{
    match first_call(intrinsic, function) {
        None => None,
        Some(instr) => call_result(instr),
    }
}

fn arg_at(args: &[Arg], at: usize) -> Option<&Arg>
    ensures { MatchOption result (slice_get args.now at ≡ None) (λ x. slice_get args.now at ≡ Some x.now) }
{
    args.get(at)
}

/// The operand at a position, where there is one.
pub fn operand_of(args: &[Arg], at: usize) -> Option<&Operand>
    ensures { MatchOption result (operand_in args.now at ≡ TheOperand.None) (λ x. operand_in args.now at ≡ x.now) }
{
    match arg_at(args, at) {
        None => None,
        Some(arg) => Some(&arg.value),
    }
}

/// Whether the operand is this value.
pub fn is_value(value: Option<ValueId>, operand: &Operand) -> bool
    ensures { result ≡ is_the_value value operand.now }
{
    match (value, operand) {
        (Some(id), Operand::Local(local)) => id == *local,
        _ => false,
    }
}

/// Whether the operand is null.
pub fn is_null(operand: &Operand) -> bool
    ensures { result ≡ is_null_operand operand.now }
{
    matches!(operand, Operand::Null)
}

/// Whether the operand is the constant true of type i1, whose literals may also be 1 and -1.
pub fn is_true(operand: &Operand) -> bool
    ensures { result ≡ is_true_operand operand.now }
{
    match operand {
        Operand::True => true,
        Operand::Number(number) => *number == 1 || *number == -1,
        _ => false,
    }
}

/// Whether the operand is the number.
pub fn is_number(number: u64, operand: &Operand) -> bool
    ensures { result ≡ is_number number operand.now }
{
    match operand {
        Operand::Number(n) => *n == i128::from(number),
        _ => false,
    }
}

fn is_second_true(args: &[Arg]) -> bool
    ensures { result ≡ is_second_true args.now }
{
    match operand_of(args, 1) {
        None => false,
        Some(operand) => is_true(operand),
    }
}

/// Whether the second operand of a call is true: of a suspend, whether it is final.
pub fn is_final(instr: &Instr) -> bool
    ensures { result ≡ is_final instr.now }
{
    match instr {
        Instr::Call { args, .. } => is_second_true(args.as_slice()),
        _ => false,
    }
}
