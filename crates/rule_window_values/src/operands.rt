//! The questions of the values that instructions and terminators use.

ghost use Rattle.std.specs.Prelude.{◌≡◌, ◌++◌, map};
ghost use Rattle.rule_uses.specs.Questions.{result_word as word_with};
ghost use Rattle.rule_uses.specs.Uses.{local_of as local_of_operand};
ghost use Rattle.ir_parts.specs.Contents.{arg_operands, callee_operands, ending_operands, instr_operands};
ghost use Rattle.rule_window_values.specs.Words.{operands_word};

use crate::words::value_word;
use ir_base::Items;
use ir_model::{Arg, Callee, Case, Instr, Operand, Terminator};

/// A word with the question of an operand's value.
pub fn with_operand(
    numbers: &Items<Option<usize>>,
    chunk: usize,
    word: u64,
    operand: &Operand,
) -> u64
    ensures { result ≡ word_with numbers.now chunk word (local_of_operand operand.now) }
{
    match operand {
        Operand::Local(value) => word | value_word(numbers, chunk, *value),
        _ => word,
    }
}

fn with_args(numbers: &Items<Option<usize>>, chunk: usize, first: u64, args: &[Arg]) -> u64
    ensures { result ≡ operands_word numbers.now chunk first (arg_operands args.now) }
{
    let mut word = first;
    for arg in args {
        word = with_operand(numbers, chunk, word, &arg.value);
    }
    word
}

fn with_cases(numbers: &Items<Option<usize>>, chunk: usize, first: u64, cases: &[Case]) -> u64
    ensures { result ≡ operands_word numbers.now chunk first (map (λ k. k.arg.value) cases.now) }
{
    let mut word = first;
    for case in cases {
        word = with_operand(numbers, chunk, word, &case.arg.value);
    }
    word
}

fn call_word(numbers: &Items<Option<usize>>, chunk: usize, callee: &Callee, args: &[Arg]) -> u64
    ensures { result ≡ operands_word numbers.now chunk 0 (callee_operands callee.now ++ arg_operands args.now) }
{
    match callee {
        Callee::Local(value) => with_args(numbers, chunk, value_word(numbers, chunk, *value), args),
        _ => with_args(numbers, chunk, 0, args),
    }
}

fn two_word(numbers: &Items<Option<usize>>, chunk: usize, left: &Operand, right: &Operand) -> u64
    ensures { result ≡ word_with numbers.now chunk (word_with numbers.now chunk 0 (local_of_operand left.now)) (local_of_operand right.now) }
{
    let word = with_operand(numbers, chunk, 0, left);
    with_operand(numbers, chunk, word, right)
}

/// The questions of the values that an instruction uses.
pub fn instr_word(numbers: &Items<Option<usize>>, chunk: usize, instr: &Instr) -> u64
    ensures { result ≡ operands_word numbers.now chunk 0 (instr_operands instr.now) }
{
    match instr {
        Instr::Binary { left, right, .. } => two_word(numbers, chunk, left, right),
        Instr::Icmp { left, right, .. } => two_word(numbers, chunk, left, right),
        Instr::Select { cond, yes, no, .. } => {
            let word = two_word(numbers, chunk, cond, &yes.value);
            with_operand(numbers, chunk, word, &no.value)
        }
        Instr::Cast { arg, .. } => with_operand(numbers, chunk, 0, &arg.value),
        Instr::Alloca { .. } => 0,
        Instr::Load { address, .. } => with_operand(numbers, chunk, 0, address),
        Instr::Store { arg, address, .. } => two_word(numbers, chunk, &arg.value, address),
        Instr::Gep { base, indices, .. } => {
            let word = with_operand(numbers, chunk, 0, base);
            with_args(numbers, chunk, word, indices.as_slice())
        }
        Instr::Call { callee, args, .. } => call_word(numbers, chunk, callee, args.as_slice()),
    }
}

/// The questions of the values that a terminator uses.
pub fn ending_word(numbers: &Items<Option<usize>>, chunk: usize, term: &Terminator) -> u64
    ensures { result ≡ operands_word numbers.now chunk 0 (ending_operands term.now) }
{
    match term {
        Terminator::Jump(_) => 0,
        Terminator::Branch { cond, .. } => with_operand(numbers, chunk, 0, cond),
        Terminator::Switch { arg, cases, .. } => {
            let word = with_operand(numbers, chunk, 0, &arg.value);
            with_cases(numbers, chunk, word, cases.as_slice())
        }
        Terminator::Ret(None) => 0,
        Terminator::Ret(Some(arg)) => with_operand(numbers, chunk, 0, &arg.value),
        Terminator::Unreachable => 0,
    }
}
