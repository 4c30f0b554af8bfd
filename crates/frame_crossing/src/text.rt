//! Words of what stands in a function's text: a bit for each value of a chunk of 64.

ghost use Rattle.std.specs.Prelude.{◌≡◌, ◌<◌, ◌++◌, IfOk, IfSome, map};
ghost use Rattle.rule_uses.specs.flow_blocks.Words.{word_at as word_of_node};
ghost use Rattle.rule_uses.specs.Questions.{bit_of as bit_of_value, block_word as word_of_block, has_bit as has_bit_of, instrs_word as word_of_instrs, phis_word as word_of_phis, result_word as word_with, value_word as word_of_value};
ghost use Rattle.ir_parts.specs.Contents.{arg_operands, callee_operands, ending_operands, instr_operands, result_of as result_of_instr};
ghost use Rattle.frame_crossing.specs.Words.{block_open as open_of_block, open_word as word_of_open, operands_word, params_word as word_of_params, without as without_bits};
ghost use Rattle.rule_uses.specs.Uses.{local_of};

use ir_base::{Items, ValueId};
use ir_model::{Arg, Block, Callee, Case, Instr, Operand, Param, Phi, Terminator};
use ir_parts::result_of;
use std::alloc::{AllocError, Global};

// ---- words

/// Which bit of a chunk is the value's.
fn bit_of(numbers: &Items<Option<usize>>, chunk: usize, value: ValueId) -> Option<usize>
    ensures value { result ≡ bit_of_value numbers.now chunk value }
    ensures below { IfSome result (λ c. c < 64) }
{
    match numbers.get(value) {
        Some(Some(number)) => {
            if *number / 64 == chunk {
                Some(*number % 64)
            } else {
                None
            }
        }
        _ => None,
    }
}

/// The word with the value's bit alone, empty where the value isn't of the chunk.
pub fn value_word(numbers: &Items<Option<usize>>, chunk: usize, value: ValueId) -> u64
    ensures { result ≡ word_of_value numbers.now chunk value }
{
    match bit_of(numbers, chunk, value) {
        None => 0,
        Some(bit) => 1 << bit,
    }
}

/// The word of a node, empty where there is none.
pub fn word_at(words: &[u64], at: usize) -> u64
    ensures { result ≡ word_of_node words.now at }
{
    match words.get(at) {
        None => 0,
        Some(word) => *word,
    }
}

/// The bits of a word that the other hasn't.
pub fn without(word: u64, other: u64) -> u64
    ensures { result ≡ without_bits word other }
{
    word & (other ^ u64::MAX)
}

/// Whether a word has a bit.
pub fn has_bit(word: u64, bit: usize) -> bool
    requires { bit < 64 }
    ensures { result ≡ has_bit_of word bit }
{
    (word >> bit) & 1 == 1
}

// ---- what is made

/// The word with the bits of parameters.
pub fn params_word(numbers: &Items<Option<usize>>, chunk: usize, params: &[Param]) -> u64
    ensures { result ≡ word_of_params numbers.now chunk 0 params.now }
{
    let mut word = 0;
    for param in params {
        word |= value_word(numbers, chunk, param.name);
    }
    word
}

/// A word with the bits of phis.
pub fn phis_word(numbers: &Items<Option<usize>>, chunk: usize, first: u64, phis: &[Phi]) -> u64
    ensures { result ≡ word_of_phis numbers.now chunk first phis.now }
{
    let mut word = first;
    for phi in phis {
        word |= value_word(numbers, chunk, phi.result);
    }
    word
}

fn word_with(numbers: &Items<Option<usize>>, chunk: usize, word: u64, value: Option<ValueId>) -> u64
    ensures { result ≡ word_with numbers.now chunk word value }
{
    match value {
        None => word,
        Some(value) => word | value_word(numbers, chunk, value),
    }
}

/// A word with the bit of an instruction's result.
pub fn result_word(numbers: &Items<Option<usize>>, chunk: usize, word: u64, instr: &Instr) -> u64
    ensures { result ≡ word_with numbers.now chunk word (result_of_instr instr.now) }
{
    word_with(numbers, chunk, word, result_of(instr))
}

fn instrs_word(numbers: &Items<Option<usize>>, chunk: usize, first: u64, instrs: &[Instr]) -> u64
    ensures { result ≡ word_of_instrs numbers.now chunk first instrs.now }
{
    let mut word = first;
    for instr in instrs {
        word = result_word(numbers, chunk, word, instr);
    }
    word
}

fn block_word(numbers: &Items<Option<usize>>, chunk: usize, block: &Block) -> u64
    ensures { result ≡ word_of_block numbers.now chunk block.now }
{
    let phis = phis_word(numbers, chunk, 0, block.phis.as_slice());
    instrs_word(numbers, chunk, phis, block.instrs.as_slice())
}

/// For each block the word of what it makes.
pub fn made_words(
    alloc: Global,
    numbers: &Items<Option<usize>>,
    chunk: usize,
    blocks: &[Block],
) -> Result<Vec<u64>, AllocError>
    ensures { IfOk result (λ words. words.items ≡ map (word_of_block numbers.now chunk) blocks.now) }
{
    let mut words = Vec::new(alloc);
    for block in blocks {
        words.push(block_word(numbers, chunk, block))?;
    }
    Ok(words)
}

// ---- what is used

fn operand_word(numbers: &Items<Option<usize>>, chunk: usize, word: u64, operand: &Operand) -> u64
    ensures { result ≡ word_with numbers.now chunk word (local_of operand.now) }
{
    match operand {
        Operand::Local(value) => word | value_word(numbers, chunk, *value),
        _ => word,
    }
}

fn args_word(numbers: &Items<Option<usize>>, chunk: usize, first: u64, args: &[Arg]) -> u64
    ensures { result ≡ operands_word numbers.now chunk first (arg_operands args.now) }
{
    let mut word = first;
    for arg in args {
        word = operand_word(numbers, chunk, word, &arg.value);
    }
    word
}

fn cases_word(numbers: &Items<Option<usize>>, chunk: usize, first: u64, cases: &[Case]) -> u64
    ensures { result ≡ operands_word numbers.now chunk first (map (λ k. k.arg.value) cases.now) }
{
    let mut word = first;
    for case in cases {
        word = operand_word(numbers, chunk, word, &case.arg.value);
    }
    word
}

fn two_word(
    numbers: &Items<Option<usize>>,
    chunk: usize,
    word: u64,
    left: &Operand,
    right: &Operand,
) -> u64
    ensures { result ≡ word_with numbers.now chunk (word_with numbers.now chunk word (local_of left.now)) (local_of right.now) }
{
    let first = operand_word(numbers, chunk, word, left);
    operand_word(numbers, chunk, first, right)
}

fn callee_word(numbers: &Items<Option<usize>>, chunk: usize, callee: &Callee) -> u64
    ensures { result ≡ operands_word numbers.now chunk 0 (callee_operands callee.now) }
{
    match callee {
        Callee::Local(value) => word_with(numbers, chunk, 0, Some(*value)),
        _ => 0,
    }
}

#[tactic(auto, using(crate::proofs::Operands::operands_word_append))]
fn call_word(numbers: &Items<Option<usize>>, chunk: usize, callee: &Callee, args: &[Arg]) -> u64
    ensures { result ≡ operands_word numbers.now chunk 0 (callee_operands callee.now ++ arg_operands args.now) }
{
    let first = callee_word(numbers, chunk, callee);
    args_word(numbers, chunk, first, args)
}

/// The word of what an instruction uses.
fn instr_uses(numbers: &Items<Option<usize>>, chunk: usize, instr: &Instr) -> u64
    ensures { result ≡ operands_word numbers.now chunk 0 (instr_operands instr.now) }
{
    match instr {
        Instr::Binary { left, right, .. } => two_word(numbers, chunk, 0, left, right),
        Instr::Icmp { left, right, .. } => two_word(numbers, chunk, 0, left, right),
        Instr::Select { cond, yes, no, .. } => {
            let first = operand_word(numbers, chunk, 0, cond);
            two_word(numbers, chunk, first, &yes.value, &no.value)
        }
        Instr::Cast { arg, .. } => operand_word(numbers, chunk, 0, &arg.value),
        Instr::Alloca { .. } => 0,
        Instr::Load { address, .. } => operand_word(numbers, chunk, 0, address),
        Instr::Store { arg, address, .. } => two_word(numbers, chunk, 0, &arg.value, address),
        Instr::Gep { base, indices, .. } => {
            let first = operand_word(numbers, chunk, 0, base);
            args_word(numbers, chunk, first, indices.as_slice())
        }
        Instr::Call { callee, args, .. } => call_word(numbers, chunk, callee, args.as_slice()),
    }
}

/// The word of what a terminator uses.
fn ending_uses(numbers: &Items<Option<usize>>, chunk: usize, term: &Terminator) -> u64
    ensures { result ≡ operands_word numbers.now chunk 0 (ending_operands term.now) }
{
    match term {
        Terminator::Jump(_) => 0,
        Terminator::Branch { cond, .. } => operand_word(numbers, chunk, 0, cond),
        Terminator::Switch { arg, cases, .. } => {
            let first = operand_word(numbers, chunk, 0, &arg.value);
            cases_word(numbers, chunk, first, cases.as_slice())
        }
        Terminator::Ret(None) => 0,
        Terminator::Ret(Some(arg)) => operand_word(numbers, chunk, 0, &arg.value),
        Terminator::Unreachable => 0,
    }
}

/// The word of what instructions and a terminator use that isn't made before.
fn open_word(
    numbers: &Items<Option<usize>>,
    chunk: usize,
    phis: u64,
    instrs: &[Instr],
    term: &Terminator,
) -> u64
    ensures { result ≡ word_of_open numbers.now chunk phis 0 instrs.now term.now }
{
    let mut made = phis;
    let mut found = 0;
    for instr in instrs {
        found |= without(instr_uses(numbers, chunk, instr), made);
        made = result_word(numbers, chunk, made, instr);
    }
    found | without(ending_uses(numbers, chunk, term), made)
}

/// The word of what a block uses before making it.
pub fn block_open(numbers: &Items<Option<usize>>, chunk: usize, block: &Block) -> u64
    ensures { result ≡ open_of_block numbers.now chunk block.now }
{
    let phis = phis_word(numbers, chunk, 0, block.phis.as_slice());
    open_word(numbers, chunk, phis, block.instrs.as_slice(), &block.term)
}

/// For each block the word of what it uses before making it.
pub fn open_words(
    alloc: Global,
    numbers: &Items<Option<usize>>,
    chunk: usize,
    blocks: &[Block],
) -> Result<Vec<u64>, AllocError>
    ensures { IfOk result (λ words. words.items ≡ map (open_of_block numbers.now chunk) blocks.now) }
{
    let mut words = Vec::new(alloc);
    for block in blocks {
        words.push(block_open(numbers, chunk, block))?;
    }
    Ok(words)
}
