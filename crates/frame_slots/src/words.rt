//! The words of names, and of what takes them.

ghost use Rattle.std.specs.Prelude.{◌≡◌, if◌then◌else◌};
ghost use Rattle.ir_paths.specs.Slots.{is_memcpy as is_memcpy_callee, is_no_use as is_no_use_callee};
ghost use Rattle.frame_slots.specs.Uses.{is_no_use_in as is_no_use_instr};
ghost use Rattle.frame_slots.specs.Words.{callee_word as word_of_callee, exposed as exposed_by, name_word as word_of_name, occurring as occurring_in, used as used_by, with_args as word_with_args, with_operand as word_with_operand, with_term as word_with_term};

use ir_base::ValueId;
use ir_model::{Arg, Callee, Instr, Intrinsic, Operand, Terminator};

/// The word of a name, empty where there is none.
pub fn name_word(words: &[u64], name: ValueId) -> u64
    ensures { result ≡ word_of_name words.now name }
{
    match words.get(name) {
        None => 0,
        Some(word) => *word,
    }
}

/// A word with that of an operand's name.
pub fn with_operand(words: &[u64], word: u64, operand: &Operand) -> u64
    ensures { result ≡ word_with_operand words.now word operand.now }
{
    match operand {
        Operand::Local(name) => word | name_word(words, *name),
        _ => word,
    }
}

fn with_args(words: &[u64], first: u64, args: &[Arg]) -> u64
    ensures { result ≡ word_with_args words.now first args.now }
{
    let mut word = first;
    for arg in args {
        word = with_operand(words, word, &arg.value);
    }
    word
}

fn with_two(words: &[u64], left: &Operand, right: &Operand) -> u64
    ensures { result ≡ word_with_operand words.now (word_with_operand words.now 0 left.now) right.now }
{
    let first = with_operand(words, 0, left);
    with_operand(words, first, right)
}

fn callee_word(words: &[u64], callee: &Callee) -> u64
    ensures { result ≡ word_of_callee words.now callee.now }
{
    match callee {
        Callee::Local(name) => name_word(words, *name),
        _ => 0,
    }
}

/// The word of the names that are operands of an instruction.
fn occurring(words: &[u64], instr: &Instr) -> u64
    ensures { result ≡ occurring_in words.now instr.now }
{
    match instr {
        Instr::Binary { left, right, .. } => with_two(words, left, right),
        Instr::Icmp { left, right, .. } => with_two(words, left, right),
        Instr::Select { cond, yes, no, .. } => {
            let first = with_two(words, cond, &yes.value);
            with_operand(words, first, &no.value)
        }
        Instr::Cast { arg, .. } => with_operand(words, 0, &arg.value),
        Instr::Alloca { .. } => 0,
        Instr::Load { address, .. } => with_operand(words, 0, address),
        Instr::Store { arg, address, .. } => with_two(words, &arg.value, address),
        Instr::Gep { base, indices, .. } => {
            let first = with_operand(words, 0, base);
            with_args(words, first, indices.as_slice())
        }
        Instr::Call { callee, args, .. } => {
            with_args(words, callee_word(words, callee), args.as_slice())
        }
    }
}

fn is_no_use(callee: &Callee) -> bool
    ensures { result ≡ is_no_use_callee callee.now }
{
    matches!(
        callee,
        Callee::Intrinsic(Intrinsic::LifetimeStart | Intrinsic::LifetimeEnd | Intrinsic::CoroId)
    )
}

fn is_memcpy(callee: &Callee) -> bool
    ensures { result ≡ is_memcpy_callee callee.now }
{
    matches!(
        callee,
        Callee::Intrinsic(Intrinsic::MemcpyI64 | Intrinsic::MemcpyI32)
    )
}

fn is_no_use_in(instr: &Instr) -> bool
    ensures { result ≡ is_no_use_instr instr.now }
{
    match instr {
        Instr::Call { callee, .. } => is_no_use(callee),
        _ => false,
    }
}

/// The word of the names that an instruction uses: all that are its operands, and none of a marker or of coro.id.
pub fn used(words: &[u64], instr: &Instr) -> u64
    ensures { result ≡ used_by words.now instr.now }
{
    if is_no_use_in(instr) {
        0
    } else {
        occurring(words, instr)
    }
}

fn exposed_by_call(words: &[u64], callee: &Callee, args: &[Arg]) -> u64
    ensures { result ≡ (if is_no_use_callee callee.now then 0 else if is_memcpy_callee callee.now then 0 else word_with_args words.now (word_of_callee words.now callee.now) args.now) }
{
    if is_no_use(callee) || is_memcpy(callee) {
        0
    } else {
        with_args(words, callee_word(words, callee), args)
    }
}

/// The word of the names that an instruction takes otherwise than as the address of a load, store or memcpy, as the base of
/// a getelementptr, in a marker or in coro.id.
pub fn exposed(words: &[u64], instr: &Instr) -> u64
    ensures { result ≡ exposed_by words.now instr.now }
{
    match instr {
        Instr::Load { .. } => 0,
        Instr::Store { arg, .. } => with_operand(words, 0, &arg.value),
        Instr::Gep { indices, .. } => with_args(words, 0, indices.as_slice()),
        Instr::Call { callee, args, .. } => exposed_by_call(words, callee, args.as_slice()),
        _ => occurring(words, instr),
    }
}

/// A word with those of the names that a terminator takes.
pub fn with_term(words: &[u64], word: u64, term: &Terminator) -> u64
    ensures { result ≡ word_with_term words.now word term.now }
{
    match term {
        Terminator::Jump(_) => word,
        Terminator::Branch { cond, .. } => with_operand(words, word, cond),
        Terminator::Switch { arg, .. } => with_operand(words, word, &arg.value),
        Terminator::Ret(None) => word,
        Terminator::Ret(Some(arg)) => with_operand(words, word, &arg.value),
        Terminator::Unreachable => word,
    }
}
