//! The values of switches.

ghost use Rattle.std.specs.Prelude.{◌≡◌, ◌==◌, ◌||◌, ◌≤◌, [], ℕ, IfOk, OnOk, map, is_some};
ghost use Rattle.std.specs.List.{list_all};
ghost use Rattle.indexmap.specs.IndexMap.{get};
ghost use Rattle.ir_locals.specs.Tables.{noted};
ghost use Rattle.rule_values.specs.Switches.{is_constant, bits_in, word_in, case_word, any_twice, fits_case, fits_switch};

use crate::fits::{fits_arg, fits_integer, is_same_type};
use crate::instrs::Kinds;
use crate::kinds::width_bits;
use indexmap::IndexMap;
use ir_model::{Arg, Case, IrType, Node, Operand};
use run_ints::cut_signed;
use std::alloc::{AllocError, Global};

/// The words that were seen.
type WordSet = IndexMap<u64, bool>;

fn is_constant(operand: &Operand) -> bool
    ensures { result ≡ is_constant operand.now }
{
    matches!(operand, Operand::Number(_) | Operand::True | Operand::False)
}

fn bits_in(ty: &IrType) -> u32
    ensures value { result ≡ bits_in ty.now }
    ensures narrow { result ≤ 64 }
{
    match ty.node() {
        Node::Int(width) => width_bits(*width),
        _ => 0,
    }
}

fn word_in(bits: u32, operand: &Operand) -> u64
    requires { bits ≤ 64 }
    ensures { result ≡ word_in bits operand.now }
{
    match operand {
        Operand::Number(number) => cut_signed(bits, *number),
        Operand::True => 1,
        _ => 0,
    }
}

fn all_fit(kinds: &Kinds, ty: &IrType, cases: &[Case]) -> bool
    ensures { result ≡ list_all (fits_case (noted kinds.now) ty.now) cases.now }
{
    for case in cases {
        let fits = is_same_type(&case.arg.ty, ty)
            && (is_constant(&case.arg.value) && fits_arg(kinds, &case.arg));
        if !fits {
            return false;
        }
    }
    true
}

fn has(seen: &WordSet, word: u64) -> bool
    ensures { result ≡ is_some (get ◌==◌ seen.now word) }
{
    seen.get(&word).is_some()
}

fn add(seen: &mut WordSet, word: u64) -> Result<(), AllocError>
    ensures { OnOk result ((w : ℕ) → is_some (get ◌==◌ seen.new w) ≡ ((word == w) || is_some (get ◌==◌ seen.old w))) }
{
    seen.insert(word, true)?;
    Ok(())
}

/// Whether a word stands among the values twice.
fn any_twice(alloc: Global, bits: u32, cases: &[Case]) -> Result<bool, AllocError>
    requires { bits ≤ 64 }
    ensures { IfOk result (λ b. b ≡ any_twice [] (map (case_word bits) cases.now)) }
{
    let mut seen = IndexMap::new(alloc);
    for case in cases {
        let word = word_in(bits, &case.arg.value);
        if has(&seen, word) {
            return Ok(true);
        }
        add(&mut seen, word)?;
    }
    Ok(false)
}

/// Whether a switch is on an integer, by values of its type that are literals, `true` or `false`, no word of them twice.
pub fn fits_switch(
    alloc: Global,
    kinds: &Kinds,
    arg: &Arg,
    cases: &[Case],
) -> Result<bool, AllocError>
    ensures { IfOk result (λ b. b ≡ fits_switch (noted kinds.now) arg.now cases.now) }
{
    if !(fits_integer(kinds, arg) && all_fit(kinds, &arg.ty, cases)) {
        return Ok(false);
    }
    Ok(!any_twice(alloc, bits_in(&arg.ty), cases)?)
}
