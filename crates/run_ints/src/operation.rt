//! Binary operations.

ghost use Rattle.std.specs.Prelude.{◌≡◌, ◌≤◌, ◌<◌, ◌%◌, ◌^◌, ◌&&◌, true, pos, int_rem, bit_and, bit_xor};
ghost use Rattle.run_ints.specs.Numbers.{signed_of, word_of, is_division, is_signed_division, operation, computed, binary as binary_of, poison_if, divides_by_minus_one, is_least};
ghost use Rattle.run_ints.specs.Words.{IsWord, IsNum, IsNonzero, AreOfOneWidth};

use crate::num::Num;
use crate::whole::{
    count, cut, cut_signed, is_signed, is_unsigned, product, quotient, remainder, signed,
};
use ir_base::{BinOp, Cause, Flags, Word};

fn is_division(op: BinOp) -> bool
    ensures { result ≡ is_division op }
{
    match op {
        BinOp::UDiv | BinOp::SDiv | BinOp::URem | BinOp::SRem => true,
        _ => false,
    }
}

fn is_signed_division(op: BinOp) -> bool
    ensures { result ≡ is_signed_division op }
{
    match op {
        BinOp::SDiv | BinOp::SRem => true,
        _ => false,
    }
}

fn poison_if(poison: bool, width: u32, bits: u64) -> Num
    ensures { result ≡ poison_if poison (Num.Is (record { width = width; bits = bits })) }
{
    if poison {
        Num::Poison
    } else {
        Num::Is(Word { width, bits })
    }
}

fn add(flags: Flags, width: u32, a: u64, b: u64) -> Num
    requires narrow { width ≤ 64 }
    requires a_below { a < 2 ^ width }
    requires b_below { b < 2 ^ width }
    ensures { result ≡ operation BinOp.Add flags width a b }
{
    let sum = a as i128 + b as i128;
    let wraps = flags.nuw && !is_unsigned(width, sum)
        || flags.nsw && !is_signed(width, signed(width, a) + signed(width, b));
    poison_if(wraps, width, cut_signed(width, sum))
}

fn sub(flags: Flags, width: u32, a: u64, b: u64) -> Num
    requires narrow { width ≤ 64 }
    requires a_below { a < 2 ^ width }
    requires b_below { b < 2 ^ width }
    ensures { result ≡ operation BinOp.Sub flags width a b }
{
    let difference = a as i128 - b as i128;
    let wraps = flags.nuw && !is_unsigned(width, difference)
        || flags.nsw && !is_signed(width, signed(width, a) - signed(width, b));
    poison_if(wraps, width, cut_signed(width, difference))
}

fn mul(flags: Flags, width: u32, a: u64, b: u64) -> Num
    requires narrow { width ≤ 64 }
    requires a_below { a < 2 ^ width }
    requires b_below { b < 2 ^ width }
    ensures { result ≡ operation BinOp.Mul flags width a b }
{
    let whole = a as u128 * b as u128;
    let wraps = flags.nuw && whole >= count(width)
        || flags.nsw && !is_signed(width, product(signed(width, a), signed(width, b)));
    poison_if(wraps, width, cut(width, whole))
}

fn shl(flags: Flags, width: u32, a: u64, b: u64) -> Num
    requires narrow { width ≤ 64 }
    requires a_below { a < 2 ^ width }
    ensures { result ≡ operation BinOp.Shl flags width a b }
{
    if b >= width as u64 {
        return Num::Poison;
    }
    let factor = count(b as u32);
    let whole = a as u128 * factor;
    let wraps = flags.nuw && whole >= count(width)
        || flags.nsw && !is_signed(width, product(signed(width, a), factor as i128));
    poison_if(wraps, width, cut(width, whole))
}

fn lshr(flags: Flags, width: u32, a: u64, b: u64) -> Num
    requires narrow { width ≤ 64 }
    requires a_below { a < 2 ^ width }
    ensures { result ≡ operation BinOp.LShr flags width a b }
{
    if b >= width as u64 {
        return Num::Poison;
    }
    let rest = cut(b as u32, a as u128);
    poison_if(
        flags.exact && rest != 0,
        width,
        cut(width, (a >> b) as u128),
    )
}

fn ashr(flags: Flags, width: u32, a: u64, b: u64) -> Num
    requires narrow { width ≤ 64 }
    requires a_below { a < 2 ^ width }
    ensures { result ≡ operation BinOp.AShr flags width a b }
{
    if b >= width as u64 {
        return Num::Poison;
    }
    let rest = cut(b as u32, a as u128);
    poison_if(
        flags.exact && rest != 0,
        width,
        cut_signed(width, signed(width, a) >> b),
    )
}

fn udiv(flags: Flags, width: u32, a: u64, b: u64) -> Num
    requires narrow { width ≤ 64 }
    requires divisor { 0 < b }
    ensures { result ≡ operation BinOp.UDiv flags width a b }
{
    poison_if(
        flags.exact && a % b != 0,
        width,
        cut(width, (a / b) as u128),
    )
}

fn urem(width: u32, a: u64, b: u64) -> Num
    requires narrow { width ≤ 64 }
    requires divisor { 0 < b }
    ensures { result ≡ Num.Is (word_of width (pos (a % b))) }
{
    Num::Is(Word {
        width,
        bits: cut(width, (a % b) as u128),
    })
}

fn sdiv(flags: Flags, width: u32, a: u64, b: u64) -> Num
    requires narrow { width ≤ 64 }
    requires a_below { a < 2 ^ width }
    requires b_below { b < 2 ^ width }
    requires divisor { 0 < b }
    ensures { result ≡ operation BinOp.SDiv flags width a b }
{
    let a = signed(width, a);
    let b = signed(width, b);
    let rest = cut_signed(width, remainder(a, b));
    poison_if(
        flags.exact && rest != 0,
        width,
        cut_signed(width, quotient(a, b)),
    )
}

fn srem(width: u32, a: u64, b: u64) -> Num
    requires narrow { width ≤ 64 }
    requires a_below { a < 2 ^ width }
    requires b_below { b < 2 ^ width }
    requires divisor { 0 < b }
    ensures { result ≡ Num.Is (word_of width (int_rem (signed_of width a) (signed_of width b))) }
{
    Num::Is(Word {
        width,
        bits: cut_signed(width, remainder(signed(width, a), signed(width, b))),
    })
}

fn and(width: u32, a: u64, b: u64) -> Num
    requires narrow { width ≤ 64 }
    ensures { result ≡ Num.Is (word_of width (pos (bit_and a b))) }
{
    Num::Is(Word {
        width,
        bits: cut(width, (a & b) as u128),
    })
}

fn or(flags: Flags, width: u32, a: u64, b: u64) -> Num
    requires narrow { width ≤ 64 }
    ensures { result ≡ operation BinOp.Or flags width a b }
{
    poison_if(
        flags.disjoint && a & b != 0,
        width,
        cut(width, a as u128 | b as u128),
    )
}

fn xor(width: u32, a: u64, b: u64) -> Num
    requires narrow { width ≤ 64 }
    ensures { result ≡ Num.Is (word_of width (pos (bit_xor a b))) }
{
    Num::Is(Word {
        width,
        bits: cut(width, (a ^ b) as u128),
    })
}

/// An operation on words of a width; a divisor isn't 0.
fn operation(op: BinOp, flags: Flags, width: u32, a: u64, b: u64) -> Num
    requires narrow { width ≤ 64 }
    requires a_below { a < 2 ^ width }
    requires b_below { b < 2 ^ width }
    requires divisor { is_division op ≡ true → 0 < b }
    ensures { result ≡ operation op flags width a b }
{
    match op {
        BinOp::Add => add(flags, width, a, b),
        BinOp::Sub => sub(flags, width, a, b),
        BinOp::Mul => mul(flags, width, a, b),
        BinOp::Shl => shl(flags, width, a, b),
        BinOp::UDiv => udiv(flags, width, a, b),
        BinOp::SDiv => sdiv(flags, width, a, b),
        BinOp::LShr => lshr(flags, width, a, b),
        BinOp::AShr => ashr(flags, width, a, b),
        BinOp::URem => urem(width, a, b),
        BinOp::SRem => srem(width, a, b),
        BinOp::And => and(width, a, b),
        BinOp::Or => or(flags, width, a, b),
        BinOp::Xor => xor(width, a, b),
    }
}

fn computed(op: BinOp, flags: Flags, a: Num, b: Num) -> Num
    requires a_word { IsNum a }
    requires b_word { IsNum b }
    requires one_width { AreOfOneWidth a b }
    requires divisor { is_division op ≡ true → IsNonzero b }
    ensures { result ≡ computed op flags a b }
{
    match (a, b) {
        (Num::Is(x), Num::Is(y)) => operation(op, flags, x.width, x.bits, y.bits),
        _ => Num::Poison,
    }
}

/// Whether a divisor divides by -1 what that can't divide: poison or the least value.
fn overflows(op: BinOp, a: Num, y: Word) -> bool
    requires a_word { IsNum a }
    requires y_word { IsWord y }
    ensures { result ≡ (divides_by_minus_one op y && is_least a) }
{
    if !is_signed_division(op) || y.bits as u128 != count(y.width) - 1 {
        return false;
    }
    match a {
        Num::Poison => true,
        Num::Is(x) => 2 * (x.bits as u128) == count(x.width),
    }
}

/// The value of a binary operation (LLVM Language Reference, "Binary Operations" and "Bitwise Binary Operations").
///
/// An error comes from a division alone: `Cause::Poison` for a poison divisor, `Cause::Div` for a divisor of 0, and for
/// `sdiv` and `srem` by -1 of the least value or of poison.
pub fn binary(op: BinOp, flags: Flags, a: Num, b: Num) -> Result<Num, Cause>
    requires a_word { IsNum a }
    requires b_word { IsNum b }
    requires one_width { AreOfOneWidth a b }
    ensures { result ≡ binary_of op flags a b }
{
    if is_division(op) {
        match b {
            Num::Poison => return Err(Cause::Poison),
            Num::Is(y) => {
                if y.bits == 0 || overflows(op, a, y) {
                    return Err(Cause::Div);
                }
            }
        }
    }
    Ok(computed(op, flags, a, b))
}
