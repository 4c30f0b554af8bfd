//! Comparisons, and the choice by one.

ghost use Rattle.std.specs.Prelude.{◌≡◌, ◌≤◌, ◌<◌, ◌^◌};
ghost use Rattle.run_ints.specs.Numbers.{holds, icmp as icmp_of, select as select_of, truth};
ghost use Rattle.run_ints.specs.Words.{IsNum, AreOfOneWidth};

use crate::num::Num;
use crate::whole::signed;
use ir_base::{Pred, Word};

/// Whether a comparison holds between words of a width.
fn holds(pred: Pred, width: u32, a: u64, b: u64) -> bool
    requires narrow { width ≤ 64 }
    requires a_below { a < 2 ^ width }
    requires b_below { b < 2 ^ width }
    ensures { result ≡ holds pred width a b }
{
    match pred {
        Pred::Eq => a == b,
        Pred::Ne => a != b,
        Pred::Ugt => a > b,
        Pred::Uge => a >= b,
        Pred::Ult => a < b,
        Pred::Ule => a <= b,
        Pred::Sgt => signed(width, a) > signed(width, b),
        Pred::Sge => signed(width, a) >= signed(width, b),
        Pred::Slt => signed(width, a) < signed(width, b),
        Pred::Sle => signed(width, a) <= signed(width, b),
    }
}

/// An i1.
fn truth(holds: bool) -> Word
    ensures { result ≡ truth holds }
{
    Word {
        width: 1,
        bits: holds as u64,
    }
}

/// The i1 of a comparison (LLVM Language Reference, "icmp").
pub fn icmp(pred: Pred, a: Num, b: Num) -> Num
    requires a_word { IsNum a }
    requires b_word { IsNum b }
    requires one_width { AreOfOneWidth a b }
    ensures { result ≡ icmp_of pred a b }
{
    match (a, b) {
        (Num::Is(x), Num::Is(y)) => Num::Is(truth(holds(pred, x.width, x.bits, y.bits))),
        _ => Num::Poison,
    }
}

/// The chosen operand, or poison where the condition is poison (LLVM Language Reference, "select").
pub fn select(cond: Num, a: Num, b: Num) -> Num
    ensures { result ≡ select_of cond a b }
{
    match cond {
        Num::Poison => Num::Poison,
        Num::Is(c) => { if c.bits == 1 { a } else { b } }
    }
}
