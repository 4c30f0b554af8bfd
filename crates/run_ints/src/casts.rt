//! Casts between widths.

ghost use Rattle.std.specs.Prelude.{◌≡◌, ◌≤◌};
ghost use Rattle.run_ints.specs.Numbers.{cast as cast_of, cast_word};
ghost use Rattle.run_ints.specs.Words.{IsWord, IsNum};

use crate::num::Num;
use crate::whole::{cut, cut_signed, is_signed, signed};
use ir_base::{CastOp, Word};

fn cast_word(op: CastOp, nneg: bool, x: Word, to: u32) -> Num
    requires word { IsWord x }
    requires narrow { to ≤ 64 }
    ensures { result ≡ cast_word op nneg x to }
{
    let bits = match op {
        CastOp::Trunc => cut(to, x.bits as u128),
        CastOp::Zext => {
            if nneg && !is_signed(x.width, x.bits as i128) {
                return Num::Poison;
            }
            cut(to, x.bits as u128)
        }
        CastOp::Sext => cut_signed(to, signed(x.width, x.bits)),
    };
    Num::Is(Word { width: to, bits })
}

/// A number cast to a width (LLVM Language Reference, "Conversion Operations"). `nneg` is the flag of `zext`.
pub fn cast(op: CastOp, nneg: bool, a: Num, to: u32) -> Num
    requires word { IsNum a }
    requires narrow { to ≤ 64 }
    ensures { result ≡ cast_of op nneg a to }
{
    match a {
        Num::Poison => Num::Poison,
        Num::Is(x) => cast_word(op, nneg, x, to),
    }
}
