//! The words of instructions.

ghost use Rattle.std.specs.Prelude.{◌≡◌, ◌++◌, OnOk};
ghost use Rattle.text_canonical.specs.canonical.Words as spec;

use ir_base::{BinOp, CastOp, Flags, Pred};
use std::alloc::AllocError;

pub fn binary_word(op: BinOp) -> &'static [u8]
    ensures { result.now ≡ spec.binary_word op }
{
    match op {
        BinOp::Add => b"add",
        BinOp::Sub => b"sub",
        BinOp::Mul => b"mul",
        BinOp::Shl => b"shl",
        BinOp::UDiv => b"udiv",
        BinOp::SDiv => b"sdiv",
        BinOp::LShr => b"lshr",
        BinOp::AShr => b"ashr",
        BinOp::URem => b"urem",
        BinOp::SRem => b"srem",
        BinOp::And => b"and",
        BinOp::Or => b"or",
        BinOp::Xor => b"xor",
    }
}

pub fn pred_word(pred: Pred) -> &'static [u8]
    ensures { result.now ≡ spec.pred_word pred }
{
    match pred {
        Pred::Eq => b"eq",
        Pred::Ne => b"ne",
        Pred::Ugt => b"ugt",
        Pred::Uge => b"uge",
        Pred::Ult => b"ult",
        Pred::Ule => b"ule",
        Pred::Sgt => b"sgt",
        Pred::Sge => b"sge",
        Pred::Slt => b"slt",
        Pred::Sle => b"sle",
    }
}

pub fn cast_word(op: CastOp) -> &'static [u8]
    ensures { result.now ≡ spec.cast_word op }
{
    match op {
        CastOp::Trunc => b"trunc",
        CastOp::Zext => b"zext",
        CastOp::Sext => b"sext",
    }
}

/// Writes a word that stands only where it is set, a space before it.
pub fn push_flag(is_set: bool, word: &[u8], out: &mut Vec<u8>) -> Result<(), AllocError>
    ensures { OnOk result (out.new.items ≡ out.old.items ++ spec.flag_text is_set word.now) }
{
    if !is_set {
        return Ok(());
    }
    out.push(b' ')?;
    out.extend_from_slice(word)
}

/// Writes the flags that are set.
pub fn push_flags(flags: Flags, out: &mut Vec<u8>) -> Result<(), AllocError>
    ensures { OnOk result (out.new.items ≡ out.old.items ++ spec.flags_text flags) }
{
    push_flag(flags.nuw, b"nuw", out)?;
    push_flag(flags.nsw, b"nsw", out)?;
    push_flag(flags.exact, b"exact", out)?;
    push_flag(flags.disjoint, b"disjoint", out)
}
