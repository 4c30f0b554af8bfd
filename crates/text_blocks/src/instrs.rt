//! Readers of instructions that call nothing.

ghost use Rattle.std.specs.Prelude.{◌≡◌, [], ◌∷◌, option_map};
ghost use Rattle.text_reader.specs.Many.{after, many_at};
ghost use Rattle.text_reader.specs.Reading.{Gives};
ghost use Rattle.text_blocks.specs.Instrs.{wrap_flags, exact_flag, disjoint_flag, flags_at, no_flags, operands_at, binary_at, icmp_at, select_at, nneg_at, to_at, cast_at, align_or, alloca_at, address_at, load_at, store_at, inbounds_at, begins_index, index_at, indices_at, gep_at};

use crate::loops::indices_behind;
use ir_alignments::NamedTypes;
use ir_base::{BinOp, CastOp, Flags, Short, ValueId};
use ir_model::{Arg, Instr, IntWidth, IrType, Operand};
use std::alloc::Global;
use text_reader::{Locals, ReadError, align_of, mark_of, type_of, typed_of, value_of};
use text_symbols::{Mark, Sym, Word};

fn no_flags() -> Flags
    ensures { result ≡ no_flags }
{
    Flags {
        nuw: false,
        nsw: false,
        exact: false,
        disjoint: false,
    }
}

/// Any number of `nuw` and `nsw`, and the symbols behind them.
fn wrap_flags(symbols: &[Sym]) -> (Flags, &[Sym])
    ensures { (result.0, result.1.now) ≡ wrap_flags symbols.now no_flags }
{
    let mut flags = no_flags();
    let mut rest = symbols;
    loop {
        match rest {
            [Sym::Word(Word::Nuw), after @ ..] => {
                flags.nuw = true;
                rest = after;
            }
            [Sym::Word(Word::Nsw), after @ ..] => {
                flags.nsw = true;
                rest = after;
            }
            _ => return (flags, rest),
        }
    }
}

fn exact_flag(symbols: &[Sym]) -> (Flags, &[Sym])
    ensures { (result.0, result.1.now) ≡ exact_flag symbols.now }
{
    let mut flags = no_flags();
    match symbols {
        [Sym::Word(Word::Exact), rest @ ..] => {
            flags.exact = true;
            (flags, rest)
        }
        _ => (flags, symbols),
    }
}

fn disjoint_flag(symbols: &[Sym]) -> (Flags, &[Sym])
    ensures { (result.0, result.1.now) ≡ disjoint_flag symbols.now }
{
    let mut flags = no_flags();
    match symbols {
        [Sym::Word(Word::Disjoint), rest @ ..] => {
            flags.disjoint = true;
            (flags, rest)
        }
        _ => (flags, symbols),
    }
}

/// The flags that an operation may have, and the symbols behind them.
fn flags_of(op: BinOp, symbols: &[Sym]) -> (Flags, &[Sym])
    ensures { (result.0, result.1.now) ≡ flags_at op symbols.now }
{
    match op {
        BinOp::Add | BinOp::Sub | BinOp::Mul | BinOp::Shl => wrap_flags(symbols),
        BinOp::UDiv | BinOp::SDiv | BinOp::LShr | BinOp::AShr => exact_flag(symbols),
        BinOp::Or => disjoint_flag(symbols),
        BinOp::URem | BinOp::SRem | BinOp::And | BinOp::Xor => (no_flags(), symbols),
    }
}

/// Two values with a comma between.
#[tactic(auto, unfolding(crate::specs::Instrs::operands_at))]
fn operands_of<'a>(
    alloc: Global,
    names: &mut Locals,
    symbols: &'a [Sym],
) -> Result<((Operand, Operand), &'a [Sym]), ReadError>
    ensures { Gives (λ x. ((x.0.0, x.0.1), names.new, x.1.now)) result (operands_at names.old symbols.entry.now) }
{
    let (left, rest) = value_of(alloc, names, symbols)?;
    let rest = mark_of(rest, Mark::Comma)?;
    let (right, rest) = value_of(alloc, names, rest)?;
    Ok(((left, right), rest))
}

#[tactic(auto, unfolding(crate::specs::Instrs::binary_at))]
pub fn binary_of<'a>(
    alloc: Global,
    names: &mut Locals,
    result_id: ValueId,
    op: BinOp,
    symbols: &'a [Sym],
) -> Result<(Instr, &'a [Sym]), ReadError>
    ensures { Gives (λ x. (x.0, names.new, x.1.now)) result (binary_at result_id op names.old symbols.entry.now) }
{
    let (flags, rest) = flags_of(op, symbols);
    let (ty, rest) = type_of(alloc, rest)?;
    let ((left, right), rest) = operands_of(alloc, names, rest)?;
    Ok((
        Instr::Binary {
            result: result_id,
            op,
            flags,
            ty,
            left,
            right,
        },
        rest,
    ))
}

#[tactic(auto, unfolding(crate::specs::Instrs::icmp_at))]
pub fn icmp_of<'a>(
    alloc: Global,
    names: &mut Locals,
    result_id: ValueId,
    symbols: &'a [Sym],
) -> Result<(Instr, &'a [Sym]), ReadError>
    ensures { Gives (λ x. (x.0, names.new, x.1.now)) result (icmp_at result_id names.old symbols.entry.now) }
{
    let [Sym::Word(Word::Pred(pred)), rest @ ..] = symbols else {
        return Err(ReadError::Syntax);
    };
    let (ty, rest) = type_of(alloc, rest)?;
    let ((left, right), rest) = operands_of(alloc, names, rest)?;
    Ok((
        Instr::Icmp {
            result: result_id,
            pred: *pred,
            ty,
            left,
            right,
        },
        rest,
    ))
}

#[tactic(auto, unfolding(crate::specs::Instrs::select_at))]
pub fn select_of<'a>(
    alloc: Global,
    names: &mut Locals,
    result_id: ValueId,
    symbols: &'a [Sym],
) -> Result<(Instr, &'a [Sym]), ReadError>
    ensures { Gives (λ x. (x.0, names.new, x.1.now)) result (select_at result_id names.old symbols.entry.now) }
{
    let [Sym::Word(Word::Int(IntWidth::I1)), rest @ ..] = symbols else {
        return Err(ReadError::Syntax);
    };
    let (cond, rest) = value_of(alloc, names, rest)?;
    let rest = mark_of(rest, Mark::Comma)?;
    let (yes, rest) = typed_of(alloc, names, rest)?;
    let rest = mark_of(rest, Mark::Comma)?;
    let (no, rest) = typed_of(alloc, names, rest)?;
    Ok((
        Instr::Select {
            result: result_id,
            cond,
            yes,
            no,
        },
        rest,
    ))
}

/// Whether `nneg` stands there, which only `zext` may have.
fn nneg_of(op: CastOp, symbols: &[Sym]) -> (bool, &[Sym])
    ensures { (result.0, result.1.now) ≡ nneg_at op symbols.now }
{
    match (op, symbols) {
        (CastOp::Zext, [Sym::Word(Word::Nneg), rest @ ..]) => (true, rest),
        _ => (false, symbols),
    }
}

fn to_of(alloc: Global, symbols: &[Sym]) -> Result<(IrType, &[Sym]), ReadError>
    ensures { Gives (λ x. (x.0, x.1.now)) result (to_at symbols.now) }
{
    match symbols {
        [Sym::Word(Word::To), rest @ ..] => type_of(alloc, rest),
        _ => Err(ReadError::Syntax),
    }
}

#[tactic(auto, unfolding(crate::specs::Instrs::cast_at))]
pub fn cast_of<'a>(
    alloc: Global,
    names: &mut Locals,
    result_id: ValueId,
    op: CastOp,
    symbols: &'a [Sym],
) -> Result<(Instr, &'a [Sym]), ReadError>
    ensures { Gives (λ x. (x.0, names.new, x.1.now)) result (cast_at result_id op names.old symbols.entry.now) }
{
    let (nneg, rest) = nneg_of(op, symbols);
    let (arg, rest) = typed_of(alloc, names, rest)?;
    let (to, rest) = to_of(alloc, rest)?;
    Ok((
        Instr::Cast {
            result: result_id,
            op,
            nneg,
            arg,
            to,
        },
        rest,
    ))
}

/// An alignment that isn't written is the type's.
pub fn align_or(types: &NamedTypes, ty: &IrType, written: Option<u64>) -> u64
    ensures { result ≡ align_or types.now ty.now written }
{
    match written {
        None => types.align(ty),
        Some(align) => align,
    }
}

#[tactic(auto, unfolding(crate::specs::Instrs::alloca_at))]
pub fn alloca_of<'a>(
    alloc: Global,
    types: &NamedTypes,
    names: &mut Locals,
    result_id: ValueId,
    symbols: &'a [Sym],
) -> Result<(Instr, &'a [Sym]), ReadError>
    ensures { Gives (λ x. (x.0, names.new, x.1.now)) result (alloca_at types.now result_id names.old symbols.entry.now) }
{
    let (ty, rest) = type_of(alloc, symbols)?;
    let (written, rest) = align_of(rest);
    let align = align_or(types, &ty, written);
    Ok((
        Instr::Alloca {
            result: result_id,
            ty,
            align,
        },
        rest,
    ))
}

/// A comma, `ptr` and a value.
fn address_of<'a>(
    alloc: Global,
    names: &mut Locals,
    symbols: &'a [Sym],
) -> Result<(Operand, &'a [Sym]), ReadError>
    ensures { Gives (λ x. (x.0, names.new, x.1.now)) result (address_at names.old symbols.entry.now) }
{
    match symbols {
        [Sym::Mark(Mark::Comma), Sym::Word(Word::Ptr), rest @ ..] => value_of(alloc, names, rest),
        _ => Err(ReadError::Syntax),
    }
}

#[tactic(auto, unfolding(crate::specs::Instrs::load_at))]
pub fn load_of<'a>(
    alloc: Global,
    types: &NamedTypes,
    names: &mut Locals,
    result_id: ValueId,
    symbols: &'a [Sym],
) -> Result<(Instr, &'a [Sym]), ReadError>
    ensures { Gives (λ x. (x.0, names.new, x.1.now)) result (load_at types.now result_id names.old symbols.entry.now) }
{
    let (ty, rest) = type_of(alloc, symbols)?;
    let (address, rest) = address_of(alloc, names, rest)?;
    let (written, rest) = align_of(rest);
    let align = align_or(types, &ty, written);
    Ok((
        Instr::Load {
            result: result_id,
            ty,
            address,
            align,
        },
        rest,
    ))
}

#[tactic(auto, unfolding(crate::specs::Instrs::store_at))]
pub fn store_of<'a>(
    alloc: Global,
    types: &NamedTypes,
    names: &mut Locals,
    symbols: &'a [Sym],
) -> Result<(Instr, &'a [Sym]), ReadError>
    ensures { Gives (λ x. (x.0, names.new, x.1.now)) result (store_at types.now names.old symbols.entry.now) }
{
    let (arg, rest) = typed_of(alloc, names, symbols)?;
    let (address, rest) = address_of(alloc, names, rest)?;
    let (written, rest) = align_of(rest);
    let align = align_or(types, &arg.ty, written);
    Ok((
        Instr::Store {
            arg,
            address,
            align,
        },
        rest,
    ))
}

fn inbounds_of(symbols: &[Sym]) -> (bool, &[Sym])
    ensures { (result.0, result.1.now) ≡ inbounds_at symbols.now }
{
    match symbols {
        [Sym::Word(Word::Inbounds), rest @ ..] => (true, rest),
        _ => (false, symbols),
    }
}

/// A comma and an index.
pub fn index_of<'a>(
    alloc: Global,
    names: &mut Locals,
    symbols: &'a [Sym],
) -> Result<(Arg, &'a [Sym]), ReadError>
    ensures { Gives (λ x. (x.0, names.new, x.1.now)) result (index_at names.old symbols.entry.now) }
{
    let rest = mark_of(symbols, Mark::Comma)?;
    typed_of(alloc, names, rest)
}

/// Whether an index follows, and no metadata.
pub fn begins_index(symbols: &[Sym]) -> bool
    ensures { result ≡ begins_index symbols.now }
{
    match symbols {
        [Sym::Mark(Mark::Comma), Sym::Meta, ..] => false,
        [Sym::Mark(Mark::Comma), ..] => true,
        _ => false,
    }
}

/// An index or more.
#[tactic(auto, unfolding(crate::specs::Instrs::indices_at))]
fn indices_of<'a>(
    alloc: Global,
    names: &mut Locals,
    symbols: &'a [Sym],
) -> Result<(Short<Arg>, &'a [Sym]), ReadError>
    ensures { Gives (λ x. (x.0, names.new, x.1.now)) result (indices_at names.old symbols.entry.now) }
{
    let (first, rest) = index_of(alloc, names, symbols)?;
    indices_behind(alloc, names, first, rest)
}

#[tactic(auto, unfolding(crate::specs::Instrs::gep_at))]
pub fn gep_of<'a>(
    alloc: Global,
    names: &mut Locals,
    result_id: ValueId,
    symbols: &'a [Sym],
) -> Result<(Instr, &'a [Sym]), ReadError>
    ensures { Gives (λ x. (x.0, names.new, x.1.now)) result (gep_at result_id names.old symbols.entry.now) }
{
    let (inbounds, rest) = inbounds_of(symbols);
    let (ty, rest) = type_of(alloc, rest)?;
    let (base, rest) = address_of(alloc, names, rest)?;
    let (indices, rest) = indices_of(alloc, names, rest)?;
    Ok((
        Instr::Gep {
            result: result_id,
            inbounds,
            ty,
            base,
            indices,
        },
        rest,
    ))
}
