//! The pieces of a block.

ghost use Rattle.std.specs.Prelude.{◌≡◌, IfOk, OnOk, ◌++◌, ◌∷◌, [], map};
ghost use Rattle.pass_intrinsics.specs.declared.cuts.Cut.TheVariants as cuts;
ghost use Rattle.pass_split.specs.Pieces.{ended_with, piece, stop_label, pieced, is_begin, begins_again, next_piecing, with_instr, with_instrs, redirected, redirected_case, redirected_term, all_pieces};

use crate::piecing::Piecing;
use ir_base::{Data, Items, SuspendId, ValueId};
use ir_model::{Block, Callee, Case, Instr, Intrinsic, Terminator};
use pass_intrinsics::{Cut, Part, Shape, cut_at, goes_on, later, names_taken, push_lowered};
use std::alloc::{AllocError, Global};

fn stop_label(term: &Terminator) -> ValueId
    ensures { result ≡ stop_label term.now }
{
    match term {
        Terminator::Switch {
            arg: _,
            default,
            cases: _,
        } => *default,
        _ => 0,
    }
}

/// The instruction stands in the piece.
fn staying(
    alloc: Global,
    shape: &Shape,
    part: Part,
    piecing: Piecing,
    instr: &Instr,
    term: &Terminator,
) -> Result<Piecing, AllocError>
    ensures { IfOk result (λ p. p ≡ pieced shape.now part piecing instr.now term.now cuts.Stays) }
{
    let Piecing {
        whole,
        label,
        phis,
        mut instrs,
        ended,
        next,
    } = piecing;
    push_lowered(alloc, &mut instrs, shape, part, next, instr)?;
    Ok(Piecing {
        whole,
        label,
        phis,
        instrs,
        ended,
        next: later(next, names_taken(instr))?,
    })
}

/// The piece ends behind the instruction, and that of a label begins.
fn marking(
    alloc: Global,
    shape: &Shape,
    part: Part,
    piecing: Piecing,
    instr: &Instr,
    term: &Terminator,
    mark: ValueId,
) -> Result<Piecing, AllocError>
    ensures { IfOk result (λ p. p ≡ pieced shape.now part piecing instr.now term.now (cuts.Marks mark)) }
{
    let Piecing {
        mut whole,
        label,
        phis,
        mut instrs,
        ended,
        next,
    } = piecing;
    push_lowered(alloc, &mut instrs, shape, part, next, instr)?;
    whole.push(Block {
        label,
        phis,
        instrs,
        term: Terminator::Jump(mark),
    })?;
    Ok(Piecing {
        whole,
        label: mark,
        phis: Items::new(alloc),
        instrs: Items::new(alloc),
        ended,
        next: later(next, names_taken(instr))?,
    })
}

/// The block ends before the instruction, with a terminator.
fn ending(alloc: Global, piecing: Piecing, term: Terminator) -> Result<Piecing, AllocError>
    ensures { IfOk result (λ p. p ≡ ended_with piecing (piece piecing piecing.instrs term ∷ []) piecing.next) }
{
    let Piecing {
        mut whole,
        label,
        phis,
        instrs,
        ended: _,
        next,
    } = piecing;
    whole.push(Block {
        label,
        phis,
        instrs,
        term,
    })?;
    Ok(Piecing {
        whole,
        label,
        phis: Items::new(alloc),
        instrs: Items::new(alloc),
        ended: true,
        next,
    })
}

/// The block ends before the instruction, which stands alone in the block of a suspend.
fn transferring(
    alloc: Global,
    shape: &Shape,
    part: Part,
    piecing: Piecing,
    instr: &Instr,
    term: &Terminator,
    suspend: SuspendId,
) -> Result<Piecing, AllocError>
    ensures { IfOk result (λ p. p ≡ pieced shape.now part piecing instr.now term.now (cuts.Transfers suspend)) }
{
    let pass = shape.pass_label(suspend)?;
    let next = piecing.next;
    let mut instrs = Items::new(alloc);
    push_lowered(alloc, &mut instrs, shape, part, next, instr)?;
    let next = later(next, names_taken(instr))?;
    let mut ended = ending(alloc, piecing, Terminator::Jump(pass))?;
    ended.whole.push(Block {
        label: pass,
        phis: Items::new(alloc),
        instrs,
        term: Terminator::Ret(None),
    })?;
    ended.next = next;
    Ok(ended)
}

fn pieced(
    alloc: Global,
    shape: &Shape,
    part: Part,
    piecing: Piecing,
    instr: &Instr,
    term: &Terminator,
    cut: Cut,
) -> Result<Piecing, AllocError>
    ensures { IfOk result (λ p. p ≡ pieced shape.now part piecing instr.now term.now cut) }
{
    match cut {
        Cut::Stays => staying(alloc, shape, part, piecing, instr, term),
        Cut::Marks(label) => marking(alloc, shape, part, piecing, instr, term, label),
        Cut::Suspends => ending(alloc, piecing, Terminator::Jump(stop_label(term))),
        Cut::Returns => ending(alloc, piecing, Terminator::Ret(None)),
        Cut::Transfers(suspend) => transferring(alloc, shape, part, piecing, instr, term, suspend),
    }
}

fn is_begin(instr: &Instr) -> bool
    ensures { result ≡ is_begin instr.now }
{
    matches!(
        instr,
        Instr::Call {
            result: _,
            must_tail: _,
            ty: _,
            callee: Callee::Intrinsic(Intrinsic::CoroBegin),
            args: _,
        }
    )
}

/// Whether an instruction is a begin in a part that goes on behind a suspend.
pub fn begins_again(part: Part, instr: &Instr) -> bool
    ensures { result ≡ begins_again part instr.now }
{
    if goes_on(part) {
        is_begin(instr)
    } else {
        false
    }
}

fn next_piecing(
    alloc: Global,
    shape: &Shape,
    part: Part,
    term: &Terminator,
    piecing: Piecing,
    instr: &Instr,
    after: &[Instr],
) -> Result<Piecing, AllocError>
    ensures { IfOk result (λ p. p ≡ next_piecing shape.now part term.now piecing instr.now after.now) }
{
    if begins_again(part, instr) {
        return ending(alloc, piecing, Terminator::Unreachable);
    }
    let cut = cut_at(shape, part, instr, after)?;
    pieced(alloc, shape, part, piecing, instr, term, cut)
}

fn with_instr(
    alloc: Global,
    shape: &Shape,
    part: Part,
    term: &Terminator,
    piecing: Piecing,
    instr: &Instr,
    after: &[Instr],
) -> Result<Piecing, AllocError>
    ensures { IfOk result (λ p. p ≡ with_instr shape.now part term.now piecing instr.now after.now) }
{
    if piecing.ended {
        return Ok(piecing);
    }
    next_piecing(alloc, shape, part, term, piecing, instr, after)
}

/// The block with these instructions more.
pub fn with_instrs(
    alloc: Global,
    shape: &Shape,
    part: Part,
    term: &Terminator,
    first: Piecing,
    instrs: &[Instr],
) -> Result<Piecing, AllocError>
    ensures { IfOk result (λ p. p ≡ with_instrs shape.now part term.now first instrs.now) }
{
    let mut piecing = first;
    let mut rest = instrs;
    while let [instr, after @ ..] = rest {
        piecing = with_instr(alloc, shape, part, term, piecing, instr, after)?;
        rest = after;
    }
    Ok(piecing)
}

/// The label to which an edge leads that doesn't come from a suspend: before the end stands a mark.
pub fn redirected(shape: &Shape, label: ValueId) -> Result<ValueId, AllocError>
    ensures { IfOk result (λ n. n ≡ redirected shape.now label) }
{
    if label == shape.end {
        shape.done_label()
    } else {
        Ok(label)
    }
}

fn redirected_cases(alloc: Global, shape: &Shape, cases: &[Case]) -> Result<Items<Case>, AllocError>
    ensures { IfOk result (λ x. x ≡ map (redirected_case shape.now) cases.now) }
{
    let mut all = Items::new(alloc);
    for case in cases {
        all.push(Case {
            arg: case.arg.copied(alloc)?,
            target: redirected(shape, case.target)?,
        })?;
    }
    Ok(all)
}

fn redirected_term(
    alloc: Global,
    shape: &Shape,
    term: &Terminator,
) -> Result<Terminator, AllocError>
    ensures { IfOk result (λ t. t ≡ redirected_term shape.now term.now) }
{
    match term {
        Terminator::Jump(label) => Ok(Terminator::Jump(redirected(shape, *label)?)),
        Terminator::Branch { cond, yes, no } => Ok(Terminator::Branch {
            cond: cond.copied(alloc)?,
            yes: redirected(shape, *yes)?,
            no: redirected(shape, *no)?,
        }),
        Terminator::Switch {
            arg,
            default,
            cases,
        } => Ok(Terminator::Switch {
            arg: arg.copied(alloc)?,
            default: redirected(shape, *default)?,
            cases: redirected_cases(alloc, shape, cases.as_slice())?,
        }),
        Terminator::Ret(_) => term.copied(alloc),
        Terminator::Unreachable => Ok(Terminator::Unreachable),
    }
}

/// All pieces of a block, the last with the block's terminator where it hasn't ended before.
pub fn all_pieces(
    alloc: Global,
    shape: &Shape,
    piecing: Piecing,
    term: &Terminator,
) -> Result<Items<Block>, AllocError>
    ensures { IfOk result (λ x. x ≡ all_pieces shape.now piecing term.now) }
{
    if piecing.ended {
        return Ok(piecing.whole);
    }
    let Piecing {
        mut whole,
        label,
        phis,
        instrs,
        ended: _,
        next: _,
    } = piecing;
    whole.push(Block {
        label,
        phis,
        instrs,
        term: redirected_term(alloc, shape, term)?,
    })?;
    Ok(whole)
}
