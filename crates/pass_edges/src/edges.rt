//! Which edges get a block of their own.

ghost use Rattle.std.specs.Prelude.{◌≡◌, ◌+◌, ◌∷◌, ◌++◌, IfOk, OnOk, [], false, length, replicate};
ghost use Rattle.pass_edges.specs.Edges.{has_phis, flagged_by, phi_flags, is_suspend, is_suspend_at, ends_in_suspend, is_split, after_edge, edge_to, case_edges, term_edges, block_edges, edges_by, edges_of};

use crate::edge::Edge;
use ir_base::{Items, ValueId};
use ir_model::{Block, Callee, Case, Function, Instr, Intrinsic, Phi, Terminator};
use std::alloc::{AllocError, Global};

fn has_phis(phis: &[Phi]) -> bool
    ensures { result ≡ has_phis phis.now }
{
    !matches!(phis, [])
}

fn flag_by(flags: &mut Items<bool>, blocks: &[Block])
    ensures { flags.new ≡ flagged_by flags.old blocks.now }
{
    for block in blocks {
        flags.set(block.label, has_phis(block.phis.as_slice()));
    }
}

/// For each label whether its block has phis.
pub fn phi_flags(alloc: Global, function: &Function) -> Result<Items<bool>, AllocError>
    ensures { IfOk result (λ x. x ≡ phi_flags function.now) }
{
    let count = function.names.len();
    let mut flags = Items::from_vec(Vec::from_elem(alloc, false, count)?);
    flag_by(&mut flags, function.blocks.as_slice());
    Ok(flags)
}

fn is_suspend(instr: &Instr) -> bool
    ensures { result ≡ is_suspend instr.now }
{
    matches!(
        instr,
        Instr::Call {
            callee: Callee::Intrinsic(Intrinsic::CoroSuspend),
            ..
        }
    )
}

/// Whether a block's switch is a suspend's.
pub fn ends_in_suspend(instrs: &[Instr]) -> bool
    ensures { result ≡ ends_in_suspend instrs.now }
{
    match instrs.last() {
        None => false,
        Some(instr) => is_suspend(instr),
    }
}

/// Whether an edge to a label gets a block; one of a suspend's cases does.
pub fn is_split(flags: &Items<bool>, resumes: bool, target: ValueId) -> bool
    ensures { result ≡ is_split flags.now resumes target }
{
    if resumes {
        return true;
    }
    match flags.get(target) {
        None => false,
        Some(flag) => *flag,
    }
}

/// The next new label behind an edge.
pub fn after_edge(
    flags: &Items<bool>,
    resumes: bool,
    next: ValueId,
    target: ValueId,
) -> Result<ValueId, AllocError>
    ensures { IfOk result (λ n. n ≡ after_edge flags.now resumes next target) }
{
    if is_split(flags, resumes, target) {
        later(next, 1)
    } else {
        Ok(next)
    }
}

/// The name so many behind another.
pub fn later(id: ValueId, count: usize) -> Result<ValueId, AllocError>
    ensures { IfOk result (λ n. n ≡ id + count) }
{
    match id.checked_add(count) {
        Some(next) => Ok(next),
        None => Err(AllocError),
    }
}

fn push_edge(
    all: &mut Items<Edge>,
    flags: &Items<bool>,
    resumes: bool,
    from: ValueId,
    next: ValueId,
    target: ValueId,
) -> Result<(), AllocError>
    ensures { OnOk result (all.new ≡ all.old ++ edge_to flags.now resumes from next target) }
{
    if is_split(flags, resumes, target) {
        all.push(Edge {
            from,
            target,
            label: next,
        })?;
    }
    Ok(())
}

fn push_cases(
    all: &mut Items<Edge>,
    flags: &Items<bool>,
    resumes: bool,
    from: ValueId,
    first: ValueId,
    cases: &[Case],
) -> Result<(), AllocError>
    ensures { OnOk result (all.new ≡ all.old ++ case_edges flags.now resumes from first cases.now) }
{
    let mut next = first;
    for case in cases {
        push_edge(all, flags, resumes, from, next, case.target)?;
        next = after_edge(flags, resumes, next, case.target)?;
    }
    Ok(())
}

fn push_term(
    all: &mut Items<Edge>,
    flags: &Items<bool>,
    resumes: bool,
    from: ValueId,
    next: ValueId,
    term: &Terminator,
) -> Result<(), AllocError>
    ensures { OnOk result (all.new ≡ all.old ++ term_edges flags.now resumes from next term.now) }
{
    match term {
        Terminator::Jump(label) => push_edge(all, flags, false, from, next, *label),
        Terminator::Branch { cond: _, yes, no } => {
            push_edge(all, flags, false, from, next, *yes)?;
            let next = after_edge(flags, false, next, *yes)?;
            push_edge(all, flags, false, from, next, *no)
        }
        Terminator::Switch {
            arg: _,
            default,
            cases,
        } => {
            push_edge(all, flags, false, from, next, *default)?;
            let next = after_edge(flags, false, next, *default)?;
            push_cases(all, flags, resumes, from, next, cases.as_slice())
        }
        Terminator::Ret(_) | Terminator::Unreachable => Ok(()),
    }
}

/// The edges of a block that get one.
pub fn block_edges(
    alloc: Global,
    flags: &Items<bool>,
    next: ValueId,
    block: &Block,
) -> Result<Items<Edge>, AllocError>
    ensures { IfOk result (λ x. x ≡ block_edges flags.now next block.now) }
{
    let resumes = ends_in_suspend(block.instrs.as_slice());
    let mut all = Items::new(alloc);
    push_term(&mut all, flags, resumes, block.label, next, &block.term)?;
    Ok(all)
}

fn push_edges(all: &mut Items<Edge>, edges: &[Edge]) -> Result<(), AllocError>
    ensures { OnOk result (all.new ≡ all.old ++ edges.now) }
{
    for edge in edges {
        all.push(*edge)?;
    }
    Ok(())
}

/// The edges of a function that get a block, in order.
pub fn edges_of(
    alloc: Global,
    flags: &Items<bool>,
    function: &Function,
) -> Result<Items<Edge>, AllocError>
    ensures { IfOk result (λ x. x ≡ edges_of flags.now function.now) }
{
    let mut all = Items::new(alloc);
    let mut next = function.names.len();
    for block in function.blocks.as_slice() {
        let edges = block_edges(alloc, flags, next, block)?;
        push_edges(&mut all, edges.as_slice())?;
        next = later(next, edges.len())?;
    }
    Ok(all)
}
