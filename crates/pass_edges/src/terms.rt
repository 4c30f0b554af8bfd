//! Terminators, whose edges lead to the blocks on them.

ghost use Rattle.std.specs.Prelude.{◌≡◌, IfOk};
ghost use Rattle.pass_edges.specs.EdgeBlocks.{split_label, split_case, split_cases, split_term};

use crate::edges::{after_edge, is_split};
use ir_base::{Data, Items, ValueId};
use ir_model::{Case, Terminator};
use std::alloc::{AllocError, Global};

fn split_label(flags: &Items<bool>, resumes: bool, next: ValueId, target: ValueId) -> ValueId
    ensures { result ≡ split_label flags.now resumes next target }
{
    if is_split(flags, resumes, target) {
        next
    } else {
        target
    }
}

fn split_cases(
    alloc: Global,
    flags: &Items<bool>,
    resumes: bool,
    first: ValueId,
    cases: &[Case],
) -> Result<Items<Case>, AllocError>
    ensures { IfOk result (λ x. x ≡ split_cases flags.now resumes first cases.now) }
{
    let mut all = Items::new(alloc);
    let mut next = first;
    for case in cases {
        all.push(Case {
            arg: case.arg.copied(alloc)?,
            target: split_label(flags, resumes, next, case.target),
        })?;
        next = after_edge(flags, resumes, next, case.target)?;
    }
    Ok(all)
}

/// The terminator with the labels of the blocks on its edges, where there are some.
pub fn split_term(
    alloc: Global,
    flags: &Items<bool>,
    resumes: bool,
    next: ValueId,
    term: &Terminator,
) -> Result<Terminator, AllocError>
    ensures { IfOk result (λ t. t ≡ split_term flags.now resumes next term.now) }
{
    match term {
        Terminator::Jump(label) => Ok(Terminator::Jump(split_label(flags, false, next, *label))),
        Terminator::Branch { cond, yes, no } => {
            let after = after_edge(flags, false, next, *yes)?;
            Ok(Terminator::Branch {
                cond: cond.copied(alloc)?,
                yes: split_label(flags, false, next, *yes),
                no: split_label(flags, false, after, *no),
            })
        }
        Terminator::Switch {
            arg,
            default,
            cases,
        } => {
            let after = after_edge(flags, false, next, *default)?;
            Ok(Terminator::Switch {
                arg: arg.copied(alloc)?,
                default: split_label(flags, false, next, *default),
                cases: split_cases(alloc, flags, resumes, after, cases.as_slice())?,
            })
        }
        Terminator::Ret(_) => term.copied(alloc),
        Terminator::Unreachable => Ok(Terminator::Unreachable),
    }
}
