//! Terminators, whose edges lead to the blocks on them.

ghost use Rattle.std.specs.Prelude.{◌≡◌, IfOk};
ghost use Rattle.pass_exits.specs.ExitBlocks.{after_exit, exit_cases, exit_label, exit_term};
ghost use Rattle.pass_exits.specs.Leaving.{AreLeaving};

use crate::leaving::Leaving;
use ir_base::{BlockId, Data, Items, SuspendId, ValueId};
use ir_model::{Case, Function, Terminator};
use pass_intrinsics::later;
use std::alloc::{AllocError, Global};

/// The label to which an edge leads then.
fn exit_label(next: ValueId, mark: Option<SuspendId>, target: ValueId) -> ValueId
    ensures { result ≡ exit_label next mark target }
{
    match mark {
        None => target,
        Some(_) => next,
    }
}

/// The next new label behind an edge.
fn after_exit(next: ValueId, mark: Option<SuspendId>) -> Result<ValueId, AllocError>
    ensures { IfOk result (λ n. n ≡ after_exit next mark) }
{
    match mark {
        None => Ok(next),
        Some(_) => later(next, 1),
    }
}

fn exit_cases(
    alloc: Global,
    function: &Function,
    leaving: &Leaving,
    at: BlockId,
    first: ValueId,
    cases: &[Case],
) -> Result<Items<Case>, AllocError>
    requires { AreLeaving function.now leaving.now }
    ensures { IfOk result (λ x. x ≡ exit_cases function.now at first cases.now) }
{
    let mut all = Items::new(alloc);
    let mut next = first;
    for case in cases {
        let mark = leaving.mark(function, at, case.target);
        all.push(Case {
            arg: case.arg.copied(alloc)?,
            target: exit_label(next, mark, case.target),
        })?;
        next = after_exit(next, mark)?;
    }
    Ok(all)
}

/// The terminator of a block with the labels of the blocks on its edges, where there are some.
pub fn exit_term(
    alloc: Global,
    function: &Function,
    leaving: &Leaving,
    at: BlockId,
    next: ValueId,
    term: &Terminator,
) -> Result<Terminator, AllocError>
    requires { AreLeaving function.now leaving.now }
    ensures { IfOk result (λ t. t ≡ exit_term function.now at next term.now) }
{
    match term {
        Terminator::Jump(label) => {
            let mark = leaving.mark(function, at, *label);
            Ok(Terminator::Jump(exit_label(next, mark, *label)))
        }
        Terminator::Branch { cond, yes, no } => {
            let first = leaving.mark(function, at, *yes);
            let second = leaving.mark(function, at, *no);
            Ok(Terminator::Branch {
                cond: cond.copied(alloc)?,
                yes: exit_label(next, first, *yes),
                no: exit_label(after_exit(next, first)?, second, *no),
            })
        }
        Terminator::Switch {
            arg,
            default,
            cases,
        } => {
            let mark = leaving.mark(function, at, *default);
            let after = after_exit(next, mark)?;
            Ok(Terminator::Switch {
                arg: arg.copied(alloc)?,
                default: exit_label(next, mark, *default),
                cases: exit_cases(alloc, function, leaving, at, after, cases.as_slice())?,
            })
        }
        Terminator::Ret(_) => term.copied(alloc),
        Terminator::Unreachable => Ok(Terminator::Unreachable),
    }
}
