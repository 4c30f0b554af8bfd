//! The edges of a function that leave a window and are no suspend's, in order of the text.

ghost use Rattle.std.specs.Prelude.{◌≡◌, ◌∷◌, ◌++◌, IfOk, OnOk, map};
ghost use Rattle.ir_paths.specs.Paths.{targets};
ghost use Rattle.pass_exits.specs.Exits.{block_exits, exit_to, exits_of, exits_to};
ghost use Rattle.pass_exits.specs.Leaving.{AreLeaving};

use crate::exit::Exit;
use crate::leaving::Leaving;
use ir_base::{BlockId, Items, SuspendId, ValueId};
use ir_model::{Block, Case, Function, Terminator};
use std::alloc::{AllocError, Global};

/// The label of the default and those of the cases.
fn switch_labels(
    alloc: Global,
    default: ValueId,
    cases: &[Case],
) -> Result<Items<ValueId>, AllocError>
    ensures { IfOk result (λ all. all ≡ default ∷ map (λ k. k.target) cases.now) }
{
    let mut all = Items::from_vec(Vec::from_slice(alloc, &[default])?);
    for case in cases {
        all.push(case.target)?;
    }
    Ok(all)
}

/// The labels of a terminator, in their order.
fn labels_of(alloc: Global, term: &Terminator) -> Result<Items<ValueId>, AllocError>
    ensures { IfOk result (λ all. all ≡ targets term.now) }
{
    match term {
        Terminator::Jump(label) => Ok(Items::from_vec(Vec::from_slice(alloc, &[*label])?)),
        Terminator::Branch { cond: _, yes, no } => {
            Ok(Items::from_vec(Vec::from_slice(alloc, &[*yes, *no])?))
        }
        Terminator::Switch {
            arg: _,
            default,
            cases,
        } => switch_labels(alloc, *default, cases.as_slice()),
        Terminator::Ret(_) | Terminator::Unreachable => Ok(Items::new(alloc)),
    }
}

/// Adds an edge, if it has a mark.
fn push_exit(
    all: &mut Items<Exit>,
    from: ValueId,
    target: ValueId,
    mark: Option<SuspendId>,
) -> Result<(), AllocError>
    ensures { OnOk result (all.new ≡ all.old ++ exit_to from target mark) }
{
    match mark {
        None => Ok(()),
        Some(suspend) => {
            all.push(Exit {
                from,
                target,
                suspend,
            })?;
            Ok(())
        }
    }
}

fn push_exits(
    all: &mut Items<Exit>,
    function: &Function,
    leaving: &Leaving,
    at: BlockId,
    from: ValueId,
    labels: &[ValueId],
) -> Result<(), AllocError>
    requires { AreLeaving function.now leaving.now }
    ensures { OnOk result (all.new ≡ all.old ++ exits_to function.now at from labels.now) }
{
    for label in labels {
        push_exit(all, from, *label, leaving.mark(function, at, *label))?;
    }
    Ok(())
}

/// The edges of a block that leave a window.
pub fn block_exits(
    alloc: Global,
    function: &Function,
    leaving: &Leaving,
    at: BlockId,
    block: &Block,
) -> Result<Items<Exit>, AllocError>
    requires { AreLeaving function.now leaving.now }
    ensures { IfOk result (λ all. all ≡ block_exits function.now at block.now) }
{
    let labels = labels_of(alloc, &block.term)?;
    let mut all = Items::new(alloc);
    push_exits(
        &mut all,
        function,
        leaving,
        at,
        block.label,
        labels.as_slice(),
    )?;
    Ok(all)
}

fn push_all(all: &mut Items<Exit>, exits: &[Exit]) -> Result<(), AllocError>
    ensures { OnOk result (all.new ≡ all.old ++ exits.now) }
{
    for exit in exits {
        all.push(*exit)?;
    }
    Ok(())
}

/// The edges of a function that leave a window.
pub fn exits_of(
    alloc: Global,
    function: &Function,
    leaving: &Leaving,
) -> Result<Items<Exit>, AllocError>
    requires { AreLeaving function.now leaving.now }
    ensures { IfOk result (λ all. all ≡ exits_of function.now) }
{
    let mut all = Items::new(alloc);
    for (at, block) in function.blocks.as_slice().iter().enumerate() {
        let exits = block_exits(alloc, function, leaving, at, block)?;
        push_all(&mut all, exits.as_slice())?;
    }
    Ok(all)
}
