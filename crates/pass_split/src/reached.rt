//! The blocks that the entry reaches, and a function with these alone.

ghost use Rattle.std.specs.Prelude.{◌≡◌, ◌+◌, IfOk, OnOk, map, filter, length, true, false, replicate, slice_set};
ghost use Rattle.run_step.specs.Tables.{HasPositions};
ghost use Rattle.ir_paths.specs.Paths.{targets};
ghost use Rattle.pass_split.specs.Reached.{is_flagged, targets_in, targets_at, piled, todo_after, flagged_within, edges_of, entry_of, reached, kept_phi, kept_block, kept_blocks, pruned};

use ir_base::{BlockId, Data, Items, ValueId};
use ir_model::{Block, Case, Function, Incoming, Phi, Terminator};
use run_step::{Stack, position, positions_of};
use std::alloc::{AllocError, Global};

/// Whether a label is flagged.
pub fn is_flagged(flags: &Items<bool>, label: ValueId) -> bool
    ensures { result ≡ is_flagged flags.now label }
{
    match flags.get(label) {
        None => false,
        Some(flag) => *flag,
    }
}

fn pile_cases(todo: &mut Stack<ValueId>, cases: &[Case]) -> Result<(), AllocError>
    ensures { OnOk result (todo.new ≡ piled (map (λ k. k.target) cases.now) todo.old) }
{
    for case in cases {
        todo.push(case.target)?;
    }
    Ok(())
}

/// Puts the labels of a terminator on the pile, in order.
fn pile_targets(todo: &mut Stack<ValueId>, term: &Terminator) -> Result<(), AllocError>
    ensures { OnOk result (todo.new ≡ piled (targets term.now) todo.old) }
{
    match term {
        Terminator::Jump(label) => todo.push(*label)?,
        Terminator::Branch { cond: _, yes, no } => {
            todo.push(*yes)?;
            todo.push(*no)?;
        }
        Terminator::Switch {
            arg: _,
            default,
            cases,
        } => {
            todo.push(*default)?;
            pile_cases(todo, cases.as_slice())?;
        }
        Terminator::Ret(_) => {}
        Terminator::Unreachable => {}
    }
    Ok(())
}

fn pile_at(
    function: &Function,
    positions: &Items<BlockId>,
    label: ValueId,
    todo: &mut Stack<ValueId>,
) -> Result<(), AllocError>
    requires { HasPositions function.now positions.now }
    ensures { OnOk result (todo.new ≡ piled (targets_at function.now label) todo.old) }
{
    match function.blocks.get(position(function, positions, label)) {
        None => Ok(()),
        Some(block) => pile_targets(todo, &block.term),
    }
}

/// Flags a label that was taken from the pile, and puts the labels to which its edges lead there.
fn turn(
    function: &Function,
    positions: &Items<BlockId>,
    flags: &mut Items<bool>,
    label: ValueId,
    todo: &mut Stack<ValueId>,
) -> Result<(), AllocError>
    requires { HasPositions function.now positions.now }
    ensures flags { OnOk result (flags.new ≡ slice_set flags.old label true) }
    ensures todo { OnOk result (todo.new ≡ todo_after function.now flags.old label todo.old) }
{
    if !is_flagged(flags, label) {
        pile_at(function, positions, label, todo)?;
    }
    flags.set(label, true);
    Ok(())
}

fn target_count(term: &Terminator) -> Result<usize, AllocError>
    ensures { IfOk result (λ n. n ≡ length (targets term.now)) }
{
    match term {
        Terminator::Jump(_) => Ok(1),
        Terminator::Branch { .. } => Ok(2),
        Terminator::Switch {
            arg: _,
            default: _,
            cases,
        } => match cases.len().checked_add(1) {
            Some(count) => Ok(count),
            None => Err(AllocError),
        },
        Terminator::Ret(_) => Ok(0),
        Terminator::Unreachable => Ok(0),
    }
}

/// How many edges the blocks have.
fn edge_count(blocks: &[Block]) -> Result<usize, AllocError>
    ensures { IfOk result (λ n. n ≡ edges_of blocks.now) }
{
    let mut count: usize = 0;
    for block in blocks {
        match count.checked_add(target_count(&block.term)?) {
            Some(sum) => count = sum,
            None => return Err(AllocError),
        }
    }
    Ok(count)
}

/// Takes labels from the pile until none is left, for at most so many turns.
#[tactic(auto, using(crate::proofs::Turns::turn_taken, crate::proofs::Turns::turns_over, crate::proofs::Turns::no_turns))]
fn flag_within(
    turns: usize,
    function: &Function,
    positions: &Items<BlockId>,
    flags: &mut Items<bool>,
    todo: &mut Stack<ValueId>,
) -> Result<(), AllocError>
    requires { HasPositions function.now positions.now }
    ensures { OnOk result (flags.new ≡ flagged_within turns function.now flags.old todo.old) }
{
    for _ in 0..turns {
        match todo.pop() {
            None => return Ok(()),
            Some(label) => turn(function, positions, flags, label, todo)?,
        }
    }
    Ok(())
}

/// For each label whether the entry reaches it.
pub fn reached(alloc: Global, function: &Function) -> Result<Items<bool>, AllocError>
    ensures { IfOk result (λ x. x ≡ reached function.now) }
{
    let positions = positions_of(alloc, function)?;
    let mut flags = Items::from_vec(Vec::from_elem(alloc, false, function.names.len())?);
    let mut todo = Stack::new(alloc);
    if let Some(entry) = function.blocks.get(0) {
        todo.push(entry.label)?;
    }
    let turns = match edge_count(function.blocks.as_slice())?.checked_add(1) {
        Some(turns) => turns,
        None => return Err(AllocError),
    };
    flag_within(turns, function, &positions, &mut flags, &mut todo)?;
    Ok(flags)
}

fn kept_incoming(
    alloc: Global,
    flags: &Items<bool>,
    incoming: &[Incoming],
) -> Result<Items<Incoming>, AllocError>
    ensures { IfOk result (λ x. x ≡ filter (λ i. is_flagged flags.now i.from) incoming.now) }
{
    let mut all = Items::new(alloc);
    for one in incoming {
        if is_flagged(flags, one.from) {
            all.push(one.copied(alloc)?)?;
        }
    }
    Ok(all)
}

fn kept_phis(alloc: Global, flags: &Items<bool>, phis: &[Phi]) -> Result<Items<Phi>, AllocError>
    ensures { IfOk result (λ x. x ≡ map (kept_phi flags.now) phis.now) }
{
    let mut all = Items::new(alloc);
    for phi in phis {
        all.push(Phi {
            result: phi.result,
            ty: phi.ty.copied(alloc)?,
            incoming: kept_incoming(alloc, flags, phi.incoming.as_slice())?,
        })?;
    }
    Ok(all)
}

fn kept_block(alloc: Global, flags: &Items<bool>, block: &Block) -> Result<Block, AllocError>
    ensures { IfOk result (λ b. b ≡ kept_block flags.now block.now) }
{
    Ok(Block {
        label: block.label,
        phis: kept_phis(alloc, flags, block.phis.as_slice())?,
        instrs: block.instrs.copied(alloc)?,
        term: block.term.copied(alloc)?,
    })
}

fn kept_blocks(
    alloc: Global,
    flags: &Items<bool>,
    blocks: &[Block],
) -> Result<Items<Block>, AllocError>
    ensures { IfOk result (λ x. x ≡ kept_blocks flags.now blocks.now) }
{
    let mut all = Items::new(alloc);
    for block in blocks {
        if is_flagged(flags, block.label) {
            all.push(kept_block(alloc, flags, block)?)?;
        }
    }
    Ok(all)
}

/// The function without the blocks that its entry doesn't reach.
pub fn pruned(alloc: Global, function: Function) -> Result<Function, AllocError>
    ensures { IfOk result (λ f. f ≡ pruned function) }
{
    let flags = reached(alloc, &function)?;
    let blocks = kept_blocks(alloc, &flags, function.blocks.as_slice())?;
    Ok(Function {
        name: function.name,
        result: function.result,
        params: function.params,
        coroutine: function.coroutine,
        blocks,
        names: function.names,
    })
}
