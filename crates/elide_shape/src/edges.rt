//! The edges of a function, with their kinds.

ghost use Rattle.std.specs.Prelude.{◌≡◌, ◌∷◌, ◌++◌, ◌+◌, IfOk, OnOk, length, map, replicate};
ghost use Rattle.rule_shape.specs.Uses.{counted_all};
ghost use Rattle.elide_shape.specs.Edges.{edges_of as edges_of_function, edges_out, edges_by, jumps_to as jumps_to_block, ways_on as ways_on_value};
ghost use Rattle.ir_model.specs.Names.{position_of};
ghost use Rattle.ir_paths.specs.Paths.{targets};
ghost use Rattle.ir_model.specs.declared.operand.Operand.{Operand as TheOperand};
ghost use Rattle.run_step.specs.Tables.{HasPositions};

use flow_blocks::{EdgeKind, edge_kind};
use ir_base::{BlockId, Items, ValueId};
use ir_calls::is_value;
use ir_model::{Block, Case, Function, Operand, Terminator};
use ir_parts::next;
use rule_shape::Uses;
use run_step::position;
use std::alloc::{AllocError, Global};

/// An edge between blocks, with its kind.
#[derive(Clone, Copy, Drop)]
pub struct Edge {
    pub from: BlockId,
    pub to: BlockId,
    pub kind: EdgeKind,
}

/// The label of the default and those of the cases.
fn switch_labels(
    alloc: Global,
    default: ValueId,
    cases: &[Case],
) -> Result<Items<ValueId>, AllocError>
    ensures { IfOk result (λ all. all ≡ default ∷ map (λ k. k.target) cases.now) }
{
    let mut all = Items::from_vec(Vec::from_slice(alloc, &[default])?);
    for case in cases {
        all.push(case.target)?;
    }
    Ok(all)
}

/// The labels of a terminator, in their order.
fn labels_of(alloc: Global, term: &Terminator) -> Result<Items<ValueId>, AllocError>
    ensures { IfOk result (λ all. all ≡ targets term.now) }
{
    match term {
        Terminator::Jump(label) => Ok(Items::from_vec(Vec::from_slice(alloc, &[*label])?)),
        Terminator::Branch { cond: _, yes, no } => {
            Ok(Items::from_vec(Vec::from_slice(alloc, &[*yes, *no])?))
        }
        Terminator::Switch {
            arg: _,
            default,
            cases,
        } => switch_labels(alloc, *default, cases.as_slice()),
        Terminator::Ret(_) | Terminator::Unreachable => Ok(Items::new(alloc)),
    }
}

/// Adds the edges from a block to these labels.
fn push_edges(
    function: &Function,
    table: &Items<BlockId>,
    from: BlockId,
    labels: &[ValueId],
    edges: &mut Items<Edge>,
) -> Result<(), AllocError>
    requires { HasPositions function.now table.now }
    ensures { OnOk result (edges.new ≡ edges.old ++ edges_out function.now from 0 labels.now) }
{
    let mut at = 0;
    for label in labels {
        edges.push(Edge {
            from,
            to: position(function, table, *label),
            kind: edge_kind(function, from, at),
        })?;
        at = next(at)?;
    }
    Ok(())
}

fn push_blocks(
    alloc: Global,
    function: &Function,
    table: &Items<BlockId>,
    blocks: &[Block],
    edges: &mut Items<Edge>,
) -> Result<(), AllocError>
    requires { HasPositions function.now table.now }
    ensures { OnOk result (edges.new ≡ edges.old ++ edges_by function.now 0 blocks.now) }
{
    let mut from = 0;
    for block in blocks {
        let labels = labels_of(alloc, &block.term)?;
        push_edges(function, table, from, labels.as_slice(), edges)?;
        from = next(from)?;
    }
    Ok(())
}

/// The edges of a function, in order of the text.
#[tactic(auto, unfolding(crate::specs::Edges::edges_of))]
pub fn edges_of(
    alloc: Global,
    function: &Function,
    table: &Items<BlockId>,
) -> Result<Items<Edge>, AllocError>
    requires { HasPositions function.now table.now }
    ensures { IfOk result (λ edges. edges ≡ edges_of_function function.now) }
{
    let mut edges = Items::new(alloc);
    push_blocks(
        alloc,
        function,
        table,
        function.blocks.as_slice(),
        &mut edges,
    )?;
    Ok(edges)
}

/// For each of so many blocks how many edges lead to it.
pub fn entries_of(alloc: Global, nodes: usize, edges: &[Edge]) -> Result<Uses, AllocError>
    ensures { IfOk result (λ counts. counts ≡ counted_all (replicate nodes 0) (map (λ e. TheOperand.Local e.to) edges.now)) }
{
    let mut counts = Uses::new(alloc, nodes)?;
    for edge in edges {
        counts.add(&Operand::Local(edge.to))?;
    }
    Ok(counts)
}

/// The labels of a branch on the value: where it is true, and where it is false.
pub fn ways_on(value: Option<ValueId>, term: &Terminator) -> Option<(ValueId, ValueId)>
    ensures { result ≡ ways_on_value value term.now }
{
    match term {
        Terminator::Branch { cond, yes, no } => {
            if is_value(value, cond) {
                Some((*yes, *no))
            } else {
                None
            }
        }
        _ => None,
    }
}

/// Whether the terminator is `br label` to the block at a position.
pub fn jumps_to(
    function: &Function,
    table: &Items<BlockId>,
    block: BlockId,
    term: &Terminator,
) -> bool
    requires { HasPositions function.now table.now }
    ensures { result ≡ jumps_to_block function.now block term.now }
{
    match term {
        Terminator::Jump(label) => position(function, table, *label) == block,
        _ => false,
    }
}
