//! The edges between the blocks of a function.

ghost use Rattle.std.specs.Prelude.{◌≡◌, ◌∷◌, ◌++◌, IfOk, OnOk, map};
ghost use Rattle.flow_blocks.specs.Edges.{block_edges, edges_out, graph_of, successors_of};
ghost use Rattle.ir_model.specs.Names.{position_of};
ghost use Rattle.run_step.specs.ir_paths.Paths.{targets};
ghost use Rattle.run_step.specs.Tables.{HasPositions};

use flow_bits::flow_solver_library::Graph;
use ir_base::{BlockId, Items, ValueId};
use ir_model::{Block, Case, Function, Terminator};
use run_step::{position, positions_of};
use std::alloc::{AllocError, Global};

/// The label of the default and those of the cases.
fn switch_labels(
    alloc: Global,
    default: ValueId,
    cases: &[Case],
) -> Result<Vec<ValueId>, AllocError>
    ensures { IfOk result (λ all. all.items ≡ default ∷ map (λ k. k.target) cases.now) }
{
    let mut all = Vec::from_slice(alloc, &[default])?;
    for case in cases {
        all.push(case.target)?;
    }
    Ok(all)
}

/// The labels of a terminator, in their order.
fn labels_of(alloc: Global, term: &Terminator) -> Result<Vec<ValueId>, AllocError>
    ensures { IfOk result (λ all. all.items ≡ targets term.now) }
{
    match term {
        Terminator::Jump(label) => Vec::from_slice(alloc, &[*label]),
        Terminator::Branch { cond: _, yes, no } => Vec::from_slice(alloc, &[*yes, *no]),
        Terminator::Switch {
            arg: _,
            default,
            cases,
        } => switch_labels(alloc, *default, cases.as_slice()),
        Terminator::Ret(_) | Terminator::Unreachable => Ok(Vec::new(alloc)),
    }
}

/// The blocks of a terminator's labels.
fn blocks_of(
    alloc: Global,
    function: &Function,
    table: &Items<BlockId>,
    term: &Terminator,
) -> Result<Vec<BlockId>, AllocError>
    requires { HasPositions function.now table.now }
    ensures { IfOk result (λ all. all.items ≡ map (position_of function.now) (targets term.now)) }
{
    let labels = labels_of(alloc, term)?;
    let mut all = Vec::new(alloc);
    for label in labels.as_slice() {
        all.push(position(function, table, *label))?;
    }
    Ok(all)
}

/// The blocks to which edges lead from a block, in the order of its terminator's labels, with repeats. A label that no block
/// has leads behind the last block.
pub fn successors(
    alloc: Global,
    function: &Function,
    block: BlockId,
) -> Result<Vec<BlockId>, AllocError>
    ensures { IfOk result (λ all. all.items ≡ successors_of function.now block) }
{
    match function.blocks.get(block) {
        None => Ok(Vec::new(alloc)),
        Some(found) => {
            let table = positions_of(alloc, function)?;
            blocks_of(alloc, function, &table, &found.term)
        }
    }
}

/// Adds an edge from a block to each of these.
fn add_edges(
    from: BlockId,
    to: &[BlockId],
    edges: &mut Items<(usize, usize)>,
) -> Result<(), AllocError>
    ensures { OnOk result (edges.new ≡ edges.old ++ map (λ t. (from, t)) to.now) }
{
    for block in to {
        edges.push((from, *block))?;
    }
    Ok(())
}

fn add_block(
    alloc: Global,
    function: &Function,
    table: &Items<BlockId>,
    at: BlockId,
    block: &Block,
    edges: &mut Items<(usize, usize)>,
) -> Result<(), AllocError>
    requires { HasPositions function.now table.now }
    ensures { OnOk result (edges.new ≡ edges.old ++ edges_out function.now at block.now) }
{
    let to = blocks_of(alloc, function, table, &block.term)?;
    add_edges(at, to.as_slice(), edges)
}

fn all_edges(alloc: Global, function: &Function) -> Result<Items<(usize, usize)>, AllocError>
    ensures { IfOk result (λ edges. edges ≡ block_edges function.now) }
{
    let table = positions_of(alloc, function)?;
    let mut edges = Items::new(alloc);
    for (at, block) in function.blocks.as_slice().iter().enumerate() {
        add_block(alloc, function, &table, at, block, &mut edges)?;
    }
    Ok(edges)
}

/// The blocks of a function as a graph, with its edges in order of the text. Behind the blocks stands one more node, to which
/// edges of labels lead that no block has.
pub fn block_graph(alloc: Global, function: &Function) -> Result<Graph, AllocError>
    ensures { IfOk result (λ g. g ≡ graph_of function.now) }
{
    let edges = all_edges(alloc, function)?;
    match function.blocks.len().checked_add(1) {
        None => Err(AllocError),
        Some(nodes) => Ok(Graph { nodes, edges }),
    }
}
