//! What is found of a function once, for all values.

ghost use Rattle.std.specs.Prelude.{◌≡◌, ◌++◌, IfOk, OnOk, filter, map};
ghost use Rattle.rule_uses.specs.Uses.{local_of};
ghost use Rattle.ir_paths.specs.Windows.{label_in as label_in_cases, label_of_term as label_of};
ghost use Rattle.run_step.specs.Tables.{HasPositions};
ghost use Rattle.frame_crossing.specs.EdgeUses.{blocks_uses, edge_uses as edge_uses_of, incoming_uses, is_behind as is_behind_of, is_edge as is_edge_of, phis_uses, uses_by, way_of as way_of_block};
ghost use Rattle.frame_crossing.specs.Words.{IsPlanOf, turned};

use crate::edge_use::EdgeUse;
use crate::edges::{EdgeSet, edge_set};
use ir_base::{BlockId, Items, ValueId};
use ir_calls::is_number;
use ir_model::{Block, Case, Function, Incoming, Operand, Phi, Terminator};
use ir_parts::next;
use rule_shape::end_block;
use rule_uses::flow_blocks_library::{Graph, block_graph};
use run_step::{position, positions_of};
use std::alloc::{AllocError, Global};

/// What is found of a function once, for all values.
#[derive(Drop)]
pub struct Plan {
    /// The blocks with the edges between them.
    pub graph: Graph,
    /// The same with each edge turned around.
    pub back: Graph,
    /// The end block, or behind the last block where there is none.
    pub end: BlockId,
    /// For each block where the edges of 0 and of 1 of its switch lead.
    pub ways: Items<(BlockId, BlockId)>,
    /// The uses of phis.
    pub phis: Items<EdgeUse>,
    /// The same, of those edges that there are.
    pub uses: Items<EdgeUse>,
    /// The same, on those ways.
    pub behind: Items<EdgeUse>,
}

// ---- the ways behind suspends

fn label_in(number: u64, cases: &[Case], default: ValueId) -> ValueId
    ensures { result ≡ label_in_cases number cases.now default }
{
    for case in cases {
        if is_number(number, &case.arg.value) {
            return case.target;
        }
    }
    default
}

fn label_of_term(number: u64, term: &Terminator) -> ValueId
    ensures { result ≡ label_of number term.now }
{
    match term {
        Terminator::Switch { default, cases, .. } => label_in(number, cases.as_slice(), *default),
        _ => 0,
    }
}

fn way_of(function: &Function, table: &Items<BlockId>, block: &Block) -> (BlockId, BlockId)
    requires { HasPositions function.now table.now }
    ensures { result ≡ way_of_block function.now block.now }
{
    (
        position(function, table, label_of_term(0, &block.term)),
        position(function, table, label_of_term(1, &block.term)),
    )
}

fn ways_of(
    alloc: Global,
    function: &Function,
    table: &Items<BlockId>,
) -> Result<Items<(BlockId, BlockId)>, AllocError>
    requires { HasPositions function.now table.now }
    ensures { IfOk result (λ ways. ways ≡ map (way_of_block function.now) function.now.blocks) }
{
    let mut ways = Items::new(alloc);
    for block in function.blocks.as_slice() {
        ways.push(way_of(function, table, block))?;
    }
    Ok(ways)
}

// ---- the uses of phis

fn push_by(
    uses: &mut Items<EdgeUse>,
    from: BlockId,
    to: BlockId,
    operand: &Operand,
) -> Result<(), AllocError>
    ensures { OnOk result (uses.new ≡ uses.old ++ uses_by from to (local_of operand.now)) }
{
    if let Operand::Local(value) = operand {
        uses.push(EdgeUse {
            from,
            to,
            value: *value,
        })?;
    }
    Ok(())
}

fn push_incoming(
    uses: &mut Items<EdgeUse>,
    function: &Function,
    table: &Items<BlockId>,
    to: BlockId,
    incoming: &[Incoming],
) -> Result<(), AllocError>
    requires { HasPositions function.now table.now }
    ensures { OnOk result (uses.new ≡ uses.old ++ incoming_uses function.now to incoming.now) }
{
    for one in incoming {
        push_by(uses, position(function, table, one.from), to, &one.value)?;
    }
    Ok(())
}

fn push_phis(
    uses: &mut Items<EdgeUse>,
    function: &Function,
    table: &Items<BlockId>,
    to: BlockId,
    phis: &[Phi],
) -> Result<(), AllocError>
    requires { HasPositions function.now table.now }
    ensures { OnOk result (uses.new ≡ uses.old ++ phis_uses function.now to phis.now) }
{
    for phi in phis {
        push_incoming(uses, function, table, to, phi.incoming.as_slice())?;
    }
    Ok(())
}

fn push_blocks(
    uses: &mut Items<EdgeUse>,
    function: &Function,
    table: &Items<BlockId>,
    blocks: &[Block],
) -> Result<(), AllocError>
    requires { HasPositions function.now table.now }
    ensures { OnOk result (uses.new ≡ uses.old ++ blocks_uses function.now 0 blocks.now) }
{
    let mut at = 0;
    for block in blocks {
        push_phis(uses, function, table, at, block.phis.as_slice())?;
        at = next(at)?;
    }
    Ok(())
}

fn edge_uses(
    alloc: Global,
    function: &Function,
    table: &Items<BlockId>,
) -> Result<Items<EdgeUse>, AllocError>
    requires { HasPositions function.now table.now }
    ensures { IfOk result (λ uses. uses ≡ edge_uses_of function.now) }
{
    let mut uses = Items::new(alloc);
    push_blocks(&mut uses, function, table, function.blocks.as_slice())?;
    Ok(uses)
}

fn on_known(alloc: Global, known: &EdgeSet, uses: &[EdgeUse]) -> Result<Items<EdgeUse>, AllocError>
    ensures { IfOk result (λ all. all ≡ filter (is_edge_of known.now) uses.now) }
{
    let mut all = Items::new(alloc);
    for one in uses {
        if known.has(one.from, one.to) {
            all.push(*one)?;
        }
    }
    Ok(all)
}

#[tactic(auto, using(crate::proofs::EdgeSets::same_filter))]
fn on_edges(
    alloc: Global,
    edges: &[(BlockId, BlockId)],
    uses: &[EdgeUse],
) -> Result<Items<EdgeUse>, AllocError>
    ensures { IfOk result (λ all. all ≡ filter (is_edge_of edges.now) uses.now) }
{
    let known = edge_set(alloc, edges)?;
    on_known(alloc, &known, uses)
}

fn is_behind(ways: &[(BlockId, BlockId)], one: &EdgeUse) -> bool
    ensures { result ≡ is_behind_of ways.now one.now }
{
    match ways.get(one.from) {
        None => false,
        Some((resumed, destroyed)) => one.to == *resumed || one.to == *destroyed,
    }
}

fn on_ways(
    alloc: Global,
    ways: &[(BlockId, BlockId)],
    uses: &[EdgeUse],
) -> Result<Items<EdgeUse>, AllocError>
    ensures { IfOk result (λ all. all ≡ filter (is_behind_of ways.now) uses.now) }
{
    let mut all = Items::new(alloc);
    for one in uses {
        if is_behind(ways, one) {
            all.push(*one)?;
        }
    }
    Ok(all)
}

// ---- all of it

fn turned_edges(
    alloc: Global,
    edges: &[(BlockId, BlockId)],
) -> Result<Items<(BlockId, BlockId)>, AllocError>
    ensures { IfOk result (λ all. all ≡ map turned edges.now) }
{
    let mut all = Items::new(alloc);
    for (from, to) in edges {
        all.push((*to, *from))?;
    }
    Ok(all)
}

/// What is found of the function once.
pub fn plan_of(alloc: Global, function: &Function) -> Result<Plan, AllocError>
    ensures { IfOk result (λ plan. IsPlanOf function.now plan) }
{
    let table = positions_of(alloc, function)?;
    let graph = block_graph(alloc, function)?;
    let turned = turned_edges(alloc, graph.edges.as_slice())?;
    let ways = ways_of(alloc, function, &table)?;
    let phis = edge_uses(alloc, function, &table)?;
    let uses = on_edges(alloc, graph.edges.as_slice(), phis.as_slice())?;
    let behind = on_ways(alloc, ways.as_slice(), phis.as_slice())?;
    let back = Graph {
        nodes: graph.nodes,
        edges: turned,
    };
    Ok(Plan {
        graph,
        back,
        end: end_block(function),
        ways,
        phis,
        uses,
        behind,
    })
}
