//! The names that getelementptrs make of others.

ghost use Rattle.std.specs.Prelude.{◌≡◌, ◌++◌, IfOk, OnOk, map, length, replicate, IsTrue};
ghost use Rattle.flow_solver.specs.Paths.{HasNodes};
ghost use Rattle.rule_slots.specs.Steps.{asked_at, is_odd, steps_in, steps_by, steps_of, AreBelow, AreLedFrom};

use crate::names::NameSet;
use flow_bits::{Graph, reached};
use ir_base::{Items, ValueId};
use ir_model::{Block, Function, Instr, Operand};
use std::alloc::{AllocError, Global};

fn push_steps(instrs: &[Instr], all: &mut Items<(usize, usize)>) -> Result<(), AllocError>
    ensures { OnOk result (all.new ≡ all.old ++ steps_in instrs.now) }
{
    for instr in instrs {
        if let Instr::Gep {
            result,
            base: Operand::Local(base),
            ..
        } = instr
        {
            all.push((*base, *result))?;
        }
    }
    Ok(())
}

/// For each getelementptr of a local that local and the result.
fn all_steps(alloc: Global, blocks: &[Block]) -> Result<Items<(usize, usize)>, AllocError>
    ensures { IfOk result (λ all. all ≡ steps_by blocks.now) }
{
    let mut all = Items::new(alloc);
    for block in blocks {
        push_steps(block.instrs.as_slice(), &mut all)?;
    }
    Ok(all)
}

#[tactic(auto, using(crate::proofs::Bounds::nodes_step, crate::proofs::Bounds::nodes_last))]
fn are_within(nodes: usize, steps: &[(usize, usize)]) -> bool
    ensures { IsTrue result → HasNodes nodes steps.now }
{
    for step in steps {
        if step.0 >= nodes || step.1 >= nodes {
            return false;
        }
    }
    true
}

/// The steps as a graph whose nodes are the function's names. There is no room for a name that isn't the function's.
fn step_graph(alloc: Global, function: &Function) -> Result<Graph, AllocError>
    ensures nodes { IfOk result (λ g. HasNodes g.nodes g.edges) }
    ensures count { IfOk result (λ g. g.nodes ≡ length function.now.names) }
    ensures edges { IfOk result (λ g. g.edges ≡ steps_of function.now) }
{
    let nodes = function.names.len();
    let edges = all_steps(alloc, function.blocks.as_slice())?;
    if !are_within(nodes, edges.as_slice()) {
        return Err(AllocError);
    }
    Ok(Graph { nodes, edges })
}

/// The one question, asked at each of these names.
fn asked(alloc: Global, names: &[ValueId]) -> Result<Vec<(usize, u64)>, AllocError>
    ensures { IfOk result (λ starts. starts.items ≡ asked_at names.now) }
{
    let mut starts = Vec::new(alloc);
    for name in names {
        starts.push((*name, 1))?;
    }
    Ok(starts)
}

/// So many edges that let the question through.
fn ones(alloc: Global, count: usize) -> Result<Vec<u64>, AllocError>
    ensures { IfOk result (λ kept. kept.items ≡ replicate count 1) }
{
    vec![in alloc; 1; count]
}

fn odd_ones(alloc: Global, words: &[u64]) -> Result<Items<bool>, AllocError>
    ensures { IfOk result (λ all. all ≡ map is_odd words.now) }
{
    let mut all = Items::new(alloc);
    for word in words {
        all.push(*word % 2 == 1)?;
    }
    Ok(all)
}

fn all_below(names: &[ValueId], count: usize) -> bool
    ensures { IsTrue result → AreBelow names.now count }
{
    for name in names {
        if *name >= count {
            return false;
        }
    }
    true
}

/// These names, and those that chains of getelementptrs make of them.
#[tactic(auto, using(crate::proofs::Led::asked_below))]
pub fn led_from(
    alloc: Global,
    function: &Function,
    names: &[ValueId],
) -> Result<NameSet, AllocError>
    ensures { IfOk result (AreLedFrom function.now names.now) }
{
    let graph = step_graph(alloc, function)?;
    if !all_below(names, graph.nodes) {
        return Err(AllocError);
    }
    let kept = ones(alloc, graph.edges.len())?;
    let starts = asked(alloc, names)?;
    let words = reached(alloc, &graph, starts.as_slice(), kept.as_slice())?;
    let marks = odd_ones(alloc, words.as_slice())?;
    Ok(NameSet::from_marks(marks))
}
