//! Names carried back along chains of getelementptrs.

ghost use Rattle.std.specs.Prelude.{◌≡◌, ◌<◌, ◌≤◌, ◌++◌, ◌∷◌, ℕ, [], IfOk, IsTrue, OnOk, map, replicate};
ghost use Rattle.flow_solver.specs.Paths.{HasNodes};
ghost use Rattle.flow_points.specs.ir_paths.Slots.{has_name};
ghost use Rattle.flow_facts.specs.Chains.{AreLedBack, bases_by, bases_in, has_lowest};

use flow_bits::{Graph, reached};
use ir_base::{Items, ValueId};
use ir_model::{Block, Function, Instr, Operand};
use std::alloc::{AllocError, Global};

fn push_base(instr: &Instr, all: &mut Items<(ValueId, ValueId)>) -> Result<(), AllocError>
    ensures { OnOk result (all.new ≡ all.old ++ bases_in (instr.now ∷ [])) }
{
    if let Instr::Gep {
        result,
        base: Operand::Local(base),
        ..
    } = instr
    {
        all.push((*result, *base))?;
    }
    Ok(())
}

#[tactic(auto, using(crate::proofs::Bases::bases_in_cons))]
fn push_bases(instrs: &[Instr], all: &mut Items<(ValueId, ValueId)>) -> Result<(), AllocError>
    ensures { OnOk result (all.new ≡ all.old ++ bases_in instrs.now) }
{
    for instr in instrs {
        push_base(instr, all)?;
    }
    Ok(())
}

/// The result of each getelementptr of a local, with that local.
fn bases_of(alloc: Global, blocks: &[Block]) -> Result<Items<(ValueId, ValueId)>, AllocError>
    ensures { IfOk result (λ all. all ≡ bases_by blocks.now) }
{
    let mut all = Items::new(alloc);
    for block in blocks {
        push_bases(block.instrs.as_slice(), &mut all)?;
    }
    Ok(all)
}

/// The larger of a number and that behind a name.
fn above(name: ValueId, count: usize) -> Result<usize, AllocError>
    ensures name { IfOk result (λ n. name < n) }
    ensures count { IfOk result (λ n. count ≤ n) }
{
    match name.checked_add(1) {
        None => Err(AllocError),
        Some(next) => Ok(next.max(count)),
    }
}

fn above_names(names: &[ValueId]) -> Result<usize, AllocError>
    ensures { IfOk result (λ n. (v : ℕ) → IsTrue (has_name names.now v) → v < n) }
{
    let mut count = 0;
    for name in names {
        count = above(*name, count)?;
    }
    Ok(count)
}

fn above_edges(edges: &[(ValueId, ValueId)], least: usize) -> Result<usize, AllocError>
    ensures edges { IfOk result (λ n. HasNodes n edges.now) }
    ensures least { IfOk result (λ n. least ≤ n) }
{
    let mut count = least;
    for (from, to) in edges {
        count = above(*to, above(*from, count)?)?;
    }
    Ok(count)
}

/// The one question, asked at each of these names.
fn asked(alloc: Global, names: &[ValueId]) -> Result<Vec<(usize, u64)>, AllocError>
    ensures { IfOk result (λ starts. starts.items ≡ map (λ v. (v, 1)) names.now) }
{
    let mut starts = Vec::new(alloc);
    for name in names {
        starts.push((*name, 1))?;
    }
    Ok(starts)
}

fn kept_words(alloc: Global, count: usize) -> Result<Vec<u64>, AllocError>
    ensures { IfOk result (λ words. words.items ≡ replicate count 1) }
{
    vec![in alloc; 1; count]
}

/// For each name a word whose lowest bit says whether getelementptrs of it lead to one of these.
pub fn led_back(
    alloc: Global,
    function: &Function,
    names: &[ValueId],
) -> Result<Vec<u64>, AllocError>
    ensures { IfOk result (λ words. AreLedBack function.now names.now words.items) }
{
    let edges = bases_of(alloc, function.blocks.as_slice())?;
    let nodes = above_edges(edges.as_slice(), above_names(names)?)?;
    let kept = kept_words(alloc, edges.len())?;
    let starts = asked(alloc, names)?;
    let graph = Graph { nodes, edges };
    reached(alloc, &graph, starts.as_slice(), kept.as_slice())
}

/// Whether the word of a name has the lowest bit.
pub fn has_lowest_bit(words: &[u64], name: ValueId) -> bool
    ensures { result ≡ has_lowest words.now name }
{
    match words.get(name) {
        None => false,
        Some(word) => *word % 2 == 1,
    }
}
