//! The addresses of slots: their own, and those of getelementptrs of them, chains of them too.

ghost use Rattle.std.specs.Prelude.{◌≡◌, ◌<◌, ◌≤◌, ◌++◌, ◌^◌, ◌-◌, ℕ, IfOk, IsTrue, OnOk, length, replicate, slice_get, Some};
ghost use Rattle.flow_bits.specs.Reaching.{AnswersAt};
ghost use Rattle.flow_solver.specs.Paths.{HasNodes};
ghost use Rattle.ir_paths.specs.Slots.{has_name};
ghost use Rattle.rule_slots.specs.Steps.{steps_by, steps_in};
ghost use Rattle.frame_slots.specs.Told.{AreAddressWords, AreSlotWords};
ghost use Rattle.frame_slots.specs.Words.{questions_from};

use flow_bits::{Graph, reached};
use ir_base::{Items, ValueId};
use ir_model::{Block, Function, Instr, Operand};
use std::alloc::{AllocError, Global};

fn push_steps(instrs: &[Instr], all: &mut Items<(ValueId, ValueId)>) -> Result<(), AllocError>
    ensures { OnOk result (all.new ≡ all.old ++ steps_in instrs.now) }
{
    for instr in instrs {
        if let Instr::Gep {
            result,
            base: Operand::Local(base),
            ..
        } = instr
        {
            all.push((*base, *result))?;
        }
    }
    Ok(())
}

/// For each getelementptr of a local that local and the result.
fn all_steps(alloc: Global, blocks: &[Block]) -> Result<Items<(ValueId, ValueId)>, AllocError>
    ensures { IfOk result (λ all. all ≡ steps_by blocks.now) }
{
    let mut all = Items::new(alloc);
    for block in blocks {
        push_steps(block.instrs.as_slice(), &mut all)?;
    }
    Ok(all)
}

/// The larger of a number and that behind a name.
fn above(name: ValueId, count: usize) -> Result<usize, AllocError>
    ensures name { IfOk result (λ n. name < n) }
    ensures count { IfOk result (λ n. count ≤ n) }
{
    match name.checked_add(1) {
        None => Err(AllocError),
        Some(next) => Ok(next.max(count)),
    }
}

fn above_names(names: &[ValueId]) -> Result<usize, AllocError>
    ensures { IfOk result (λ n. (v : ℕ) → IsTrue (has_name names.now v) → v < n) }
{
    let mut count = 0;
    for name in names {
        count = above(*name, count)?;
    }
    Ok(count)
}

fn above_steps(steps: &[(ValueId, ValueId)], least: usize) -> Result<usize, AllocError>
    ensures steps { IfOk result (λ n. HasNodes n steps.now) }
    ensures least { IfOk result (λ n. least ≤ n) }
{
    let mut count = least;
    for (from, to) in steps {
        count = above(*to, above(*from, count)?)?;
    }
    Ok(count)
}

/// Each of these slots with a question of its own.
fn questions_of(alloc: Global, slots: &[ValueId]) -> Result<Vec<(usize, u64)>, AllocError>
    requires { length slots.now ≤ 64 }
    ensures { IfOk result (λ all. all.items ≡ questions_from 0 slots.now) }
{
    let mut all = Vec::new(alloc);
    let mut at: usize = 0;
    for slot in slots {
        all.push((*slot, 1 << at))?;
        at += 1;
    }
    Ok(all)
}

/// So many edges that let all questions through.
fn open_ways(alloc: Global, count: usize) -> Result<Vec<u64>, AllocError>
    ensures { IfOk result (λ kept. kept.items ≡ replicate count (2 ^ 64 - 1)) }
{
    vec![in alloc; u64::MAX; count]
}

/// For each name the word of the slots to which it belongs itself.
pub fn slot_words(alloc: Global, slots: &[ValueId]) -> Result<Vec<u64>, AllocError>
    requires { length slots.now ≤ 64 }
    ensures { IfOk result (λ words. AreSlotWords slots.now words.items) }
{
    let nodes = above_names(slots)?;
    let graph = Graph {
        nodes,
        edges: Items::new(alloc),
    };
    let starts = questions_of(alloc, slots)?;
    reached(alloc, &graph, starts.as_slice(), &[])
}

/// For each name the word of the slots of which it is an address: the result of the slot's alloca, or that of a
/// getelementptr of an address of it (LLVM Language Reference, "getelementptr").
pub fn address_words(
    alloc: Global,
    function: &Function,
    slots: &[ValueId],
) -> Result<Vec<u64>, AllocError>
    requires { length slots.now ≤ 64 }
    ensures { IfOk result (λ words. AreAddressWords function.now slots.now words.items) }
{
    let edges = all_steps(alloc, function.blocks.as_slice())?;
    let nodes = above_steps(edges.as_slice(), above_names(slots)?)?;
    let kept = open_ways(alloc, edges.len())?;
    let starts = questions_of(alloc, slots)?;
    let graph = Graph { nodes, edges };
    reached(alloc, &graph, starts.as_slice(), kept.as_slice())
}
