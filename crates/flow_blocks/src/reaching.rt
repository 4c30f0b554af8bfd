//! The blocks that paths reach.

ghost use Rattle.std.specs.Prelude.{◌≡◌, ◌∷◌, ◌+◌, ◌<◌, ◌↔◌, [], ℕ, IfOk, IsTrue, length, map};
ghost use Rattle.flow_bits.specs.Bits.{HasBit};
ghost use Rattle.flow_blocks.specs.Edges.{successors_of};
ghost use Rattle.flow_blocks.specs.Reach.{AreReached};
ghost use Rattle.flow_blocks.specs.Words.{AreMarked, AreTold, kept_word, word_at};
ghost use Rattle.flow_bits.specs.flow_solver.Paths.{IsListed};

use crate::edges::{block_graph, successors};
use flow_bits::reached;
use ir_base::{BlockId, Items};
use ir_model::Function;
use std::alloc::{AllocError, Global};

/// Which of so many nodes are listed.
fn marked(alloc: Global, nodes: usize, blocks: &[BlockId]) -> Result<Items<bool>, AllocError>
    ensures { IfOk result (λ marks. AreMarked nodes blocks.now marks) }
{
    let mut marks = Items::from_vec(vec![in alloc; false; nodes]?);
    for block in blocks {
        marks.set(*block, true);
    }
    Ok(marks)
}

fn kept_word(marks: &[bool], block: BlockId) -> u64
    ensures { result ≡ kept_word marks.now block }
{
    match marks.get(block) {
        Some(true) => 0,
        _ => 1,
    }
}

/// For each edge whether it leads to a node that isn't marked.
fn kept_words(
    alloc: Global,
    edges: &[(usize, usize)],
    marks: &[bool],
) -> Result<Vec<u64>, AllocError>
    ensures { IfOk result (λ words. words.items ≡ map (λ e. kept_word marks.now e.1) edges.now) }
{
    let mut words = Vec::new(alloc);
    for (_, to) in edges {
        words.push(kept_word(marks, *to))?;
    }
    Ok(words)
}

/// The one question, asked at each of these.
fn asked(alloc: Global, blocks: &[BlockId]) -> Result<Vec<(usize, u64)>, AllocError>
    ensures { IfOk result (λ starts. starts.items ≡ map (λ b. (b, 1)) blocks.now) }
{
    let mut starts = Vec::new(alloc);
    for block in blocks {
        starts.push((*block, 1))?;
    }
    Ok(starts)
}

fn is_told(words: &[u64], at: usize) -> bool
    ensures { IsTrue result ↔ HasBit (word_at words.now at) 0 }
{
    match words.get(at) {
        None => false,
        Some(word) => *word % 2 == 1,
    }
}

/// The blocks, of so many, whose word has the lowest bit.
fn told(alloc: Global, words: &[u64], count: usize) -> Result<Vec<BlockId>, AllocError>
    ensures { IfOk result (λ blocks. AreTold words.now count blocks.items) }
{
    let mut blocks = Vec::new(alloc);
    for at in 0..count {
        if is_told(words, at) {
            blocks.push(at)?;
        }
    }
    Ok(blocks)
}

/// The blocks to which paths lead from these, over edges to none that is avoided.
fn found(
    alloc: Global,
    function: &Function,
    starts: &[BlockId],
    avoiding: &[BlockId],
) -> Result<Vec<BlockId>, AllocError>
    requires { (b : ℕ) → IsListed b starts.now → b < length function.now.blocks + 1 }
    ensures { IfOk result (λ blocks. AreReached function.now starts.now avoiding.now blocks.items) }
{
    let graph = block_graph(alloc, function)?;
    let marks = marked(alloc, graph.nodes, avoiding)?;
    let kept = kept_words(alloc, graph.edges.as_slice(), marks.as_slice())?;
    let asked = asked(alloc, starts)?;
    let words = reached(alloc, &graph, asked.as_slice(), kept.as_slice())?;
    told(alloc, words.as_slice(), function.blocks.len())
}

/// A block, and the blocks that a path from it reaches on which no block after the first is avoided, in order of the text.
pub fn reach(
    alloc: Global,
    function: &Function,
    from: BlockId,
    avoiding: &[BlockId],
) -> Result<Vec<BlockId>, AllocError>
    ensures { IfOk result (λ blocks. AreReached function.now (from ∷ []) avoiding.now blocks.items) }
{
    if from < function.blocks.len() {
        found(alloc, function, &[from], avoiding)
    } else {
        Ok(Vec::new(alloc))
    }
}

/// The blocks that a block reaches by an edge or more, in order of the text. What is reached from the block of `coro.end`
/// stands after the end.
pub fn after_end(
    alloc: Global,
    function: &Function,
    end: BlockId,
) -> Result<Vec<BlockId>, AllocError>
    ensures { IfOk result (λ blocks. AreReached function.now (successors_of function.now end) [] blocks.items) }
{
    let starts = successors(alloc, function, end)?;
    found(alloc, function, starts.as_slice(), &[])
}
