//! Words of 64 questions, each of which asks for one value.

ghost use Rattle.std.specs.Prelude.{◌≡◌, ◌<◌, ◌∷◌, [], ℕ, IfOk, IfSome, Some, length, map, slice_get};
ghost use Rattle.flow_bits.specs.Reaching.{AnswersAt};
ghost use Rattle.flow_blocks.specs.Edges.{graph_of};
ghost use Rattle.flow_blocks.specs.Words.{word_at as word_of_node};
ghost use Rattle.ir_parts.specs.Contents.{result_of as result_of_instr};
ghost use Rattle.rule_uses.specs.Questions.{all_bits, bit_of as bit_of_value, block_word as word_of_block, edge_word, has_bit as has_bit_of, instrs_word as word_of_instrs, phis_word as word_of_phis, result_word as word_with, value_word as word_of_value};

use flow_bits::reached;
use flow_solver::Graph;
use ir_base::{Items, ValueId};
use ir_model::{Block, Function, Instr, Phi};
use ir_parts::result_of;
use std::alloc::{AllocError, Global};

/// Which of a chunk's questions asks for the value.
pub fn bit_of(numbers: &Items<Option<usize>>, chunk: usize, value: ValueId) -> Option<usize>
    ensures value { result ≡ bit_of_value numbers.now chunk value }
    ensures below { IfSome result (λ c. c < 64) }
{
    match numbers.get(value) {
        Some(Some(number)) => {
            if *number / 64 == chunk {
                Some(*number % 64)
            } else {
                None
            }
        }
        _ => None,
    }
}

fn value_word(numbers: &Items<Option<usize>>, chunk: usize, value: ValueId) -> u64
    ensures { result ≡ word_of_value numbers.now chunk value }
{
    match bit_of(numbers, chunk, value) {
        None => 0,
        Some(bit) => 1 << bit,
    }
}

fn phis_word(numbers: &Items<Option<usize>>, chunk: usize, phis: &[Phi]) -> u64
    ensures { result ≡ word_of_phis numbers.now chunk 0 phis.now }
{
    let mut word = 0;
    for phi in phis {
        word |= value_word(numbers, chunk, phi.result);
    }
    word
}

fn result_word(numbers: &Items<Option<usize>>, chunk: usize, word: u64, instr: &Instr) -> u64
    ensures { result ≡ word_with numbers.now chunk word (result_of_instr instr.now) }
{
    match result_of(instr) {
        None => word,
        Some(value) => word | value_word(numbers, chunk, value),
    }
}

fn instrs_word(numbers: &Items<Option<usize>>, chunk: usize, first: u64, instrs: &[Instr]) -> u64
    ensures { result ≡ word_of_instrs numbers.now chunk first instrs.now }
{
    let mut word = first;
    for instr in instrs {
        word = result_word(numbers, chunk, word, instr);
    }
    word
}

fn block_word(numbers: &Items<Option<usize>>, chunk: usize, block: &Block) -> u64
    ensures { result ≡ word_of_block numbers.now chunk block.now }
{
    let phis = phis_word(numbers, chunk, block.phis.as_slice());
    instrs_word(numbers, chunk, phis, block.instrs.as_slice())
}

/// For each block the questions whose values it makes.
pub fn made_words(
    alloc: Global,
    numbers: &Items<Option<usize>>,
    chunk: usize,
    blocks: &[Block],
) -> Result<Vec<u64>, AllocError>
    ensures { IfOk result (λ words. words.items ≡ map (word_of_block numbers.now chunk) blocks.now) }
{
    let mut words = Vec::new(alloc);
    for block in blocks {
        words.push(block_word(numbers, chunk, block))?;
    }
    Ok(words)
}

fn word_at(words: &[u64], at: usize) -> u64
    ensures { result ≡ word_of_node words.now at }
{
    match words.get(at) {
        None => 0,
        Some(word) => *word,
    }
}

/// Whether a node's word has a bit.
pub fn has_bit(words: &[u64], at: usize, bit: usize) -> bool
    requires { bit < 64 }
    ensures { result ≡ has_bit_of (word_of_node words.now at) bit }
{
    (word_at(words, at) >> bit) & 1 == 1
}

/// For each edge the questions whose values its block doesn't make.
fn kept_words(alloc: Global, edges: &[(usize, usize)], made: &[u64]) -> Result<Vec<u64>, AllocError>
    ensures { IfOk result (λ words. words.items ≡ map (edge_word made.now) edges.now) }
{
    let mut words = Vec::new(alloc);
    for (from, _) in edges {
        words.push(word_at(made, *from) ^ u64::MAX)?;
    }
    Ok(words)
}

/// For each block the questions whose values some path from the entry doesn't make before it.
pub fn reached_words(
    alloc: Global,
    function: &Function,
    graph: &Graph,
    made: &[u64],
) -> Result<Vec<u64>, AllocError>
    requires { graph.now ≡ graph_of function.now }
    ensures nodes { IfOk result (λ words. length words.items ≡ graph.now.nodes) }
    ensures words { IfOk result (λ words. (node word : ℕ) → slice_get words.items node ≡ Some word → AnswersAt graph.now.edges (map (edge_word made.now) graph.now.edges) ((0, all_bits) ∷ []) node word) }
{
    let kept = kept_words(alloc, graph.edges.as_slice(), made)?;
    reached(alloc, graph, &[(0, u64::MAX)], kept.as_slice())
}
