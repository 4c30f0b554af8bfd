//! Words of 64 questions, each of which asks for one value.

ghost use Rattle.std.specs.Prelude.{◌≡◌, ◌<◌, ◌==◌, ℕ, IfOk, IfSome, OnOk, Some, length, map, slice_get};
ghost use Rattle.flow_bits.specs.Reaching.{AnswersAt};
ghost use Rattle.rule_uses.specs.flow_blocks.Edges.{graph_of};
ghost use Rattle.rule_uses.specs.flow_blocks.Words.{word_at as word_of_node};
ghost use Rattle.ir_parts.specs.Contents.{result_of as result_of_instr};
ghost use Rattle.rule_uses.specs.Questions.{bit_of as bit_of_value, block_word as word_of_block, has_bit as has_bit_of, instrs_word as word_of_instrs, phis_word as word_of_phis, result_word as word_with, value_word as word_of_value};
ghost use Rattle.ir_paths.specs.Windows.{end_block as end_block_of};
ghost use Rattle.rule_window_values.specs.Spans.{AreSpansOf};
ghost use Rattle.rule_window_values.specs.Told.{IsChunkOf};
ghost use Rattle.rule_window_values.specs.Words.{own_if, own_word, passed_word as passed_by, span_word as word_of_span, starts_of, values_word as word_of_values};

use crate::chunk::Chunk;
use crate::numbers::Numbers;
use crate::spans::Span;
use flow_bits::reached;
use flow_solver::Graph;
use ir_base::{BlockId, Items, ValueId};
use ir_model::{Block, Function, Instr, Phi};
use ir_parts::result_of;
use std::alloc::{AllocError, Global};

/// Which of a chunk's questions asks for the value.
fn bit_of(numbers: &Items<Option<usize>>, chunk: usize, value: ValueId) -> Option<usize>
    ensures value { result ≡ bit_of_value numbers.now chunk value }
    ensures below { IfSome result (λ c. c < 64) }
{
    match numbers.get(value) {
        Some(Some(number)) => {
            if *number / 64 == chunk {
                Some(*number % 64)
            } else {
                None
            }
        }
        _ => None,
    }
}

/// The chunk's question that asks for the value, as a word.
pub fn value_word(numbers: &Items<Option<usize>>, chunk: usize, value: ValueId) -> u64
    ensures { result ≡ word_of_value numbers.now chunk value }
{
    match bit_of(numbers, chunk, value) {
        None => 0,
        Some(bit) => 1 << bit,
    }
}

fn values_word(numbers: &Items<Option<usize>>, chunk: usize, values: &[ValueId]) -> u64
    ensures { result ≡ word_of_values numbers.now chunk 0 values.now }
{
    let mut word = 0;
    for value in values {
        word |= value_word(numbers, chunk, *value);
    }
    word
}

/// The questions whose values these phis make.
pub fn phis_word(numbers: &Items<Option<usize>>, chunk: usize, phis: &[Phi]) -> u64
    ensures { result ≡ word_of_phis numbers.now chunk 0 phis.now }
{
    let mut word = 0;
    for phi in phis {
        word |= value_word(numbers, chunk, phi.result);
    }
    word
}

/// A word with the question whose value the instruction makes.
pub fn with_result(numbers: &Items<Option<usize>>, chunk: usize, word: u64, instr: &Instr) -> u64
    ensures { result ≡ word_with numbers.now chunk word (result_of_instr instr.now) }
{
    match result_of(instr) {
        None => word,
        Some(value) => word | value_word(numbers, chunk, value),
    }
}

fn instrs_word(numbers: &Items<Option<usize>>, chunk: usize, first: u64, instrs: &[Instr]) -> u64
    ensures { result ≡ word_of_instrs numbers.now chunk first instrs.now }
{
    let mut word = first;
    for instr in instrs {
        word = with_result(numbers, chunk, word, instr);
    }
    word
}

fn block_word(numbers: &Items<Option<usize>>, chunk: usize, block: &Block) -> u64
    ensures { result ≡ word_of_block numbers.now chunk block.now }
{
    let phis = phis_word(numbers, chunk, block.phis.as_slice());
    instrs_word(numbers, chunk, phis, block.instrs.as_slice())
}

/// For each block the questions whose values it makes.
fn made_words(
    alloc: Global,
    numbers: &Items<Option<usize>>,
    chunk: usize,
    blocks: &[Block],
) -> Result<Vec<u64>, AllocError>
    ensures { IfOk result (λ words. words.items ≡ map (word_of_block numbers.now chunk) blocks.now) }
{
    let mut words = Vec::new(alloc);
    for block in blocks {
        words.push(block_word(numbers, chunk, block))?;
    }
    Ok(words)
}

/// The word of a node.
pub fn word_at(words: &[u64], at: usize) -> u64
    ensures { result ≡ word_of_node words.now at }
{
    match words.get(at) {
        None => 0,
        Some(word) => *word,
    }
}

/// Whether a node's word has a bit.
pub fn has_bit(words: &[u64], at: usize, bit: usize) -> bool
    requires { bit < 64 }
    ensures { result ≡ has_bit_of (word_of_node words.now at) bit }
{
    (word_at(words, at) >> bit) & 1 == 1
}

fn passed_word(made: &[u64], end: BlockId, edge: (usize, usize)) -> u64
    ensures { result ≡ passed_by made.now end edge }
{
    if edge.0 == end {
        0
    } else {
        word_at(made, edge.0) ^ u64::MAX
    }
}

/// For each edge the questions that it lets through.
fn passed_words(
    alloc: Global,
    edges: &[(usize, usize)],
    made: &[u64],
    end: BlockId,
) -> Result<Vec<u64>, AllocError>
    ensures { IfOk result (λ words. words.items ≡ map (passed_by made.now end) edges.now) }
{
    let mut words = Vec::new(alloc);
    for edge in edges {
        words.push(passed_word(made, end, *edge))?;
    }
    Ok(words)
}

/// The questions of each span, at the blocks to which its suspend's own edges lead.
fn starts(
    alloc: Global,
    numbers: &Items<Option<usize>>,
    chunk: usize,
    spans: &[Span],
) -> Result<Vec<(usize, u64)>, AllocError>
    ensures { IfOk result (λ all. all.items ≡ starts_of numbers.now chunk spans.now) }
{
    let mut all = Vec::new(alloc);
    for span in spans {
        let word = values_word(numbers, chunk, span.values.as_slice());
        all.push((span.resumed, word))?;
        all.push((span.destroyed, word))?;
    }
    Ok(all)
}

/// Adds questions to those of a block. There is no room for a block that isn't the function's.
fn add_own(own: &mut Items<u64>, block: BlockId, word: u64) -> Result<(), AllocError>
    ensures { OnOk result ((at : ℕ) → word_of_node own.new at ≡ own_if (at == block) (word_of_node own.old at) word) }
{
    match own.get(block) {
        None => Err(AllocError),
        Some(old) => {
            let both = *old | word;
            own.set(block, both);
            Ok(())
        }
    }
}

/// For each block, of so many, the questions of the spans whose suspends stand there.
fn own_words(
    alloc: Global,
    numbers: &Items<Option<usize>>,
    chunk: usize,
    blocks: usize,
    spans: &[Span],
) -> Result<Items<u64>, AllocError>
    ensures { IfOk result (λ own. (block : ℕ) → word_of_node own block ≡ own_word numbers.now chunk block 0 spans.now) }
{
    let mut own = Items::from_vec(vec![in alloc; 0; blocks]?);
    for span in spans {
        let word = values_word(numbers, chunk, span.values.as_slice());
        add_own(&mut own, span.block, word)?;
    }
    Ok(own)
}

/// The words of a chunk.
pub fn chunk_of(
    alloc: Global,
    function: &Function,
    graph: &Graph,
    end: BlockId,
    all: &Numbers,
    spans: &[Span],
    number: usize,
) -> Result<Chunk, AllocError>
    requires graph { graph.now ≡ graph_of function.now }
    requires end { end ≡ end_block_of function.now }
    requires spans { AreSpansOf function.now spans.now }
    ensures { IfOk result (IsChunkOf function.now all.now.numbers spans.now number) }
{
    let blocks = function.blocks.as_slice();
    let made = made_words(alloc, &all.numbers, number, blocks)?;
    let passed = passed_words(alloc, graph.edges.as_slice(), made.as_slice(), end)?;
    let starts = starts(alloc, &all.numbers, number, spans)?;
    let words = reached(alloc, graph, starts.as_slice(), passed.as_slice())?;
    let own = own_words(alloc, &all.numbers, number, blocks.len(), spans)?;
    Ok(Chunk {
        number,
        end,
        made: Items::from_vec(made),
        words: Items::from_vec(words),
        own,
    })
}
