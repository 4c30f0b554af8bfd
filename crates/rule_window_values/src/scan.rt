//! One walk through a function's text, which finds the questions with a use.

ghost use Rattle.std.specs.Prelude.{◌≡◌, ◌==◌, slice_get};
ghost use Rattle.rule_uses.specs.flow_blocks.Words.{word_at as word_of_node};
ghost use Rattle.rule_uses.specs.Questions.{block_word, instrs_word, phis_word as word_of_phis};
ghost use Rattle.ir_parts.specs.Contents.{ending_operands, instr_operands};
ghost use Rattle.ir_paths.specs.Windows.{label_at};
ghost use Rattle.rule_uses.specs.run_step.Tables.{HasPositions};
ghost use Rattle.rule_window_values.specs.Words.{end_at, is_own_edge, label_leads, left_of, live_at, operands_word, own_at, taken_blocks, taken_incoming, taken_phis, taken_word, told_block, told_blocks, told_incoming, told_instrs, told_phis, with_used};

use crate::chunk::Chunk;
use crate::labels::label_at;
use crate::operands::{ending_word, instr_word, with_operand};
use crate::words::{phis_word, with_result, word_at};
use ir_base::{BlockId, Items};
use ir_model::{Block, Function, Incoming, Instr, Phi, Terminator};
use rule_uses::run_step_library::position;

fn left_of(base: u64, made: u64) -> u64
    ensures { result ≡ left_of base made }
{
    base & (made ^ u64::MAX)
}

/// The questions whose paths lead to a block; none to the end block.
fn live_at(chunk: &Chunk, block: BlockId) -> u64
    ensures { result ≡ live_at chunk.now block }
{
    if block == chunk.end {
        0
    } else {
        word_at(chunk.words.as_slice(), block)
    }
}

fn end_at(chunk: &Chunk, block: BlockId) -> u64
    ensures { result ≡ end_at chunk.now block }
{
    left_of(live_at(chunk, block), word_at(chunk.made.as_slice(), block))
}

// ---- uses in blocks and at their ends

fn told_incoming(
    function: &Function,
    table: &Items<BlockId>,
    numbers: &Items<Option<usize>>,
    chunk: &Chunk,
    first: u64,
    incoming: &[Incoming],
) -> u64
    requires { HasPositions function.now table.now }
    ensures { result ≡ told_incoming function.now numbers.now chunk.now first incoming.now }
{
    let mut told = first;
    for one in incoming {
        let word = with_operand(numbers, chunk.number, 0, &one.value);
        told |= word & end_at(chunk, position(function, table, one.from));
    }
    told
}

fn told_phis(
    function: &Function,
    table: &Items<BlockId>,
    numbers: &Items<Option<usize>>,
    chunk: &Chunk,
    first: u64,
    phis: &[Phi],
) -> u64
    requires { HasPositions function.now table.now }
    ensures { result ≡ told_phis function.now numbers.now chunk.now first phis.now }
{
    let mut told = first;
    for phi in phis {
        told = told_incoming(
            function,
            table,
            numbers,
            chunk,
            told,
            phi.incoming.as_slice(),
        );
    }
    told
}

fn with_instr(
    numbers: &Items<Option<usize>>,
    chunk: usize,
    base: u64,
    made: u64,
    told: u64,
    instr: &Instr,
) -> u64
    ensures { result ≡ with_used numbers.now chunk base made told (instr_operands instr.now) }
{
    told | (instr_word(numbers, chunk, instr) & left_of(base, made))
}

fn with_ending(
    numbers: &Items<Option<usize>>,
    chunk: usize,
    base: u64,
    made: u64,
    told: u64,
    term: &Terminator,
) -> u64
    ensures { result ≡ with_used numbers.now chunk base made told (ending_operands term.now) }
{
    told | (ending_word(numbers, chunk, term) & left_of(base, made))
}

/// What was made of the questions' values in a block so far, and the questions told so far.
#[derive(Clone, Copy, Debug, Drop)]
struct Walk {
    made: u64,
    told: u64,
}

fn told_instrs(
    numbers: &Items<Option<usize>>,
    chunk: usize,
    base: u64,
    first: Walk,
    instrs: &[Instr],
) -> Walk
    ensures made { result.made ≡ instrs_word numbers.now chunk first.made instrs.now }
    ensures told { result.told ≡ told_instrs numbers.now chunk base first.made first.told instrs.now }
{
    let mut walk = first;
    for instr in instrs {
        let told = with_instr(numbers, chunk, base, walk.made, walk.told, instr);
        let made = with_result(numbers, chunk, walk.made, instr);
        walk = Walk { made, told };
    }
    walk
}

#[tactic(auto, unfolding(crate::specs::Words::told_block))]
fn told_block(
    function: &Function,
    table: &Items<BlockId>,
    numbers: &Items<Option<usize>>,
    chunk: &Chunk,
    at: BlockId,
    told: u64,
    block: &Block,
) -> u64
    requires { HasPositions function.now table.now }
    ensures { result ≡ told_block function.now numbers.now chunk.now at told block.now }
{
    let phis = block.phis.as_slice();
    let base = live_at(chunk, at);
    let first = Walk {
        made: phis_word(numbers, chunk.number, phis),
        told: told_phis(function, table, numbers, chunk, told, phis),
    };
    let walk = told_instrs(numbers, chunk.number, base, first, block.instrs.as_slice());
    with_ending(
        numbers,
        chunk.number,
        base,
        walk.made,
        walk.told,
        &block.term,
    )
}

/// The questions of a chunk whose paths lead to a use.
pub fn told_blocks(
    function: &Function,
    table: &Items<BlockId>,
    numbers: &Items<Option<usize>>,
    chunk: &Chunk,
) -> u64
    requires { HasPositions function.now table.now }
    ensures { result ≡ told_blocks function.now numbers.now chunk.now 0 0 function.now.blocks }
{
    let mut told = 0;
    for (at, block) in function.blocks.as_slice().iter().enumerate() {
        told = told_block(function, table, numbers, chunk, at, told, block);
    }
    told
}

// ---- phis on own edges

fn label_leads(
    function: &Function,
    table: &Items<BlockId>,
    number: u64,
    from: BlockId,
    block: BlockId,
) -> bool
    requires { HasPositions function.now table.now }
    ensures { result ≡ label_leads function.now number from block }
{
    block == position(function, table, label_at(number, function, from))
}

fn is_own_edge(function: &Function, table: &Items<BlockId>, from: BlockId, block: BlockId) -> bool
    requires { HasPositions function.now table.now }
    ensures { result ≡ is_own_edge function.now from block }
{
    label_leads(function, table, 0, from, block) || label_leads(function, table, 1, from, block)
}

fn own_at(
    function: &Function,
    table: &Items<BlockId>,
    chunk: &Chunk,
    from: BlockId,
    block: BlockId,
) -> u64
    requires { HasPositions function.now table.now }
    ensures { result ≡ own_at function.now chunk.now from block }
{
    let word = word_at(chunk.own.as_slice(), from);
    if word == 0 {
        return 0;
    }
    if is_own_edge(function, table, from, block) {
        word
    } else {
        0
    }
}

/// The question of a value that a phi takes, where its block's own edge leads to the phi's block.
#[tactic(auto, unfolding(crate::specs::Words::taken_word))]
fn taken_word(
    function: &Function,
    table: &Items<BlockId>,
    numbers: &Items<Option<usize>>,
    chunk: &Chunk,
    block: BlockId,
    one: &Incoming,
) -> u64
    requires { HasPositions function.now table.now }
    ensures { result ≡ taken_word function.now numbers.now chunk.now block one.now }
{
    let from = position(function, table, one.from);
    with_operand(numbers, chunk.number, 0, &one.value) & own_at(function, table, chunk, from, block)
}

fn taken_incoming(
    function: &Function,
    table: &Items<BlockId>,
    numbers: &Items<Option<usize>>,
    chunk: &Chunk,
    block: BlockId,
    first: u64,
    incoming: &[Incoming],
) -> u64
    requires { HasPositions function.now table.now }
    ensures { result ≡ taken_incoming function.now numbers.now chunk.now block first incoming.now }
{
    let mut told = first;
    for one in incoming {
        told |= taken_word(function, table, numbers, chunk, block, one);
    }
    told
}

fn taken_phis(
    function: &Function,
    table: &Items<BlockId>,
    numbers: &Items<Option<usize>>,
    chunk: &Chunk,
    block: BlockId,
    first: u64,
    phis: &[Phi],
) -> u64
    requires { HasPositions function.now table.now }
    ensures { result ≡ taken_phis function.now numbers.now chunk.now block first phis.now }
{
    let mut told = first;
    for phi in phis {
        told = taken_incoming(
            function,
            table,
            numbers,
            chunk,
            block,
            told,
            phi.incoming.as_slice(),
        );
    }
    told
}

/// The questions of a chunk whose values phis take on the own edges of their suspends.
pub fn taken_blocks(
    function: &Function,
    table: &Items<BlockId>,
    numbers: &Items<Option<usize>>,
    chunk: &Chunk,
) -> u64
    requires { HasPositions function.now table.now }
    ensures { result ≡ taken_blocks function.now numbers.now chunk.now 0 0 function.now.blocks }
{
    let mut told = 0;
    for (at, block) in function.blocks.as_slice().iter().enumerate() {
        told = taken_phis(
            function,
            table,
            numbers,
            chunk,
            at,
            told,
            block.phis.as_slice(),
        );
    }
    told
}
