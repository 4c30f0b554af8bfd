//! The words of suspends, and pairs of values with the suspends that they cross.

ghost use Rattle.std.specs.Prelude.{◌≡◌, ◌==◌, ◌∷◌, ◌++◌, ◌<◌, ◌%◌, ℕ, [], IfOk, OnOk, length, map, replicate, slice_get, slice_set};
ghost use Rattle.frame_crossing.specs.Words.{AreNumbered, IsPlanOf, TellChunk, behind_word as behind_of, crossing_words as words_of_suspends, mark_unless, marked_from, pair_if, pairs_in, suspend_words, use_words as words_of_uses, way_at as way_of_block, word_if};

use crate::edge_use::EdgeUse;
use crate::needed::{needed_words, seen_words};
use crate::numbers::Numbers;
use crate::plan::Plan;
use crate::text::{has_bit, made_words, open_words, phis_word, result_word, value_word, word_at};
use ir_base::{BlockId, Items, SuspendId, ValueId};
use ir_calls::is_call_of;
use ir_model::{Block, Function, Instr, Intrinsic};
use ir_parts::next;
use std::alloc::{AllocError, Global};

// ---- the uses on the suspends' own edges

/// Words with one of them in another's place; past the end nothing changes.
fn with_word(words: Vec<u64>, at: usize, word: u64) -> Vec<u64>
    ensures { result.items ≡ slice_set words.items at word }
{
    let mut all = words;
    if at < all.len() {
        all[at] = word;
    }
    all
}

fn use_words(
    alloc: Global,
    count: usize,
    numbers: &Items<Option<usize>>,
    chunk: usize,
    uses: &[EdgeUse],
) -> Result<Vec<u64>, AllocError>
    ensures { IfOk result (λ words. words.items ≡ words_of_uses numbers.now chunk (replicate count 0) uses.now) }
{
    let mut words = vec![in alloc; 0; count]?;
    for one in uses {
        let word = word_at(words.as_slice(), one.from) | value_word(numbers, chunk, one.value);
        words = with_word(words, one.from, word);
    }
    Ok(words)
}

// ---- the words of suspends

fn push_if(words: &mut Vec<u64>, is_suspend: bool, word: u64) -> Result<(), AllocError>
    ensures { OnOk result (words.new.items ≡ words.old.items ++ word_if is_suspend word) }
{
    if is_suspend {
        words.push(word)?;
    }
    Ok(())
}

fn push_suspends(
    words: &mut Vec<u64>,
    numbers: &Items<Option<usize>>,
    chunk: usize,
    first: u64,
    behind: u64,
    instrs: &[Instr],
) -> Result<(), AllocError>
    ensures { OnOk result (words.new.items ≡ words.old.items ++ suspend_words numbers.now chunk first behind instrs.now) }
{
    let mut before = first;
    for instr in instrs {
        let is_suspend = is_call_of(Intrinsic::CoroSuspend, instr);
        push_if(words, is_suspend, before & behind)?;
        before = result_word(numbers, chunk, before, instr);
    }
    Ok(())
}

fn way_at(ways: &Items<(BlockId, BlockId)>, at: BlockId) -> (BlockId, BlockId)
    ensures { result ≡ way_of_block ways.now at }
{
    match ways.get(at) {
        None => (0, 0),
        Some(way) => *way,
    }
}

fn behind_word(own: &[u64], needed: &[u64], way: (BlockId, BlockId), at: BlockId) -> u64
    ensures { result ≡ behind_of own.now needed.now way at }
{
    word_at(own, at) | (word_at(needed, way.0) | word_at(needed, way.1))
}

fn crossing_words(
    alloc: Global,
    numbers: &Items<Option<usize>>,
    chunk: usize,
    seen: &[u64],
    own: &[u64],
    needed: &[u64],
    ways: &Items<(BlockId, BlockId)>,
    blocks: &[Block],
) -> Result<Vec<u64>, AllocError>
    ensures { IfOk result (λ words. words.items ≡ words_of_suspends numbers.now chunk seen.now own.now needed.now ways.now 0 blocks.now) }
{
    let mut words = Vec::new(alloc);
    let mut at = 0;
    for block in blocks {
        let first = phis_word(numbers, chunk, word_at(seen, at), block.phis.as_slice());
        let behind = behind_word(own, needed, way_at(ways, at), at);
        push_suspends(
            &mut words,
            numbers,
            chunk,
            first,
            behind,
            block.instrs.as_slice(),
        )?;
        at = next(at)?;
    }
    Ok(words)
}

/// For each suspend, in order of the text, the values of a chunk that cross it.
pub fn chunk_words(
    alloc: Global,
    function: &Function,
    plan: &Plan,
    all: &Numbers,
    chunk: usize,
) -> Result<Vec<u64>, AllocError>
    requires plan { IsPlanOf function.now plan.now }
    requires numbers { AreNumbered (length function.now.names) all.now.numbers all.now.values }
    ensures { IfOk result (λ words. TellChunk function.now all.now.numbers chunk words.items) }
{
    let numbers = &all.numbers;
    let blocks = function.blocks.as_slice();
    let made = made_words(alloc, numbers, chunk, blocks)?;
    let seen = seen_words(alloc, function, plan, numbers, chunk, made.as_slice())?;
    let stops = with_word(made, plan.end, u64::MAX);
    let opens = with_word(open_words(alloc, numbers, chunk, blocks)?, plan.end, 0);
    let needed = needed_words(
        alloc,
        function,
        plan,
        numbers,
        chunk,
        stops.as_slice(),
        opens.as_slice(),
    )?;
    let own = use_words(alloc, blocks.len(), numbers, chunk, plan.behind.as_slice())?;
    crossing_words(
        alloc,
        numbers,
        chunk,
        seen.as_slice(),
        own.as_slice(),
        needed.as_slice(),
        &plan.ways,
        blocks,
    )
}

// ---- pairs

fn mark_if(marked: &mut Vec<(SuspendId, u64)>, at: SuspendId, word: u64) -> Result<(), AllocError>
    ensures { OnOk result (marked.new.items ≡ marked.old.items ++ mark_unless (word == 0) at word) }
{
    if word != 0 {
        marked.push((at, word))?;
    }
    Ok(())
}

/// The words that aren't empty, by their positions.
pub fn marked(alloc: Global, words: &[u64]) -> Result<Vec<(SuspendId, u64)>, AllocError>
    ensures { IfOk result (λ all. all.items ≡ marked_from 0 words.now) }
{
    let mut all = Vec::new(alloc);
    let mut at = 0;
    for word in words {
        mark_if(&mut all, at, *word)?;
        at = next(at)?;
    }
    Ok(all)
}

fn pair_if(
    all: &mut Items<(ValueId, SuspendId)>,
    crosses: bool,
    value: ValueId,
    suspend: SuspendId,
) -> Result<(), AllocError>
    ensures { OnOk result (all.new ≡ all.old ++ pair_if crosses value suspend) }
{
    if crosses {
        all.push((value, suspend))?;
    }
    Ok(())
}

/// Adds the value with each suspend whose word has its bit.
pub fn push_pairs(
    all: &mut Items<(ValueId, SuspendId)>,
    value: ValueId,
    bit: usize,
    marked: &[(SuspendId, u64)],
) -> Result<(), AllocError>
    requires { bit < 64 }
    ensures { OnOk result (all.new ≡ all.old ++ pairs_in value bit marked.now) }
{
    for (suspend, word) in marked {
        pair_if(all, has_bit(*word, bit), value, *suspend)?;
    }
    Ok(())
}
