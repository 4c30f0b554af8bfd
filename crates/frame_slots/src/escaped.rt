//! The slots that escape.

ghost use Rattle.std.specs.Prelude.{◌≡◌};
ghost use Rattle.frame_slots.specs.Words.{block_word as word_of_block, blocks_word as word_of_blocks, incoming_word as word_of_incoming, instrs_word as word_of_instrs, phis_word as word_of_phis};

use crate::words::{exposed, with_operand, with_term};
use ir_model::{Block, Function, Incoming, Instr, Phi};

fn incoming_word(words: &[u64], first: u64, incoming: &[Incoming]) -> u64
    ensures { result ≡ word_of_incoming words.now first incoming.now }
{
    let mut word = first;
    for one in incoming {
        word = with_operand(words, word, &one.value);
    }
    word
}

fn phis_word(words: &[u64], first: u64, phis: &[Phi]) -> u64
    ensures { result ≡ word_of_phis words.now first phis.now }
{
    let mut word = first;
    for phi in phis {
        word = incoming_word(words, word, phi.incoming.as_slice());
    }
    word
}

fn instrs_word(words: &[u64], first: u64, instrs: &[Instr]) -> u64
    ensures { result ≡ word_of_instrs words.now first instrs.now }
{
    let mut word = first;
    for instr in instrs {
        word |= exposed(words, instr);
    }
    word
}

fn block_word(words: &[u64], first: u64, block: &Block) -> u64
    ensures { result ≡ word_of_block words.now first block.now }
{
    let phis = phis_word(words, first, block.phis.as_slice());
    let instrs = instrs_word(words, phis, block.instrs.as_slice());
    with_term(words, instrs, &block.term)
}

/// The word of the names that occur otherwise than as the address of a load, store or memcpy, as the base of a
/// getelementptr, in a marker or in coro.id: by the words of a chunk's addresses the slots that escape.
pub fn escaped_word(function: &Function, words: &[u64]) -> u64
    ensures { result ≡ word_of_blocks words.now 0 function.now.blocks }
{
    let mut word = 0;
    for block in function.blocks.as_slice() {
        word = block_word(words, word, block);
    }
    word
}
