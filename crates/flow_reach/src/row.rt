//! The points of one block, one after the other.

ghost use Rattle.std.specs.Prelude.{◌≡◌, IfOk};
ghost use Rattle.flow_blocks.specs.Words.{word_at as word_of_node};
ghost use Rattle.flow_reach.specs.Rows.{out_word as word_out, row_words as words_in_row, shut_of, stepped as stepped_over, stops_word as word_of_stops, without as without_bits};

use crate::question::Pass;
use ir_base::{BlockId, Items};
use std::alloc::{AllocError, Global};

/// The word of a node, empty where there is none.
pub fn word_at(words: &[u64], at: usize) -> u64
    ensures { result ≡ word_of_node words.now at }
{
    match words.get(at) {
        None => 0,
        Some(word) => *word,
    }
}

/// The bits of a word that the other hasn't.
fn without(word: u64, other: u64) -> u64
    ensures { result ≡ without_bits word other }
{
    word & (other ^ u64::MAX)
}

/// All questions in the closed block, and none elsewhere.
pub fn shut_word(closed: BlockId, block: BlockId) -> u64
    ensures { result ≡ shut_of closed block }
{
    if block == closed { u64::MAX } else { 0 }
}

/// The questions whose paths go on behind a point, of which these come to it.
fn stepped(shut: u64, pass: Pass, word: u64) -> u64
    ensures { result ≡ stepped_over shut pass word }
{
    without(word, pass.stops | shut) | pass.begins
}

/// The questions whose paths leave a block, of which these come to its front.
pub fn out_word(shut: u64, first: u64, row: &[Pass]) -> u64
    ensures { result ≡ word_out shut first row.now }
{
    let mut word = first;
    for pass in row {
        word = stepped(shut, *pass, word);
    }
    word
}

/// These questions and those that a point of the block stops.
pub fn stops_word(first: u64, row: &[Pass]) -> u64
    ensures { result ≡ word_of_stops first row.now }
{
    let mut word = first;
    for pass in row {
        word |= pass.stops;
    }
    word
}

/// For each point of a block the questions whose paths come to it, of which these come to the front.
pub fn row_words(
    alloc: Global,
    shut: u64,
    first: u64,
    row: &[Pass],
) -> Result<Items<u64>, AllocError>
    ensures { IfOk result (λ words. words ≡ words_in_row shut first row.now) }
{
    let mut words = Vec::with_capacity(alloc, row.len())?;
    let mut word = first;
    for pass in row {
        words.push(word)?;
        word = stepped(shut, *pass, word);
    }
    Ok(Items::from_vec(words))
}
