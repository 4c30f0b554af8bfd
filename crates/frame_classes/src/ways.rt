//! The ways behind suspends, and what stands on edges.

ghost use Rattle.std.specs.Prelude.{◌≡◌, IfOk, slice_get};
ghost use Rattle.ir_paths.specs.Windows.{label_in as label_in_cases, label_of_term as label_of};
ghost use Rattle.frame_slots.specs.run_step.Tables.{HasPositions};
ghost use Rattle.frame_classes.specs.Ways.{edge_fronts as fronts_of_edges, edges_word as word_of_edges, fronts_from, is_either, own_if, way_of as way_of_block, ways_of as ways_of_blocks, ways_word as word_of_ways};
ghost use Rattle.frame_slots.specs.rule_slots.Early.{end_at as end_of_block};
ghost use Rattle.frame_slots.specs.Words.{word_at_point};

use crate::rows::{Rows, row_at, word_in};
use frame_slots::EdgeWord;
use frame_slots::run_step_library::{position, positions_of};
use ir_base::{BlockId, Items, ValueId};
use ir_calls::is_number;
use ir_model::{Block, Case, Function, Terminator};
use ir_parts::next;
use ir_paths::Point;
use std::alloc::{AllocError, Global};

// ---- the ways

fn label_in(number: u64, cases: &[Case], default: ValueId) -> ValueId
    ensures { result ≡ label_in_cases number cases.now default }
{
    for case in cases {
        if is_number(number, &case.arg.value) {
            return case.target;
        }
    }
    default
}

fn label_of_term(number: u64, term: &Terminator) -> ValueId
    ensures { result ≡ label_of number term.now }
{
    match term {
        Terminator::Switch { default, cases, .. } => label_in(number, cases.as_slice(), *default),
        _ => 0,
    }
}

fn way_of(function: &Function, table: &Items<BlockId>, block: &Block) -> (BlockId, BlockId)
    requires { HasPositions function.now table.now }
    ensures { result ≡ way_of_block function.now block.now }
{
    (
        position(function, table, label_of_term(0, &block.term)),
        position(function, table, label_of_term(1, &block.term)),
    )
}

/// For each block where the edges of 0 and of 1 of its switch lead: of a suspend's block its resume and destroy edges.
pub fn ways_of(alloc: Global, function: &Function) -> Result<Items<(BlockId, BlockId)>, AllocError>
    ensures { IfOk result (λ ways. ways ≡ ways_of_blocks function.now) }
{
    let table = positions_of(alloc, function)?;
    let mut ways = Items::new(alloc);
    for block in function.blocks.as_slice() {
        ways.push(way_of(function, &table, block))?;
    }
    Ok(ways)
}

/// Whether an edge is one of the ways.
fn is_on_way(ways: &[(BlockId, BlockId)], edge: &EdgeWord) -> bool
    ensures { result ≡ is_either edge.now.to (slice_get ways.now edge.now.from) }
{
    match ways.get(edge.from) {
        None => false,
        Some((resumed, destroyed)) => edge.to == *resumed || edge.to == *destroyed,
    }
}

/// Fronts of paths: both ways of each block, with the word of the block.
pub fn way_fronts(
    alloc: Global,
    ways: &[(BlockId, BlockId)],
    own: &[u64],
) -> Result<Items<(BlockId, u64)>, AllocError>
    ensures { IfOk result (λ all. all ≡ fronts_from 0 ways.now own.now) }
{
    let mut all = Items::new(alloc);
    let mut at = 0;
    for way in ways {
        all.push((way.0, word_in(own, at)))?;
        all.push((way.1, word_in(own, at)))?;
        at = next(at)?;
    }
    Ok(all)
}

// ---- edges

/// Fronts of paths: where the edges lead, with their words.
pub fn edge_fronts(alloc: Global, edges: &[EdgeWord]) -> Result<Items<(BlockId, u64)>, AllocError>
    ensures { IfOk result (λ all. all ≡ fronts_of_edges edges.now) }
{
    let mut all = Items::new(alloc);
    for edge in edges {
        all.push((edge.to, edge.word))?;
    }
    Ok(all)
}

fn end_at(function: &Function, block: BlockId) -> Point
    ensures { result ≡ end_of_block function.now block }
{
    match function.blocks.get(block) {
        None => Point { block, at: 0 },
        Some(found) => Point {
            block,
            at: found.instrs.len(),
        },
    }
}

fn word_at(rows: &Rows, point: Point) -> u64
    ensures { result ≡ word_at_point rows.now point }
{
    word_in(row_at(rows, point.block), point.at)
}

/// What stands on edges and has a question of the words at the ends of the blocks that the edges leave, with a word before.
pub fn edges_word(function: &Function, rows: &Rows, first: u64, edges: &[EdgeWord]) -> u64
    ensures { result ≡ word_of_edges function.now rows.now first edges.now }
{
    let mut word = first;
    for edge in edges {
        word |= edge.word & word_at(rows, end_at(function, edge.from));
    }
    word
}

fn own_word(is_own: bool, word: u64, own: u64) -> u64
    ensures { result ≡ own_if is_own word own }
{
    if is_own { word & own } else { 0 }
}

/// What stands on the ways and has a question of the words of the blocks, with a word before.
pub fn ways_word(ways: &[(BlockId, BlockId)], own: &[u64], first: u64, edges: &[EdgeWord]) -> u64
    ensures { result ≡ word_of_ways ways.now own.now first edges.now }
{
    let mut word = first;
    for edge in edges {
        word |= own_word(is_on_way(ways, edge), edge.word, word_in(own, edge.from));
    }
    word
}
