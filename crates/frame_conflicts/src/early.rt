//! Slots that are used before begin.

ghost use Rattle.std.specs.Prelude.{◌≡◌, ◌≤◌, IfOk, OnOk, length, map};
ghost use Rattle.flow_points.specs.Reached.{IsGraphOf};
ghost use Rattle.frame_conflicts.specs.Early.{AreEarly, early_edges as early_on_edges, early_row as early_in_row, early_rows as early_in_rows, word_if as word_where};
ghost use Rattle.frame_classes.specs.rule_slots.Early.{IsBeforeBegin, end_at as end_of_block};
ghost use Rattle.flow_points.specs.Rows.{is_marked};
ghost use Rattle.frame_classes.specs.frame_slots.Words.{phi_uses as uses_of_phis, use_row as row_of_uses, used as used_by};
ghost use Rattle.frame_classes.specs.rule_windows.Sets.{AreThose};

use flow_points::PointGraph;
use frame_classes::frame_slots_library::{
    EdgeWord, PhiUse, address_words, edge_words, used, with_term,
};
use frame_classes::rule_windows_library::{PointSet, points_where, without_begin};
use ir_base::{BlockId, Items, ValueId};
use ir_calls::CallOf;
use ir_model::{Block, Function, Instr, Intrinsic};
use ir_parts::next;
use ir_paths::Point;
use std::alloc::{AllocError, Global};

/// The points to which a path from the entry leads without passing begin, and the entry.
pub fn before_begin(
    alloc: Global,
    graph: &mut PointGraph,
    function: &Function,
) -> Result<PointSet, AllocError>
    requires { IsGraphOf function.now graph.old }
    ensures before { IfOk result (AreThose (IsBeforeBegin function.now)) }
    ensures kept { OnOk result (IsGraphOf function.now graph.new) }
{
    let begin = CallOf {
        intrinsic: Intrinsic::CoroBegin,
    };
    let begins = points_where(alloc, &begin, function)?;
    let mut set = without_begin(alloc, graph, function, begins.as_slice())?;
    set.add(Point { block: 0, at: 0 })?;
    Ok(set)
}

fn word_if(is_early: bool, word: u64) -> u64
    ensures { result ≡ word_where is_early word }
{
    if is_early { word } else { 0 }
}

/// What an instruction uses, if it stands at a marked point.
fn early_use(before: &PointSet, point: Point, words: &[u64], instr: &Instr) -> u64
    ensures { result ≡ word_where (is_marked before.now point) (used_by words.now instr.now) }
{
    if before.has(point) {
        used(words, instr)
    } else {
        0
    }
}

fn early_instrs(
    before: &PointSet,
    block: BlockId,
    first: u64,
    words: &[u64],
    instrs: &[Instr],
) -> Result<u64, AllocError>
    ensures { IfOk result (λ word. word ≡ early_in_row before.now block 0 first (map (used_by words.now) instrs.now)) }
{
    let mut word = first;
    let mut at = 0;
    for instr in instrs {
        word |= early_use(before, Point { block, at }, words, instr);
        at = next(at)?;
    }
    Ok(word)
}

fn early_block(
    before: &PointSet,
    block: BlockId,
    first: u64,
    words: &[u64],
    text: &Block,
) -> Result<u64, AllocError>
    ensures { IfOk result (λ word. word ≡ early_in_row before.now block 0 first (row_of_uses words.now text.now)) }
{
    let instrs = text.instrs.as_slice();
    let word = early_instrs(before, block, first, words, instrs)?;
    let end = Point {
        block,
        at: instrs.len(),
    };
    Ok(word | word_if(before.has(end), with_term(words, 0, &text.term)))
}

/// What stands at marked points and uses names.
fn early_blocks(before: &PointSet, words: &[u64], blocks: &[Block]) -> Result<u64, AllocError>
    ensures { IfOk result (λ word. word ≡ early_in_rows before.now 0 0 (map (row_of_uses words.now) blocks.now)) }
{
    let mut word = 0;
    let mut at = 0;
    for block in blocks {
        word = early_block(before, at, word, words, block)?;
        at = next(at)?;
    }
    Ok(word)
}

/// The end of a block.
fn end_at(function: &Function, block: BlockId) -> Point
    ensures { result ≡ end_of_block function.now block }
{
    match function.blocks.get(block) {
        None => Point { block, at: 0 },
        Some(found) => Point {
            block,
            at: found.instrs.len(),
        },
    }
}

fn early_edges(function: &Function, before: &PointSet, first: u64, edges: &[EdgeWord]) -> u64
    ensures { result ≡ early_on_edges function.now before.now first edges.now }
{
    let mut word = first;
    for edge in edges {
        word |= word_if(before.has(end_at(function, edge.from)), edge.word);
    }
    word
}

/// The slots of a chunk that are used before begin. What a phi takes is used at the end of the block that its label names.
pub fn early_word(
    alloc: Global,
    function: &Function,
    before: &PointSet,
    uses: &[PhiUse],
    slots: &[ValueId],
) -> Result<u64, AllocError>
    requires before { AreThose (IsBeforeBegin function.now) before.now }
    requires uses { uses.now ≡ uses_of_phis function.now }
    requires slots { length slots.now ≤ 64 }
    ensures { IfOk result (AreEarly function.now slots.now) }
{
    let words = address_words(alloc, function, slots)?;
    let names = words.as_slice();
    let edges = edge_words(alloc, names, uses)?;
    let blocks = function.blocks.as_slice();
    let early = early_blocks(before, names, blocks)?;
    let on_edges = edges.as_slice();
    let word = early_edges(function, before, early, on_edges);
    Ok(word)
}
