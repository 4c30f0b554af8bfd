//! Rows of words: one row for each block of a function, with a word for each instruction and one for the terminator.

ghost use Rattle.std.specs.Prelude.{◌≡◌, IfOk, bit_and, bit_or};
ghost use Rattle.flow_points.specs.Rows.{is_marked};
ghost use Rattle.frame_classes.specs.Rows.{block_words as words_of_blocks, call_row as row_of_calls, call_rows as rows_of_calls, call_word as word_of_call, cleared as cleared_rows, common as common_rows, joined as joined_rows, kept_of, kept_rows, others as others_of, pass_by, passes_by as passes_of, row_at as row_of, row_word as word_of_row, rows_word as word_of_rows, set_row as row_of_set, set_rows as rows_of_set, touching, touching_rows, word_in as word_of, word_of_mark, zipped};

use flow_reach::Pass;
use frame_slots::rule_windows_library::PointSet;
use ir_base::{BlockId, Items};
use ir_calls::is_call_of;
use ir_model::{Block, Function, Instr, Intrinsic};
use ir_parts::next;
use ir_paths::Point;
use std::alloc::{AllocError, Global};

/// Rows of words.
pub type Rows = Items<Items<u64>>;

/// The word at a position of a row, empty where there is none.
pub fn word_in(row: &[u64], at: usize) -> u64
    ensures { result ≡ word_of row.now at }
{
    match row.get(at) {
        None => 0,
        Some(word) => *word,
    }
}

/// The row of a block, empty where there is none.
pub fn row_at(rows: &Rows, block: BlockId) -> &[u64]
    ensures { result.now ≡ row_of rows.now block }
{
    match rows.get(block) {
        None => &[],
        Some(row) => row.as_slice(),
    }
}

// ---- two rows

fn joined_row(alloc: Global, row: &[u64], other: &[u64]) -> Result<Items<u64>, AllocError>
    ensures { IfOk result (λ all. all ≡ zipped bit_or 0 row.now other.now) }
{
    let mut all = Vec::with_capacity(alloc, row.len())?;
    let mut at = 0;
    for word in row {
        all.push(*word | word_in(other, at))?;
        at = next(at)?;
    }
    Ok(Items::from_vec(all))
}

/// The bits of both.
pub fn joined(alloc: Global, rows: &Rows, others: &Rows) -> Result<Rows, AllocError>
    ensures { IfOk result (λ all. all ≡ joined_rows rows.now others.now) }
{
    let mut all = Items::new(alloc);
    let mut at = 0;
    for row in rows.as_slice() {
        all.push(joined_row(alloc, row.as_slice(), row_at(others, at))?)?;
        at = next(at)?;
    }
    Ok(all)
}

fn common_row(alloc: Global, row: &[u64], other: &[u64]) -> Result<Items<u64>, AllocError>
    ensures { IfOk result (λ all. all ≡ zipped bit_and 0 row.now other.now) }
{
    let mut all = Vec::with_capacity(alloc, row.len())?;
    let mut at = 0;
    for word in row {
        all.push(*word & word_in(other, at))?;
        at = next(at)?;
    }
    Ok(Items::from_vec(all))
}

/// The bits that both have.
pub fn common(alloc: Global, rows: &Rows, others: &Rows) -> Result<Rows, AllocError>
    ensures { IfOk result (λ all. all ≡ common_rows rows.now others.now) }
{
    let mut all = Items::new(alloc);
    let mut at = 0;
    for row in rows.as_slice() {
        all.push(common_row(alloc, row.as_slice(), row_at(others, at))?)?;
        at = next(at)?;
    }
    Ok(all)
}

fn pass_row(
    alloc: Global,
    mask: u64,
    stops: &[u64],
    begins: &[u64],
) -> Result<Items<Pass>, AllocError>
    ensures { IfOk result (λ all. all ≡ zipped pass_by 0 (kept_of mask stops.now) begins.now) }
{
    let mut all = Vec::with_capacity(alloc, stops.len())?;
    let mut at = 0;
    for word in stops {
        all.push(Pass {
            stops: *word & mask,
            begins: word_in(begins, at),
        })?;
        at = next(at)?;
    }
    Ok(Items::from_vec(all))
}

/// The questions that end where the one says, if they are among some, and begin where the other says.
pub fn passes_by(
    alloc: Global,
    mask: u64,
    stops: &Rows,
    begins: &Rows,
) -> Result<Items<Items<Pass>>, AllocError>
    ensures { IfOk result (λ all. all ≡ passes_of (kept_rows mask stops.now) begins.now) }
{
    let mut all = Vec::with_capacity(alloc, stops.len())?;
    let mut at = 0;
    for row in stops.as_slice() {
        all.push(pass_row(alloc, mask, row.as_slice(), row_at(begins, at))?)?;
        at = next(at)?;
    }
    Ok(Items::from_vec(all))
}

// ---- all words together

fn row_word(first: u64, row: &[u64]) -> u64
    ensures { result ≡ word_of_row first row.now }
{
    let mut all = first;
    for word in row {
        all |= *word;
    }
    all
}

/// The bits of all words.
pub fn rows_word(first: u64, rows: &Rows) -> u64
    ensures { result ≡ word_of_rows first rows.now }
{
    let mut all = first;
    for row in rows.as_slice() {
        all = row_word(all, row.as_slice());
    }
    all
}

fn common_in_row(first: u64, row: &[u64], other: &[u64]) -> Result<u64, AllocError>
    ensures { IfOk result (λ word. word ≡ word_of_row first (zipped bit_and 0 row.now other.now)) }
{
    let mut all = first;
    let mut at = 0;
    for word in row {
        all |= *word & word_in(other, at);
        at = next(at)?;
    }
    Ok(all)
}

/// The bits that two words at one place have both.
pub fn common_word(rows: &Rows, others: &Rows) -> Result<u64, AllocError>
    ensures { IfOk result (λ word. word ≡ word_of_rows 0 (common_rows rows.now others.now)) }
{
    let mut all = 0;
    let mut at = 0;
    for row in rows.as_slice() {
        all = common_in_row(all, row.as_slice(), row_at(others, at))?;
        at = next(at)?;
    }
    Ok(all)
}

fn touched_in_row(
    first: u64,
    mask: u64,
    row: &[u64],
    starts: &[u64],
    other: &[u64],
) -> Result<u64, AllocError>
    ensures { IfOk result (λ word. word ≡ word_of_row first (zipped bit_and 0 (zipped (touching mask) 0 row.now starts.now) other.now)) }
{
    let mut all = first;
    let mut at = 0;
    for word in row {
        all |= (*word | (word_in(starts, at) & mask)) & word_in(other, at);
        at = next(at)?;
    }
    Ok(all)
}

/// The same of rows to which the questions among some of other rows are added.
pub fn touched_word(mask: u64, rows: &Rows, starts: &Rows, others: &Rows) -> Result<u64, AllocError>
    ensures { IfOk result (λ word. word ≡ word_of_rows 0 (common_rows (touching_rows mask rows.now starts.now) others.now)) }
{
    let mut all = 0;
    let mut at = 0;
    for row in rows.as_slice() {
        let here = row_at(starts, at);
        all = touched_in_row(all, mask, row.as_slice(), here, row_at(others, at))?;
        at = next(at)?;
    }
    Ok(all)
}

/// For each block the bits of all its words.
pub fn block_words(alloc: Global, rows: &Rows) -> Result<Items<u64>, AllocError>
    ensures { IfOk result (λ all. all ≡ words_of_blocks rows.now) }
{
    let mut all = Items::new(alloc);
    for row in rows.as_slice() {
        all.push(row_word(0, row.as_slice()))?;
    }
    Ok(all)
}

// ---- rows of a function

fn call_word(intrinsic: Intrinsic, word: u64, instr: &Instr) -> u64
    ensures { result ≡ word_of_call intrinsic word instr.now }
{
    if is_call_of(intrinsic, instr) {
        word
    } else {
        0
    }
}

fn call_row(
    alloc: Global,
    intrinsic: Intrinsic,
    word: u64,
    block: &Block,
) -> Result<Items<u64>, AllocError>
    ensures { IfOk result (λ row. row ≡ row_of_calls intrinsic word block.now) }
{
    let mut row = Items::new(alloc);
    for instr in block.instrs.as_slice() {
        row.push(call_word(intrinsic, word, instr))?;
    }
    row.push(0)?;
    Ok(row)
}

/// Rows with a word at the calls of an intrinsic.
pub fn call_rows(
    alloc: Global,
    function: &Function,
    intrinsic: Intrinsic,
    word: u64,
) -> Result<Rows, AllocError>
    ensures { IfOk result (λ rows. rows ≡ rows_of_calls intrinsic word function.now) }
{
    let mut rows = Items::new(alloc);
    for block in function.blocks.as_slice() {
        rows.push(call_row(alloc, intrinsic, word, block)?)?;
    }
    Ok(rows)
}

fn mark_word(set: &PointSet, point: Point) -> u64
    ensures { result ≡ word_of_mark (is_marked set.now point) }
{
    if set.has(point) { u64::MAX } else { 0 }
}

#[tactic(auto, using(crate::proofs::Places::set_row_more))]
fn set_row(
    alloc: Global,
    set: &PointSet,
    block: BlockId,
    instrs: &[Instr],
) -> Result<Items<u64>, AllocError>
    ensures { IfOk result (λ row. row ≡ row_of_set set.now block 0 instrs.now) }
{
    let mut row = Items::new(alloc);
    for at in 0..instrs.len() {
        row.push(mark_word(set, Point { block, at }))?;
    }
    let end = Point {
        block,
        at: instrs.len(),
    };
    row.push(mark_word(set, end))?;
    Ok(row)
}

/// Rows with all bits at the points of a set.
pub fn set_rows(alloc: Global, set: &PointSet, blocks: &[Block]) -> Result<Rows, AllocError>
    ensures { IfOk result (λ rows. rows ≡ rows_of_set set.now 0 blocks.now) }
{
    let mut rows = Items::new(alloc);
    let mut at = 0;
    for block in blocks {
        rows.push(set_row(alloc, set, at, block.instrs.as_slice())?)?;
        at = next(at)?;
    }
    Ok(rows)
}

/// The rows without that of a block.
pub fn cleared(alloc: Global, rows: Rows, block: BlockId) -> Rows
    ensures { result ≡ cleared_rows rows block }
{
    let mut all = rows;
    all.set(block, Items::new(alloc));
    all
}

/// The questions that a word hasn't.
pub fn others(word: u64) -> u64
    ensures { result ≡ others_of word }
{
    word ^ u64::MAX
}
