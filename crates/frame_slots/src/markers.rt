//! The lifetime markers of a function, told once for all slots.

ghost use Rattle.std.specs.Prelude.{◌≡◌, IfOk};
ghost use Rattle.ir_paths.specs.Windows.{call_operand};
ghost use Rattle.frame_slots.specs.Markers.{intrinsic_of, mark_of as mark_told_of, mark_on as mark_told_on, mark_row as row_of_marks, mark_rows as rows_of_marks, marked_row as row_of_marked, marked_rows as rows_of_marked, marker_word as word_of_marker, same_marker};
ghost use Rattle.frame_slots.specs.Words.{marker_rows as rows_of_markers};

use crate::words::name_word;
use ir_base::{Items, ValueId};
use ir_calls::{is_call_of, operand_of};
use ir_model::{Block, Function, Instr, Intrinsic, Operand};
use std::alloc::{AllocError, Global};

/// One of the two lifetime markers (LLVM Language Reference, "llvm.lifetime.start" and "llvm.lifetime.end").
#[derive(Clone, Copy, Debug, Drop)]
pub enum Marker {
    /// From here on the slot holds bytes.
    Start,
    /// From here on it holds none.
    End,
}

/// A lifetime marker and the name that it takes.
#[derive(Clone, Copy, Debug, Drop)]
pub struct Mark {
    /// Which of the two it is.
    pub marker: Marker,
    /// The name.
    pub name: ValueId,
}

fn mark_on(marker: Marker, operand: &Operand) -> Option<Mark>
    ensures { result ≡ mark_told_on marker operand.now }
{
    match operand {
        Operand::Local(name) => Some(Mark {
            marker,
            name: *name,
        }),
        _ => None,
    }
}

/// The marker of a call, on the name that is its second operand.
fn mark_by(marker: Marker, instr: &Instr) -> Option<Mark>
    ensures { result ≡ mark_told_on marker (call_operand instr.now 1) }
{
    match instr {
        Instr::Call { args, .. } => match operand_of(args.as_slice(), 1) {
            None => None,
            Some(operand) => mark_on(marker, operand),
        },
        _ => None,
    }
}

fn mark_of(instr: &Instr) -> Option<Mark>
    ensures { result ≡ mark_told_of instr.now }
{
    if is_call_of(Intrinsic::LifetimeStart, instr) {
        mark_by(Marker::Start, instr)
    } else if is_call_of(Intrinsic::LifetimeEnd, instr) {
        mark_by(Marker::End, instr)
    } else {
        None
    }
}

fn mark_row(alloc: Global, block: &Block) -> Result<Items<Option<Mark>>, AllocError>
    ensures { IfOk result (λ row. row ≡ row_of_marks block.now) }
{
    let instrs = block.instrs.as_slice();
    let mut row = Vec::with_capacity(alloc, instrs.len())?;
    for instr in instrs {
        row.push(mark_of(instr))?;
    }
    Ok(Items::from_vec(row))
}

/// For each block, and for each of its instructions, the lifetime marker that it is, where it takes a local.
pub fn mark_rows(
    alloc: Global,
    function: &Function,
) -> Result<Items<Items<Option<Mark>>>, AllocError>
    ensures { IfOk result (λ rows. rows ≡ rows_of_marks function.now) }
{
    let blocks = function.blocks.as_slice();
    let mut rows = Vec::with_capacity(alloc, blocks.len())?;
    for block in blocks {
        rows.push(mark_row(alloc, block)?)?;
    }
    Ok(Items::from_vec(rows))
}

fn is_same(one: Marker, other: Marker) -> bool
    ensures { result ≡ same_marker one other }
{
    match (one, other) {
        (Marker::Start, Marker::Start) | (Marker::End, Marker::End) => true,
        _ => false,
    }
}

/// The word of the name that a marker takes, empty for what is no such marker.
pub fn marker_word(marker: Marker, words: &[u64], mark: Option<Mark>) -> u64
    ensures { result ≡ word_of_marker marker words.now mark }
{
    match mark {
        None => 0,
        Some(found) => {
            if is_same(marker, found.marker) {
                name_word(words, found.name)
            } else {
                0
            }
        }
    }
}

fn marked_row(
    alloc: Global,
    marker: Marker,
    words: &[u64],
    marks: &[Option<Mark>],
) -> Result<Items<u64>, AllocError>
    ensures { IfOk result (λ row. row ≡ row_of_marked marker words.now marks.now) }
{
    let mut row = Vec::with_capacity(alloc, marks.len() + 1)?;
    for mark in marks {
        row.push(marker_word(marker, words, *mark))?;
    }
    row.push(0)?;
    Ok(Items::from_vec(row))
}

fn marked_rows(
    alloc: Global,
    marker: Marker,
    words: &[u64],
    marks: &[Items<Option<Mark>>],
) -> Result<Items<Items<u64>>, AllocError>
    ensures { IfOk result (λ rows. rows ≡ rows_of_marked marker words.now marks.now) }
{
    let mut rows = Vec::with_capacity(alloc, marks.len())?;
    for row in marks {
        rows.push(marked_row(alloc, marker, words, row.as_slice())?)?;
    }
    Ok(Items::from_vec(rows))
}

/// For each block, and for each of its instructions and its terminator, the word of the pointer of a marker that stands
/// there, by the markers of the function.
pub fn marker_rows(
    alloc: Global,
    marker: Marker,
    function: &Function,
    words: &[u64],
    marks: &Items<Items<Option<Mark>>>,
) -> Result<Items<Items<u64>>, AllocError>
    requires { marks.now ≡ rows_of_marks function.now }
    ensures { IfOk result (λ rows. rows ≡ rows_of_markers (intrinsic_of marker) words.now function.now) }
{
    marked_rows(alloc, marker, words, marks.as_slice())
}
