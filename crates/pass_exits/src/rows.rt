//! For each block whose switch isn't a suspend's the windows in which its terminator stands.

ghost use Rattle.std.specs.Prelude.{◌≡◌, IfOk, OnOk, [], replicate};
ghost use Rattle.pass_edges.specs.Edges.{ends_in_suspend, is_suspend, is_suspend_at};
ghost use Rattle.pass_exits.specs.Rows.{is_terminator, noted, noted_by, row_at, rows_of, with_number};

use ir_base::{BlockId, Items};
use ir_model::{Callee, Function, Instr, Intrinsic};
use ir_paths::{Point, Window};
use std::alloc::{AllocError, Global};

/// For each block the numbers of the windows in which its terminator stands, in order; none where that is a suspend's switch.
pub type Rows = Vec<Items<usize>>;

/// A row for each of so many blocks, with nothing in it.
fn no_rows(alloc: Global, count: usize) -> Result<Rows, AllocError>
    ensures { IfOk result (λ rows. rows.items ≡ replicate count []) }
{
    let mut rows = Vec::new(alloc);
    for _at in 0..count {
        rows.push(Items::new(alloc))?;
    }
    Ok(rows)
}

fn push_number(rows: &mut Rows, block: BlockId, number: usize) -> Result<(), AllocError>
    ensures { OnOk result (rows.new.items ≡ with_number rows.old.items block number) }
{
    if block < rows.len() {
        rows[block].push(number)?;
    }
    Ok(())
}

fn is_suspend(instr: &Instr) -> bool
    ensures { result ≡ is_suspend instr.now }
{
    matches!(
        instr,
        Instr::Call {
            callee: Callee::Intrinsic(Intrinsic::CoroSuspend),
            ..
        }
    )
}

/// Whether a block's switch is a suspend's.
fn ends_in_suspend(instrs: &[Instr]) -> bool
    ensures { result ≡ ends_in_suspend instrs.now }
{
    match instrs.last() {
        None => false,
        Some(instr) => is_suspend(instr),
    }
}

/// Whether a point is its block's terminator, which is no suspend's switch.
fn is_terminator(function: &Function, point: Point) -> bool
    ensures { result ≡ is_terminator function.now point }
{
    match function.blocks.get(point.block) {
        None => false,
        Some(block) => {
            !ends_in_suspend(block.instrs.as_slice()) && block.instrs.len() == point.at
        }
    }
}

/// Notes the number of a window beside the block whose terminator a point in it is.
fn note(function: &Function, rows: &mut Rows, number: usize, point: Point) -> Result<(), AllocError>
    ensures { OnOk result (rows.new.items ≡ noted function.now number rows.old.items point) }
{
    if is_terminator(function, point) {
        push_number(rows, point.block, number)?;
    }
    Ok(())
}

fn note_all(
    function: &Function,
    rows: &mut Rows,
    number: usize,
    inside: &[Point],
) -> Result<(), AllocError>
    ensures { OnOk result (rows.new.items ≡ noted_by function.now number rows.old.items inside.now) }
{
    for point in inside {
        note(function, rows, number, *point)?;
    }
    Ok(())
}

/// For each block whose switch isn't a suspend's the windows in which its terminator stands.
pub fn rows_of(alloc: Global, function: &Function, windows: &[Window]) -> Result<Rows, AllocError>
    ensures { IfOk result (λ rows. rows.items ≡ rows_of function.now windows.now) }
{
    let mut rows = no_rows(alloc, function.blocks.len())?;
    for (number, window) in windows.iter().enumerate() {
        note_all(function, &mut rows, number, window.inside.as_slice())?;
    }
    Ok(rows)
}

/// The windows in which the terminator of a block stands.
pub fn row_at(rows: &Rows, block: BlockId) -> &[usize]
    ensures { result.now ≡ row_at rows.now.items block }
{
    match rows.get(block) {
        None => &[],
        Some(row) => row.as_slice(),
    }
}
