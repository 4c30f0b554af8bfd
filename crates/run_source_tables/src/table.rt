//! What a source machine looks up of each function.

ghost use Rattle.std.specs.Prelude.{◌≡◌, ◌==◌, IfOk, replicate, false, None, ◌<◌, length, get_or};
ghost use Rattle.std.specs.List.{list_any};
ghost use Rattle.run_step.specs.Tables.{IsMarked};
ghost use Rattle.run_source_tables.specs.Tables.{AreFramesOf, HaveSourceTables, IsSourceTableOf};
ghost use Rattle.run_source_tables.specs.Given.{facts_at};

use crate::shape::{has_final, promise_of};
use crate::suspends::suspends_by_token;
use ir_base::{Items, ValueId};
use ir_model::{Frame, Function};
use ir_paths::{Facts, Point, Window};
use std::alloc::{AllocError, Global};

/// Of a function the alloca of its promise, whether it has a final suspend, its suspends by the names of the tokens that they
/// take, and marks of its ramp slots by their names and of the blocks in which a point of a window stands.
#[derive(Drop)]
pub struct SourceTable {
    pub promise: Option<ValueId>,
    pub has_final: bool,
    pub suspends: Items<Option<Point>>,
    pub ramp_slots: Items<bool>,
    pub windows: Items<bool>,
}

/// Notes a name or a block.
fn mark(table: &mut Items<bool>, at: usize)
    ensures { IsMarked table.old table.new (λ n. n == at) }
{
    table.set(at, true);
}

fn mark_names(table: &mut Items<bool>, names: &[ValueId])
    ensures { IsMarked table.old table.new (λ n. list_any (λ a. n == a) names.now) }
{
    for name in names {
        mark(table, *name);
    }
}

fn mark_points(table: &mut Items<bool>, points: &[Point])
    ensures { IsMarked table.old table.new (λ n. list_any (λ p. n == p.block) points.now) }
{
    for point in points {
        mark(table, point.block);
    }
}

fn mark_windows(table: &mut Items<bool>, windows: &[Window])
    ensures { IsMarked table.old table.new (λ n. list_any (λ w. list_any (λ p. n == p.block) w.inside) windows.now) }
{
    for window in windows {
        mark_points(table, window.inside.as_slice());
    }
}

fn unmarked(alloc: Global, count: usize) -> Result<Items<bool>, AllocError>
    ensures { IfOk result (λ all. all ≡ replicate count false) }
{
    Ok(Items::from_vec(vec![in alloc; false; count]?))
}

/// The table of a function with these windows and ramp slots.
fn table_with(
    alloc: Global,
    function: &Function,
    windows: &[Window],
    ramp_slots: &[ValueId],
) -> Result<SourceTable, AllocError>
    ensures { IfOk result (λ table. IsSourceTableOf function.now windows.now ramp_slots.now table) }
{
    let mut names = unmarked(alloc, function.names.len())?;
    mark_names(&mut names, ramp_slots);
    let mut blocks = unmarked(alloc, function.blocks.len())?;
    mark_windows(&mut blocks, windows);
    Ok(SourceTable {
        promise: promise_of(function),
        has_final: has_final(function),
        suspends: suspends_by_token(alloc, function)?,
        ramp_slots: names,
        windows: blocks,
    })
}

/// The table of a function, by the facts at a position.
fn table_at(
    alloc: Global,
    function: &Function,
    facts: &Items<Facts>,
    func: usize,
) -> Result<SourceTable, AllocError>
    ensures { IfOk result (λ table. IsSourceTableOf function.now (facts_at facts.now func).windows (facts_at facts.now func).ramp_slots table) }
{
    match facts.get(func) {
        None => table_with(alloc, function, &[], &[]),
        Some(own) => table_with(
            alloc,
            function,
            own.windows.as_slice(),
            own.ramp_slots.as_slice(),
        ),
    }
}

/// The tables of all functions.
pub fn all_tables(
    alloc: Global,
    functions: &[Function],
    facts: &Items<Facts>,
) -> Result<Items<SourceTable>, AllocError>
    ensures { IfOk result (λ tables. HaveSourceTables functions.now facts.now tables) }
{
    let mut all = Items::new(alloc);
    for func in 0..functions.len() {
        all.push(table_at(alloc, &functions[func], facts, func)?)?;
    }
    Ok(all)
}

fn no_frames(alloc: Global, count: usize) -> Result<Items<Option<Frame>>, AllocError>
    ensures { IfOk result (λ all. all ≡ replicate count None) }
{
    let none: Option<Frame> = None;
    Ok(Items::from_vec(vec![in alloc; none; count]?))
}

fn frame_at(frames: &[Frame], at: usize) -> Frame
    requires { at < length frames.now }
    ensures { result ≡ get_or frames.now at result }
{
    frames[at]
}

/// For each of so many functions the first of the frames that is its own.
pub fn frames_by_function(
    alloc: Global,
    count: usize,
    frames: &[Frame],
) -> Result<Items<Option<Frame>>, AllocError>
    ensures { IfOk result (λ table. AreFramesOf frames.now table) }
{
    let mut at = frames.len();
    let mut table = no_frames(alloc, count)?;
    while at > 0 {
        at -= 1;
        let frame = frame_at(frames, at);
        table.set(frame.coroutine, Some(frame));
    }
    Ok(table)
}
