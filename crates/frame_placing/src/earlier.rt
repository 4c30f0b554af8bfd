//! For each field those in conflict with it that are placed before it.

ghost use Rattle.std.specs.Prelude.{◌≡◌, ◌++◌, ◌∷◌, [], ◌<◌, IfOk, OnOk, get_or, length, map, replicate, slice_set};
ghost use Rattle.frame_placing.specs.Placed.{IsPair};
ghost use Rattle.frame_placing.specs.Rooms.{comes_first};
ghost use Rattle.frame_placing.specs.Steps.{AreEarlier, with_note};

use crate::room::{Room, comes_first};
use std::alloc::{AllocError, Global};

fn empty_rows(alloc: Global, count: usize) -> Result<Vec<Vec<usize>>, AllocError>
    ensures { IfOk result (λ rows. map (λ row. row.items) rows.items ≡ replicate count []) }
{
    let mut rows = Vec::new(alloc);
    for _ in 0..count {
        rows.push(Vec::new(alloc))?;
    }
    Ok(rows)
}

fn file(rows: &mut Vec<Vec<usize>>, row: usize, k: usize) -> Result<(), AllocError>
    requires { row < length rows.old.items }
    ensures { OnOk result (map (λ row. row.items) rows.new.items ≡ slice_set (map (λ row. row.items) rows.old.items) row (get_or (map (λ row. row.items) rows.old.items) row [] ++ k ∷ [])) }
{
    rows[row].push(k)?;
    Ok(())
}

/// Puts the first field into the second's row, if it is placed before that.
fn note(
    rooms: &[Room],
    promise: Option<usize>,
    first: usize,
    second: usize,
    rows: &mut Vec<Vec<usize>>,
) -> Result<(), AllocError>
    ensures { OnOk result (map (λ row. row.items) rows.new.items ≡ with_note rooms.now promise first second (map (λ row. row.items) rows.old.items)) }
{
    if first < rooms.len() && second < rows.len() && comes_first(rooms, promise, first, second) {
        file(rows, second, first)?;
    }
    Ok(())
}

/// A row for each field, of those in conflict with it that are placed before it.
pub(crate) fn earlier(
    alloc: Global,
    rooms: &[Room],
    promise: Option<usize>,
    conflicts: &[(usize, usize)],
) -> Result<Vec<Vec<usize>>, AllocError>
    ensures { IfOk result (λ rows. AreEarlier rooms.now promise (IsPair conflicts.now) (map (λ row. row.items) rows.items)) }
{
    let mut rows = empty_rows(alloc, rooms.len())?;
    for pair in conflicts {
        note(rooms, promise, pair.0, pair.1, &mut rows)?;
        note(rooms, promise, pair.1, pair.0, &mut rows)?;
    }
    Ok(rows)
}
