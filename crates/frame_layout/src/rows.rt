//! Pairs by one of their halves.

ghost use Rattle.std.specs.Prelude.{◌≡◌, ◌<◌, ◌++◌, ◌∷◌, ◌==◌, ℕ, [], IfOk, OnOk, get_or, if◌then◌else◌, length, slice_set};
ghost use Rattle.frame_layout.specs.Rows.{firsts_of, seconds_of};

use ir_base::Items;
use std::alloc::{AllocError, Global};

/// Adds empty rows up to a row.
fn grow(alloc: Global, rows: &mut Vec<Items<usize>>, row: usize) -> Result<(), AllocError>
    ensures same { OnOk result ((s : ℕ) → get_or rows.new.items s [] ≡ get_or rows.old.items s []) }
    ensures long { OnOk result (row < length rows.new.items) }
{
    while rows.len() <= row {
        rows.push(Items::new(alloc))?;
    }
    Ok(())
}

fn file(rows: &mut Vec<Items<usize>>, row: usize, k: usize) -> Result<(), AllocError>
    requires { row < length rows.old.items }
    ensures { OnOk result (rows.new.items ≡ slice_set rows.old.items row (get_or rows.old.items row [] ++ k ∷ [])) }
{
    rows[row].push(k)?;
    Ok(())
}

/// Adds a number to a row.
fn note(alloc: Global, rows: &mut Vec<Items<usize>>, row: usize, k: usize) -> Result<(), AllocError>
    ensures { OnOk result ((s : ℕ) → get_or rows.new.items s [] ≡ get_or rows.old.items s [] ++ (if row == s then k ∷ [] else [])) }
{
    grow(alloc, rows, row)?;
    file(rows, row, k)
}

/// For each position what the pairs have behind it.
pub(crate) fn rows_by_first(
    alloc: Global,
    pairs: &[(usize, usize)],
) -> Result<Vec<Items<usize>>, AllocError>
    ensures { IfOk result (λ rows. (j : ℕ) → get_or rows.items j [] ≡ seconds_of pairs.now j) }
{
    let mut rows = Vec::new(alloc);
    for pair in pairs {
        note(alloc, &mut rows, pair.0, pair.1)?;
    }
    Ok(rows)
}

/// For each number what the pairs have before it.
pub(crate) fn rows_by_second(
    alloc: Global,
    pairs: &[(usize, usize)],
) -> Result<Vec<Items<usize>>, AllocError>
    ensures { IfOk result (λ rows. (s : ℕ) → get_or rows.items s [] ≡ firsts_of pairs.now s) }
{
    let mut rows = Vec::new(alloc);
    for pair in pairs {
        note(alloc, &mut rows, pair.1, pair.0)?;
    }
    Ok(rows)
}

/// The row of a number, empty past the last.
pub(crate) fn row_of(rows: &[Items<usize>], row: usize) -> &[usize]
    ensures { result.now ≡ get_or rows.now row [] }
{
    match rows.get(row) {
        None => &[],
        Some(row) => row.as_slice(),
    }
}
