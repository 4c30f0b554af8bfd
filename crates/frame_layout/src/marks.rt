//! Marks of the fields in conflict with one.

ghost use Rattle.std.specs.Prelude.{◌≡◌, ◌||◌, ◌&&◌, ◌++◌, ◌∷◌, [], IfOk, OnOk, if◌then◌else◌, map, nat_lt, slice_set, true};
ghost use Rattle.frame_layout.specs.Conflicts.{is_apart, is_apart_at};
ghost use Rattle.frame_layout.specs.Rows.{marked_pairs, with_marks, with_rows};

use crate::layout::{Field, FieldKind};
use crate::rows::row_of;
use ir_base::Items;
use std::alloc::{AllocError, Global};

/// Whether a field of a kind shares bytes with none.
pub(crate) fn is_apart(kind: FieldKind) -> bool
    ensures { result ≡ is_apart kind }
{
    match kind {
        FieldKind::Promise | FieldKind::Index | FieldKind::Frame => true,
        FieldKind::Value | FieldKind::Slot => false,
    }
}

/// Whether the field at a position shares bytes with none.
pub(crate) fn is_apart_at(fields: &[Field], k: usize) -> bool
    ensures { result ≡ is_apart_at fields.now k }
{
    match fields.get(k) {
        None => false,
        Some(field) => is_apart(field.kind),
    }
}

/// Marks of the fields that share bytes with none, or of all.
pub(crate) fn first_marks(
    alloc: Global,
    fields: &[Field],
    all: bool,
) -> Result<Vec<bool>, AllocError>
    ensures { IfOk result (λ marks. marks.items ≡ map (λ f. all || is_apart f.kind) fields.now) }
{
    let mut marks = Vec::new(alloc);
    for field in fields {
        marks.push(all || is_apart(field.kind))?;
    }
    Ok(marks)
}

fn mark(marks: &mut Vec<bool>, k: usize)
    ensures { marks.new.items ≡ slice_set marks.old.items k true }
{
    if k < marks.len() {
        marks[k] = true;
    }
}

/// Marks these too.
pub(crate) fn mark_all(marks: &mut Vec<bool>, ks: &[usize])
    ensures { marks.new.items ≡ with_marks marks.old.items ks.now }
{
    for k in ks {
        mark(marks, *k);
    }
}

/// Marks what the rows of these have.
pub(crate) fn mark_rows(marks: &mut Vec<bool>, rows: &[Items<usize>], ss: &[usize])
    ensures { marks.new.items ≡ with_rows marks.old.items rows.now ss.now }
{
    for s in ss {
        mark_all(marks, row_of(rows, *s));
    }
}

/// Adds the pair, where the second position stands behind the first and is marked.
fn push_pair(
    pairs: &mut Items<(usize, usize)>,
    j: usize,
    k: usize,
    marked: bool,
) -> Result<(), AllocError>
    ensures { OnOk result (pairs.new ≡ pairs.old ++ (if nat_lt j k && marked then (j, k) ∷ [] else [])) }
{
    if j < k && marked {
        pairs.push((j, k))?;
    }
    Ok(())
}

/// Adds the pairs of a position with the marked ones behind it.
pub(crate) fn push_marked(
    pairs: &mut Items<(usize, usize)>,
    j: usize,
    marks: &[bool],
) -> Result<(), AllocError>
    ensures { OnOk result (pairs.new ≡ pairs.old ++ marked_pairs j 0 marks.now) }
{
    let mut k: usize = 0;
    for marked in marks {
        push_pair(pairs, j, k, *marked)?;
        match k.checked_add(1) {
            Some(next) => k = next,
            None => return Err(AllocError),
        }
    }
    Ok(())
}
