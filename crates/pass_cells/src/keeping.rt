//! The values that are kept, and those that cross each suspend.

ghost use Rattle.std.specs.Prelude.{◌≡◌, ◌++◌, ◌∷◌, [], IfOk, OnOk, length, replicate};
ghost use Rattle.pass_cells.specs.Kept.{is_new, with_value, with_values, keeping_of, with_row, with_pair, rows_from, rows_of};

use crate::tables::{entry, no_entries};
use ir_base::{Items, SuspendId, ValueId};
use std::alloc::{AllocError, Global};

/// The values that are kept, in order, and for each name its position among them.
#[derive(Drop)]
pub struct Keeping {
    pub values: Items<ValueId>,
    pub places: Items<Option<usize>>,
}

fn is_new(places: &Items<Option<usize>>, id: ValueId) -> bool
    ensures { result ≡ is_new places.now id }
{
    match places.get(id) {
        None => false,
        Some(place) => match place {
            None => true,
            Some(_) => false,
        },
    }
}

fn keep(keeping: &mut Keeping, id: ValueId) -> Result<(), AllocError>
    ensures { OnOk result (keeping.new ≡ with_value keeping.old id) }
{
    if is_new(&keeping.places, id) {
        let place = keeping.values.len();
        keeping.values.push(id)?;
        keeping.places.set(id, Some(place));
    }
    Ok(())
}

fn keep_all(keeping: &mut Keeping, crossing: &[(ValueId, SuspendId)]) -> Result<(), AllocError>
    ensures { OnOk result (keeping.new ≡ with_values keeping.old crossing.now) }
{
    for pair in crossing {
        keep(keeping, pair.0)?;
    }
    Ok(())
}

/// The values of the pairs, each once, in order, for a function of so many names.
pub fn keeping_of(
    alloc: Global,
    count: usize,
    crossing: &[(ValueId, SuspendId)],
) -> Result<Keeping, AllocError>
    ensures { IfOk result (λ k. k ≡ keeping_of count crossing.now) }
{
    let mut keeping = Keeping {
        values: Items::new(alloc),
        places: no_entries(alloc, count)?,
    };
    keep_all(&mut keeping, crossing)?;
    Ok(keeping)
}

/// The values that are kept, in order, for a function of so many names: the k-th has the k-th field.
pub fn kept_values(
    alloc: Global,
    count: usize,
    crossing: &[(ValueId, SuspendId)],
) -> Result<Items<ValueId>, AllocError>
    ensures { IfOk result (λ x. x ≡ (keeping_of count crossing.now).values) }
{
    let keeping = keeping_of(alloc, count, crossing)?;
    Ok(keeping.values)
}

fn no_rows(alloc: Global, count: usize) -> Result<Vec<Items<usize>>, AllocError>
    ensures { IfOk result (λ rows. rows.items ≡ replicate count []) }
{
    let mut rows = Vec::new(alloc);
    for _ in 0..count {
        rows.push(Items::new(alloc))?;
    }
    Ok(rows)
}

/// Puts a position behind the others of a row.
fn push_row(
    rows: &mut Vec<Items<usize>>,
    suspend: SuspendId,
    place: usize,
) -> Result<(), AllocError>
    ensures { OnOk result (rows.new.items ≡ with_row rows.old.items suspend place) }
{
    if suspend < rows.len() {
        rows[suspend].push(place)?;
    }
    Ok(())
}

fn push_pair(
    rows: &mut Vec<Items<usize>>,
    places: &Items<Option<usize>>,
    id: ValueId,
    suspend: SuspendId,
) -> Result<(), AllocError>
    ensures { OnOk result (rows.new.items ≡ with_pair places.now rows.old.items id suspend) }
{
    match entry(places, id) {
        None => Ok(()),
        Some(place) => push_row(rows, suspend, place),
    }
}

fn push_pairs(
    rows: &mut Vec<Items<usize>>,
    places: &Items<Option<usize>>,
    crossing: &[(ValueId, SuspendId)],
) -> Result<(), AllocError>
    ensures { OnOk result (rows.new.items ≡ rows_from places.now rows.old.items crossing.now) }
{
    for pair in crossing {
        push_pair(rows, places, pair.0, pair.1)?;
    }
    Ok(())
}

/// For each of so many suspends the positions of the values that cross it, in order.
pub fn rows_of(
    alloc: Global,
    places: &Items<Option<usize>>,
    suspends: usize,
    crossing: &[(ValueId, SuspendId)],
) -> Result<Items<Items<usize>>, AllocError>
    ensures { IfOk result (λ rows. rows ≡ rows_of places.now suspends crossing.now) }
{
    let mut rows = no_rows(alloc, suspends)?;
    push_pairs(&mut rows, places, crossing)?;
    Ok(Items::from_vec(rows))
}
