//! The names of cells and fields.

ghost use Rattle.std.specs.Prelude.{◌≡◌, ◌+◌, ◌*◌, ◌++◌, IfOk};
ghost use Rattle.pass_cells.specs.Links.{cell_name, field_name, distance_name, link_name};
ghost use Rattle.pass_cells.specs.Cells.{with_own_names};

use ir_base::{Items, Name, ValueId};
use pass_fetch::with_numbered_names;
use pass_intrinsics::later;
use std::alloc::{AllocError, Global};

fn doubled(count: usize) -> Result<usize, AllocError>
    ensures { IfOk result (λ n. n ≡ 2 * count) }
{
    later(count, count)
}

/// The name of the cell of a value that is kept, by its place among them; `first` is the number of names of the function.
pub fn cell_name(first: ValueId, place: usize) -> Result<ValueId, AllocError>
    ensures { IfOk result (λ n. n ≡ cell_name first place) }
{
    later(first, place)
}

/// The name of the field of a value that is kept, by its place among so many; `first` is the number of names of the function.
pub fn field_name(first: ValueId, count: usize, place: usize) -> Result<ValueId, AllocError>
    ensures { IfOk result (λ n. n ≡ field_name first count place) }
{
    later(later(first, count)?, place)
}

/// The name of the cell of its distance.
pub(crate) fn distance_name(
    first: ValueId,
    count: usize,
    place: usize,
) -> Result<ValueId, AllocError>
    ensures { IfOk result (λ n. n ≡ distance_name first count place) }
{
    later(later(first, doubled(count)?)?, place)
}

/// The name of the cell of a link's distance.
pub(crate) fn link_name(first: ValueId, count: usize, number: usize) -> Result<ValueId, AllocError>
    ensures { IfOk result (λ n. n ≡ link_name first count number) }
{
    later(later(later(first, doubled(count)?)?, count)?, number)
}

/// The names, and behind them those of the cells and fields of so many values and of so many links.
pub(crate) fn with_own_names(
    alloc: Global,
    names: &Items<Name>,
    count: usize,
    links: usize,
) -> Result<Items<Name>, AllocError>
    ensures { IfOk result (λ x. x ≡ with_own_names names.now count links) }
{
    let names = with_numbered_names(alloc, names, b"$c.cell.", count)?;
    let names = with_numbered_names(alloc, &names, b"$c.field.", count)?;
    let names = with_numbered_names(alloc, &names, b"$c.distance.", count)?;
    with_numbered_names(alloc, &names, b"$c.link.", links)
}
