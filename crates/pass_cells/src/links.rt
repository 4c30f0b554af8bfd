//! The cells of distances.

ghost use Rattle.std.specs.Prelude.{◌≡◌, ◌+◌, IfOk};
ghost use Rattle.pass_cells.specs.Links.{distance_cell, links_after, cells_from, links_from};

use crate::names::{distance_name, link_name};
use crate::tables::entry;
use ir_base::{Items, ValueId};
use pass_intrinsics::later;
use std::alloc::{AllocError, Global};

/// The cell of a name's distance, where it is marked: that of a value that is kept, or the next one of links.
fn distance_cell(
    first: ValueId,
    count: usize,
    links: usize,
    is_marked: bool,
    place: Option<usize>,
) -> Result<Option<ValueId>, AllocError>
    ensures { IfOk result (λ x. x ≡ distance_cell first count links is_marked place) }
{
    if is_marked {
        match place {
            None => Ok(Some(link_name(first, count, links)?)),
            Some(k) => Ok(Some(distance_name(first, count, k)?)),
        }
    } else {
        Ok(None)
    }
}

fn links_after(links: usize, is_marked: bool, place: Option<usize>) -> Result<usize, AllocError>
    ensures { IfOk result (λ n. n ≡ links_after links is_marked place) }
{
    if is_marked {
        match place {
            None => later(links, 1),
            Some(_) => Ok(links),
        }
    } else {
        Ok(links)
    }
}

/// For each name the cell of its distance, and how many links there are that aren't kept.
pub fn distance_cells(
    alloc: Global,
    first: ValueId,
    count: usize,
    places: &Items<Option<usize>>,
    marks: &[bool],
) -> Result<(Items<Option<ValueId>>, usize), AllocError>
    ensures cells { IfOk result (λ x. x.0 ≡ cells_from first count places.now 0 0 marks.now) }
    ensures links { IfOk result (λ x. x.1 ≡ links_from places.now 0 0 marks.now) }
{
    let mut all = Items::new(alloc);
    let mut links = 0;
    let mut id = 0;
    for is_marked in marks {
        let place = entry(places, id);
        all.push(distance_cell(first, count, links, *is_marked, place)?)?;
        links = links_after(links, *is_marked, place)?;
        id = later(id, 1)?;
    }
    Ok((all, links))
}
