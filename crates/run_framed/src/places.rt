//! The layouts of functions, by the functions' positions.

ghost use Rattle.std.specs.Prelude.{◌≡◌, ◌==◌, IfOk, None, replicate, find, map};
ghost use Rattle.std.specs.Option.{option_copied};
ghost use Rattle.run_framed.specs.Framed.{frame_of_layout};
ghost use Rattle.run_framed.specs.Tables.{HavePlaces};

use frame_layout::Layout;
use ir_base::{FuncId, Items};
use ir_model::Frame;
use std::alloc::{AllocError, Global};

/// The first of the layouts that is a function's.
pub fn find_layout(layouts: &[Layout], func: FuncId) -> Option<&Layout>
    ensures { option_copied result ≡ find (λ l. l.coroutine == func) layouts.now }
{
    for layout in layouts {
        if layout.coroutine == func {
            return Some(layout);
        }
    }
    None
}

fn no_places(alloc: Global, count: usize) -> Result<Items<Option<usize>>, AllocError>
    ensures { IfOk result (λ all. all ≡ replicate count None) }
{
    let none: Option<usize> = None;
    Ok(Items::from_vec(vec![in alloc; none; count]?))
}

/// For each of so many functions the position of the first of the layouts that is its own.
pub fn places_by_function(
    alloc: Global,
    count: usize,
    layouts: &[Layout],
) -> Result<Items<Option<usize>>, AllocError>
    ensures { IfOk result (λ table. HavePlaces layouts.now table) }
{
    let mut at = layouts.len();
    let mut table = no_places(alloc, count)?;
    while at > 0 {
        at -= 1;
        table.set(layouts[at].coroutine, Some(at));
    }
    Ok(table)
}

/// The sizes and alignments of layouts.
pub fn frames_of(alloc: Global, layouts: &[Layout]) -> Result<Items<Frame>, AllocError>
    ensures { IfOk result (λ all. all ≡ map frame_of_layout layouts.now) }
{
    let mut all = Items::new(alloc);
    for layout in layouts {
        all.push(Frame {
            coroutine: layout.coroutine,
            size: layout.size,
            align: layout.align,
        })?;
    }
    Ok(all)
}
