//! The order in which fields are placed.

ghost use Rattle.std.specs.Prelude.{◌≡◌, IfOk};
ghost use Rattle.std.specs.Ordering.{is_lt};
ghost use Rattle.frame_placing.specs.Rooms.{comes_first};
ghost use Rattle.frame_placing.specs.Steps.{IsOrder};

use crate::room::{Room, comes_first};
use std::alloc::{AllocError, Global};
use std::cmp::Ordering;

fn compare(rooms: &[Room], promise: Option<usize>, j: usize, k: usize) -> Ordering
    ensures { is_lt result ≡ comes_first rooms.now promise j k }
{
    if comes_first(rooms, promise, j, k) {
        Ordering::Less
    } else if comes_first(rooms, promise, k, j) {
        Ordering::Greater
    } else {
        Ordering::Equal
    }
}

/// The positions of the fields, those that come first before the others.
pub(crate) fn order_of(
    alloc: Global,
    rooms: &[Room],
    promise: Option<usize>,
) -> Result<Vec<usize>, AllocError>
    ensures { IfOk result (λ order. IsOrder rooms.now promise order.items) }
{
    let mut order = Vec::new(alloc);
    for k in 0..rooms.len() {
        order.push(k)?;
    }
    order.sort_unstable_by(|j, k| compare(rooms, promise, *j, *k));
    Ok(order)
}
