//! The order of fields by their offsets.

ghost use Rattle.std.specs.Prelude.{◌≡◌, IfOk, slice_index_or};
ghost use Rattle.std.specs.Ordering.{is_lt};
ghost use Rattle.frame_layout.specs.Layouts.{IsOrder, lies_before};

use std::alloc::{AllocError, Global};
use std::cmp::Ordering;

/// The offset at a position, 0 past the last.
pub(crate) fn offset_at(offsets: &[u64], k: usize) -> u64
    ensures { result ≡ slice_index_or offsets.now k 0 }
{
    match offsets.get(k) {
        None => 0,
        Some(offset) => *offset,
    }
}

#[tactic(auto, unfolding(crate::specs::Layouts::lies_before))]
fn lies_before(offsets: &[u64], j: usize, k: usize) -> bool
    ensures { result ≡ lies_before offsets.now j k }
{
    let first = offset_at(offsets, j);
    let second = offset_at(offsets, k);
    first < second || (first == second && j < k)
}

fn compare(offsets: &[u64], j: usize, k: usize) -> Ordering
    ensures { is_lt result ≡ lies_before offsets.now j k }
{
    if lies_before(offsets, j, k) {
        Ordering::Less
    } else if lies_before(offsets, k, j) {
        Ordering::Greater
    } else {
        Ordering::Equal
    }
}

/// The positions of the fields in order of offset, then of the text.
pub(crate) fn order_of(alloc: Global, offsets: &[u64]) -> Result<Vec<usize>, AllocError>
    ensures { IfOk result (λ order. IsOrder offsets.now order.items) }
{
    let mut order = Vec::new(alloc);
    for k in 0..offsets.len() {
        order.push(k)?;
    }
    order.sort_unstable_by(|j, k| compare(offsets, *j, *k));
    Ok(order)
}
