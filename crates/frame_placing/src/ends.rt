//! Where a layout ends, and how a frame is aligned.

ghost use Rattle.std.specs.Prelude.{◌≡◌, ◌≤◌, ◌<◌, ◌+◌, ◌^◌, ℕ, length, nat_le, slice_index};
ghost use Rattle.std.specs.List.{list_any};
ghost use Rattle.frame_placing.specs.Ends.{end_of};
ghost use Rattle.frame_placing.specs.Placings.{frame_alignment};
ghost use Rattle.frame_placing.specs.Rooms.{size_at};

use crate::room::{Room, size_at};

/// The greatest end of the header and the fields.
pub(crate) fn end_of(rooms: &[Room], offsets: &[u64]) -> u64
    requires one_each { length offsets.now ≡ length rooms.now }
    requires fit { (k : ℕ) → k < length rooms.now → slice_index offsets.now k + size_at rooms.now k ≤ 2 ^ 24 }
    ensures { result ≡ end_of rooms.now offsets.now }
{
    let mut end = 16;
    for k in 0..rooms.len() {
        end = end.max(offsets[k] + size_at(rooms, k));
    }
    end
}

fn needs_sixteen(rooms: &[Room]) -> bool
    ensures { result ≡ list_any (λ room. nat_le 16 room.align) rooms.now }
{
    rooms.iter().any(|room| room.align >= 16)
}

/// 16 where a field needs 16, else 8.
pub(crate) fn frame_alignment(rooms: &[Room]) -> u64
    ensures { result ≡ frame_alignment rooms.now }
{
    if needs_sixteen(rooms) { 16 } else { 8 }
}
