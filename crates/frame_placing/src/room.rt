//! What fields need, and which of them is placed first.

ghost use Rattle.std.specs.Prelude.{◌≡◌};
ghost use Rattle.frame_placing.specs.Rooms.{alignment_at, comes_first, is_promise, needs_more, room_at, size_at};

/// What a field needs: its size and alignment in bytes. An alignment of 0 stands for 1.
#[derive(Clone, Copy, Debug, PartialEq, Eq, Drop)]
pub struct Room {
    pub size: u64,
    pub align: u64,
}

/// The room of a field; a position past the list has none.
pub(crate) fn room_at(rooms: &[Room], k: usize) -> Room
    ensures { result ≡ room_at rooms.now k }
{
    match rooms.get(k) {
        Some(room) => *room,
        None => Room { size: 0, align: 1 },
    }
}

pub(crate) fn size_at(rooms: &[Room], k: usize) -> u64
    ensures { result ≡ size_at rooms.now k }
{
    room_at(rooms, k).size
}

pub(crate) fn alignment_at(rooms: &[Room], k: usize) -> u64
    ensures { result ≡ alignment_at rooms.now k }
{
    room_at(rooms, k).align.max(1)
}

pub(crate) fn is_promise(promise: Option<usize>, k: usize) -> bool
    ensures { result ≡ is_promise promise k }
{
    match promise {
        None => false,
        Some(p) => p == k,
    }
}

#[tactic(auto, unfolding(crate::specs::Rooms::needs_more))]
fn needs_more(rooms: &[Room], j: usize, k: usize) -> bool
    ensures { result ≡ needs_more rooms.now j k }
{
    let first = alignment_at(rooms, j);
    let second = alignment_at(rooms, k);
    if first != second {
        return first > second;
    }
    let first = size_at(rooms, j);
    let second = size_at(rooms, k);
    if first == second {
        j < k
    } else {
        first > second
    }
}

/// Whether the first of two fields is placed before the second.
#[tactic(auto, unfolding(crate::specs::Rooms::comes_first))]
pub(crate) fn comes_first(rooms: &[Room], promise: Option<usize>, j: usize, k: usize) -> bool
    ensures { result ≡ comes_first rooms.now promise j k }
{
    !is_promise(promise, k) && (is_promise(promise, j) || needs_more(rooms, j, k))
}
