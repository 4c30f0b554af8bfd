//! Words of bits, and chunks of 64.

ghost use Rattle.std.specs.Prelude.{◌≡◌, ◌<◌, ◌≤◌, ◌*◌, ◌+◌, ◌==◌, ℕ};
ghost use Rattle.std.specs.Int.{bit_at};
ghost use Rattle.frame_classes.specs.flow_blocks.Words.{word_at as word_of_node};
ghost use Rattle.frame_classes.specs.flow_reach.Reached.{word_at_point as word_of_point};

use ir_base::Items;
use ir_paths::Point;

/// The word at a position, empty where there is none.
pub fn word_at(words: &[u64], at: usize) -> u64
    ensures { result ≡ word_of_node words.now at }
{
    match words.get(at) {
        None => 0,
        Some(word) => *word,
    }
}

/// The word of a point, empty where there is none.
pub fn word_at_point(rows: &Items<Items<u64>>, point: Point) -> u64
    ensures { result ≡ word_of_point rows.now point }
{
    match rows.get(point.block) {
        None => 0,
        Some(row) => word_at(row.as_slice(), point.at),
    }
}

/// Whether a word has a bit.
pub fn has_bit(word: u64, bit: usize) -> bool
    requires { bit < 64 }
    ensures { result ≡ (bit_at word bit == 1) }
{
    (word >> bit) & 1 == 1
}

/// How many chunks of 64 hold so many.
pub fn chunks_of(count: usize) -> usize
    ensures all { count ≤ result * 64 }
    ensures needed { (k : ℕ) → k < result → k * 64 < count }
{
    if count % 64 == 0 {
        count / 64
    } else {
        count / 64 + 1
    }
}

/// Behind the last number of a chunk that begins at a number.
pub fn chunk_end(count: usize, start: usize) -> usize
    requires { start ≤ count }
    ensures from { start ≤ result }
    ensures within { result ≤ count }
    ensures at_most { result ≤ start + 64 }
    ensures whole { result < start + 64 → result ≡ count }
{
    if count - start < 64 {
        count
    } else {
        start + 64
    }
}
