//! Chunks of 64 values.

ghost use Rattle.std.specs.Prelude.{◌≡◌, ◌<◌, ◌≤◌, ◌*◌, ◌+◌, ℕ};

/// How many chunks of 64 hold so many.
pub fn chunks_of(count: usize) -> usize
    ensures all { count ≤ result * 64 }
    ensures needed { (k : ℕ) → k < result → k * 64 < count }
{
    if count % 64 == 0 {
        count / 64
    } else {
        count / 64 + 1
    }
}

/// Behind the last number of a chunk that begins at a number.
pub fn chunk_end(count: usize, start: usize) -> usize
    requires { start ≤ count }
    ensures from { start ≤ result }
    ensures within { result ≤ count }
    ensures at_most { result ≤ start + 64 }
    ensures whole { result < start + 64 → result ≡ count }
{
    if count - start < 64 {
        count
    } else {
        start + 64
    }
}
