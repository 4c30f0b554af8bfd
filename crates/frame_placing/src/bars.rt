//! Stretches of bytes that are taken, in order, and the least offset that meets none.

ghost use Rattle.std.specs.Prelude.{ℕ, ◌+◌, ◌<◌, ◌≤◌, OnOk, MatchOption};
ghost use Rattle.frame_placing.specs.Bars.{AreBars, IsFloor, IsFree, IsLeastFree, IsMore, IsNextAligned, IsNoneAligned};

use std::alloc::AllocError;

/// A stretch of bytes that are taken, from its start to before its end.
#[derive(Clone, Copy, Drop)]
pub(crate) struct Bar {
    pub start: u64,
    pub end: u64,
}

/// The least multiple of the alignment from an offset on, where it isn't past the last.
fn next_aligned(from: u64, align: u64, last: u64) -> Option<u64>
    requires { 0 < align }
    ensures { MatchOption result (IsNoneAligned from align last) (λ r. IsNextAligned from align last r) }
{
    let rest = from % align;
    let more = if rest == 0 { 0 } else { align - rest };
    if from <= last && more <= last - from {
        Some(from + more)
    } else {
        None
    }
}

/// The least offset behind the header at which a field meets no bar, where it ends at or before the limit there. It is not
/// sought below an offset below which it is not.
pub(crate) fn least_offset(
    bars: &[Bar],
    size: u64,
    align: u64,
    from: u64,
    limit: u64,
) -> Option<u64>
    requires bars { AreBars bars.now }
    requires align { 0 < align }
    requires from { IsFloor bars.now size align from }
    ensures { MatchOption result ((x : ℕ) → IsFree bars.now size align x → limit < x + size) (λ x. IsLeastFree bars.now size align x × (x + size ≤ limit)) }
{
    if size > limit {
        return None;
    }
    let last = limit - size;
    let mut at = next_aligned(from, align, last)?;
    if size == 0 {
        return Some(at);
    }
    for bar in bars {
        if at + size <= bar.start {
            return Some(at);
        }
        if at < bar.end {
            at = next_aligned(bar.end, align, last)?;
        }
    }
    Some(at)
}

/// Covers the bytes of one more bar. Where it begins no later than the one before it ends, the two become one.
pub(crate) fn add(bars: &mut Vec<Bar>, more: Bar) -> Result<(), AllocError>
    requires bars { AreBars bars.old.items }
    requires more { more.start < more.end }
    ensures { OnOk result (IsMore bars.old.items more bars.new.items) }
{
    let at = bars.partition_point(|bar| bar.start < more.start);
    if at > 0 {
        let before = bars[at - 1];
        if more.start <= before.end {
            let end = before.end.max(more.end);
            bars[at - 1] = Bar {
                start: before.start,
                end,
            };
            return Ok(());
        }
    }
    bars.insert(at, more)?;
    Ok(())
}
