//! Pairs in order.

ghost use Rattle.std.specs.Prelude.{◌≡◌, ◌++◌, OnOk};
ghost use Rattle.frame_conflicts.specs.Pairs.{pair_if};

use ir_base::Items;
use std::alloc::AllocError;

/// Adds a pair where it holds.
pub fn push_if(
    pairs: &mut Items<(usize, usize)>,
    holds: bool,
    one: usize,
    other: usize,
) -> Result<(), AllocError>
    ensures { OnOk result (pairs.new ≡ pairs.old ++ pair_if holds one other) }
{
    if holds {
        pairs.push((one, other))?;
    }
    Ok(())
}
