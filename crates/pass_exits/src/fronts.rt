//! The fronts of blocks that stand in a window.

ghost use Rattle.std.specs.Prelude.{◌≡◌, ◌==◌, ◌||◌, ℕ, IfOk, OnOk};
ghost use Rattle.std.specs.HashSet.{contains};
ghost use Rattle.ir_paths.specs.Paths.{has_point, same_point};
ghost use Rattle.pass_exits.specs.Exits.{front};

use ir_base::BlockId;
use ir_paths::Point;
use std::alloc::{AllocError, Global};
use std::collections::HashSet;

/// Blocks whose first points stand in a window.
pub type Fronts = HashSet<BlockId>;

/// Notes the block of a point that is the block's first.
fn note(fronts: &mut Fronts, point: Point) -> Result<(), AllocError>
    ensures { OnOk result ((t : ℕ) → contains ◌==◌ fronts.new t ≡ contains ◌==◌ fronts.old t || same_point (front t) point) }
{
    if point.at == 0 {
        fronts.insert(point.block)?;
    }
    Ok(())
}

/// The blocks whose first points are among these.
pub fn fronts_of(alloc: Global, inside: &[Point]) -> Result<Fronts, AllocError>
    ensures { IfOk result (λ fronts. (t : ℕ) → contains ◌==◌ fronts t ≡ has_point inside.now (front t)) }
{
    let mut fronts = HashSet::new(alloc);
    for point in inside {
        note(&mut fronts, *point)?;
    }
    Ok(fronts)
}
