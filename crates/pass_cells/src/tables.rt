//! Tables by name.

ghost use Rattle.std.specs.Prelude.{◌≡◌, IfOk, None as NoEntry, replicate, false};
ghost use Rattle.pass_cells.specs.Kept.{entry, is_flagged};

use ir_base::{Items, ValueId};
use std::alloc::{AllocError, Global};

/// What a table tells of a name.
pub fn entry(table: &Items<Option<usize>>, id: ValueId) -> Option<usize>
    ensures { result ≡ entry table.now id }
{
    match table.get(id) {
        None => None,
        Some(told) => *told,
    }
}

/// A table of so many names that tells nothing yet.
pub fn no_entries(alloc: Global, count: usize) -> Result<Items<Option<usize>>, AllocError>
    ensures { IfOk result (λ x. x ≡ replicate count NoEntry) }
{
    Ok(Items::from_vec(Vec::from_elem(alloc, None, count)?))
}

/// Whether a name is flagged.
pub fn is_flagged(flags: &[bool], id: ValueId) -> bool
    ensures { result ≡ is_flagged flags.now id }
{
    match flags.get(id) {
        None => false,
        Some(flag) => *flag,
    }
}
