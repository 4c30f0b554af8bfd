//! The positions of the words that aren't empty.

ghost use Rattle.std.specs.Prelude.{◌≡◌, ◌++◌, IfOk, OnOk};
ghost use Rattle.frame_conflicts.specs.Meeting.{spot_if, spots_from};

use crate::bits::word_at;
use ir_base::Items;
use std::alloc::{AllocError, Global};

/// Adds a position where its word isn't empty.
fn push_spot(spots: &mut Items<usize>, at: usize, word: u64) -> Result<(), AllocError>
    ensures { OnOk result (spots.new ≡ spots.old ++ spot_if at word) }
{
    if word != 0 {
        spots.push(at)?;
    }
    Ok(())
}

/// The positions of the words that aren't empty, in order.
pub fn spots_of(alloc: Global, words: &[u64]) -> Result<Items<usize>, AllocError>
    ensures { IfOk result (λ spots. spots ≡ spots_from 0 words.now) }
{
    let mut spots = Items::new(alloc);
    for at in 0..words.len() {
        push_spot(&mut spots, at, word_at(words, at))?;
    }
    Ok(spots)
}
