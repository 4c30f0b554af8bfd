//! New names.

ghost use Rattle.std.specs.Prelude.{◌≡◌, ◌++◌, IfOk, OnOk};
ghost use Rattle.pass_fetch.specs.Blocks.{numbered_names};

use ir_base::{Data, Items, Name};
use ir_model::numbered_name;
use std::alloc::{AllocError, Global};

#[tactic(auto, using(crate::proofs::Numbered::numbered_names_step))]
fn numbered_names(alloc: Global, word: &[u8], count: usize) -> Result<Items<Name>, AllocError>
    ensures { IfOk result (λ x. x ≡ numbered_names word.now count) }
{
    let mut names = Items::new(alloc);
    for k in 0..count {
        names.push(numbered_name(alloc, word, k)?)?;
    }
    Ok(names)
}

/// The names, and behind them so many of a word and a number, from 0 on.
pub fn with_numbered_names(
    alloc: Global,
    names: &Items<Name>,
    word: &[u8],
    count: usize,
) -> Result<Items<Name>, AllocError>
    ensures { IfOk result (λ x. x ≡ names.now ++ numbered_names word.now count) }
{
    let mut all = names.copied(alloc)?;
    for name in numbered_names(alloc, word, count)?.into_vec() {
        all.push(name)?;
    }
    Ok(all)
}
