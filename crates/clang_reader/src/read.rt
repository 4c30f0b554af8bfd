//! A text of clang.

ghost use Rattle.std.specs.Prelude.{◌≡◌, IfOk};
ghost use Rattle.clang_reader.specs.Read.{from_clang};

use crate::bitcasts::{bitcasts_at, bitcasts_of};
use crate::fault::Fault;
use crate::line::{LineRead, line_read};
use clang_tokens::{first_line, push_line, tokens_of};
use ir_base::Items;
use std::alloc::{AllocError, Global};

/// What a text of clang is read as ("Coroutines in LLVM", "Intrinsics").
#[derive(Drop)]
pub enum Reading {
    /// A text of the subset.
    Written(Items<u8>),
    /// The line of this number, from 1, isn't taken.
    Refused(u64, Fault),
}

/// Each line becomes a line, or the first line with a fault is told ("Coroutines in LLVM",
/// "llvm.coro.await.suspend.void", "llvm.coro.await.suspend.bool", "llvm.coro.await.suspend.handle"; LLVM Language
/// Reference, "bitcast .. to", "llvm.memset.*", "llvm.assume").
#[tactic(auto, using(crate::proofs::Lines::line_turn, crate::proofs::Lines::line_stop, crate::proofs::Lines::line_end))]
pub fn from_clang(alloc: Global, text: &[u8]) -> Result<Reading, AllocError>
    ensures { IfOk result (λ r. r ≡ from_clang text.now) }
{
    let mut out = Vec::new(alloc);
    let mut bitcasts = bitcasts_of(alloc, text)?;
    let mut number: u64 = 1;
    let mut rest = text;
    while !rest.is_empty() {
        let (line, behind) = first_line(rest);
        let listed = tokens_of(alloc, line)?;
        bitcasts = bitcasts_at(alloc, bitcasts, listed.tokens.as_slice(), behind)?;
        match line_read(alloc, &bitcasts, number, line, &listed)? {
            LineRead::Stops(fault) => return Ok(Reading::Refused(number, fault)),
            LineRead::Gives(tokens) => push_line(tokens.as_slice(), &mut out)?,
        }
        number += 1;
        rest = behind;
    }
    Ok(Reading::Written(Items::from_vec(out)))
}
