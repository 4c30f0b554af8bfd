//! What goes from a line token by token.

ghost use Rattle.std.specs.Prelude.{◌≡◌, IfOk};
ghost use Rattle.clang_reader.specs.Plain as spec;

use clang_tokens::{Sret, has, is, of_sret, push_word, sret_after};
use ir_base::{Items, Text};
use std::alloc::{AllocError, Global};

fn drops_flags(tokens: &[Text]) -> bool
    ensures { result ≡ spec.drops_flags tokens.now }
{
    has(b"trunc", tokens) || has(b"getelementptr", tokens)
}

fn is_flag(drops: bool, token: &[u8]) -> bool
    ensures { result ≡ spec.is_flag drops token.now }
{
    is(token, b"nusw")
        || is(token, b"samesign")
        || (drops && (is(token, b"nuw") || is(token, b"nsw")))
}

/// What is left of a line without flags and `sret`.
#[tactic(auto, using(crate::proofs::Bounds::within, crate::proofs::Bounds::next_bound))]
pub fn plain(alloc: Global, tokens: &[Text]) -> Result<Items<Text>, AllocError>
    ensures { IfOk result (λ p. p ≡ spec.plain tokens.now) }
{
    let drops = drops_flags(tokens);
    let mut kept = Items::new(alloc);
    let mut sret = Sret::Outside;
    for token in tokens {
        let bytes = token.as_bytes();
        if !of_sret(sret, bytes) && !is_flag(drops, bytes) {
            push_word(alloc, &mut kept, bytes)?;
        }
        sret = sret_after(sret, bytes);
    }
    Ok(kept)
}
