//! The symbols of a text.

ghost use Rattle.std.specs.Prelude.{◌≡◌, IfOk};
ghost use Rattle.text_symbols.specs.Listing.{symbols_of};

use crate::sym::{Sym, sym_of};
use ir_base::Items;
use std::alloc::{AllocError, Global};
use text_lexer::{Next, next_token};

/// What the tokens of a text say, and whether they are all of it but blanks and comments.
#[derive(Drop)]
pub struct Symbols {
    pub symbols: Items<Sym>,
    pub whole: bool,
}

/// What the tokens of a text say, up to the first byte that begins none.
#[tactic(auto, using(crate::proofs::Said::said_turn, crate::proofs::Said::said_end, crate::proofs::Said::said_bad))]
pub fn symbols_of(alloc: Global, text: &[u8]) -> Result<Symbols, AllocError>
    ensures { IfOk result (λ s. s ≡ symbols_of text.now) }
{
    let mut symbols = Items::new(alloc);
    let mut at = 0;
    loop {
        match next_token(text, at) {
            Next::Tok(token) => {
                let sym = sym_of(alloc, token.kind, token.bytes(text))?;
                symbols.push(sym)?;
                at = token.span.end;
            }
            Next::End => {
                return Ok(Symbols {
                    symbols,
                    whole: true,
                });
            }
            Next::BadByte(_) => {
                return Ok(Symbols {
                    symbols,
                    whole: false,
                });
            }
        }
    }
}
