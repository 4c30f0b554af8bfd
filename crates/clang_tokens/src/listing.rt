//! The tokens of a line (LLVM Language Reference, "Identifiers" and "String constants").

ghost use Rattle.std.specs.Prelude.{◌≡◌, IfOk};
ghost use Rattle.clang_tokens.specs.Listing.{tokens_of};

use ir_base::{Items, Text};
use std::alloc::{AllocError, Global};
use text_lexer::{Next, next_token};

/// The bytes of a line's tokens, and whether they are all of it but blanks and comments (LLVM Language Reference,
/// "Identifiers").
#[derive(Drop)]
pub struct Listed {
    /// The bytes of each token.
    pub tokens: Items<Text>,
    /// Whether nothing but blanks and comments stands between and behind them.
    pub whole: bool,
}

/// The bytes of a line's tokens, up to the first byte that begins none (LLVM Language Reference, "Identifiers" and "String
/// constants").
#[tactic(auto, using(crate::proofs::Said::said_turn, crate::proofs::Said::said_end, crate::proofs::Said::said_bad))]
pub fn tokens_of(alloc: Global, line: &[u8]) -> Result<Listed, AllocError>
    ensures { IfOk result (λ r. r ≡ tokens_of line.now) }
{
    let mut tokens = Items::new(alloc);
    let mut at = 0;
    loop {
        match next_token(line, at) {
            Next::Tok(token) => {
                let bytes = Text::from_bytes(alloc, token.bytes(line))?;
                tokens.push(bytes)?;
                at = token.span.end;
            }
            Next::End => {
                return Ok(Listed {
                    tokens,
                    whole: true,
                });
            }
            Next::BadByte(_) => {
                return Ok(Listed {
                    tokens,
                    whole: false,
                });
            }
        }
    }
}
