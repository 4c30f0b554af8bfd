//! Marks, and metadata, which is passed over.

ghost use Rattle.std.specs.Prelude.{◌≡◌};
ghost use Rattle.text_reader.specs.Reading.{Gives, mark_at, behind_metadata, behind_pairs};

use crate::fault::ReadError;
use text_symbols::{Mark, Sym};

/// The symbols behind a mark.
pub fn mark_of(symbols: &[Sym], mark: Mark) -> Result<&[Sym], ReadError>
    ensures { Gives (λ x. x.now) result (mark_at mark symbols.now) }
{
    match symbols {
        [Sym::Mark(m), rest @ ..] if m.number() == mark.number() => Ok(rest),
        _ => Err(ReadError::Syntax),
    }
}

/// The symbols behind an instruction's metadata.
pub fn metadata_of(symbols: &[Sym]) -> &[Sym]
    ensures { result.now ≡ behind_metadata symbols.now }
{
    let mut rest = symbols;
    while let [Sym::Mark(Mark::Comma), Sym::Meta, Sym::Meta, after @ ..] = rest {
        rest = after;
    }
    rest
}

/// The symbols behind a function's metadata.
pub fn pairs_of(symbols: &[Sym]) -> &[Sym]
    ensures { result.now ≡ behind_pairs symbols.now }
{
    let mut rest = symbols;
    while let [Sym::Meta, Sym::Meta, after @ ..] = rest {
        rest = after;
    }
    rest
}
