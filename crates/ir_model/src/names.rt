//! New names.

ghost use Rattle.std.specs.Prelude.{◌≡◌, IfOk};
ghost use Rattle.ir_model.specs.Names.{numbered};

use ir_base::{Name, Text};
use itoa::Buffer;
use std::alloc::{AllocError, Global};

/// The name of a text with a number behind it, in decimal.
pub fn numbered_name(alloc: Global, text: &[u8], number: usize) -> Result<Name, AllocError>
    ensures { IfOk result (λ n. n ≡ numbered text.now number) }
{
    let mut buffer = Buffer::new();
    let mut all = Vec::from_slice(alloc, text)?;
    all.extend_from_slice(buffer.format(number).as_bytes())?;
    Ok(Name::Text(Text::from_bytes(alloc, all.as_slice())?))
}
