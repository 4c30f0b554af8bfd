//! Tokens as a line.

ghost use Rattle.std.specs.Prelude.{◌≡◌, ◌++◌, OnOk};
ghost use Rattle.clang_tokens.specs.Spaced.{line_of, spaced, spaced_more};

use ir_base::Text;
use std::alloc::AllocError;

fn push_more(tokens: &[Text], out: &mut Vec<u8>) -> Result<(), AllocError>
    ensures { OnOk result (out.new.items ≡ out.old.items ++ spaced_more tokens.now) }
{
    for token in tokens {
        out.push(b' ')?;
        out.extend_from_slice(token.as_bytes())?;
    }
    Ok(())
}

fn push_spaced(tokens: &[Text], out: &mut Vec<u8>) -> Result<(), AllocError>
    ensures { OnOk result (out.new.items ≡ out.old.items ++ spaced tokens.now) }
{
    match tokens {
        [] => Ok(()),
        [first, rest @ ..] => {
            out.extend_from_slice(first.as_bytes())?;
            push_more(rest, out)
        }
    }
}

/// Writes tokens with spaces between, and a line feed (LLVM Language Reference, "Identifiers": blanks part tokens).
pub fn push_line(tokens: &[Text], out: &mut Vec<u8>) -> Result<(), AllocError>
    ensures { OnOk result (out.new.items ≡ out.old.items ++ line_of tokens.now) }
{
    push_spaced(tokens, out)?;
    out.push(b'\n')?;
    Ok(())
}
