//! The lines of a text: a comment ends with its line (LLVM Language Reference, "Identifiers").

ghost use Rattle.std.specs.Prelude.{◌≡◌, ◌<◌, ◌≤◌, ◌+◌, ◌∷◌, drop, length};
ghost use Rattle.clang_tokens.specs.Lines as spec;

/// How many bytes stand before the next line feed, or before the end.
pub fn line_len(text: &[u8]) -> usize
    ensures value { result ≡ spec.line_len text.now }
    ensures within { result ≤ length text.now }
{
    for (i, b) in text.iter().enumerate() {
        if *b == b'\n' {
            return i;
        }
    }
    text.len()
}

/// The text from a position on.
fn behind(text: &[u8], from: usize) -> &[u8]
    ensures { result.now ≡ drop from text.now }
{
    let (_, rest) = text.split_at(from.min(text.len()));
    rest
}

/// A text's first line, and the text behind it and its line feed (LLVM Language Reference, "Identifiers").
pub fn first_line(text: &[u8]) -> (&[u8], &[u8])
    requires { 0 < length text.now }
    ensures lines { spec.lines text.now ≡ result.0.now ∷ spec.lines result.1.now }
    ensures shorter { length result.1.now + 1 ≤ length text.now }
{
    let len = line_len(text);
    let (line, _) = text.split_at(len);
    (line, behind(text, len + 1))
}
