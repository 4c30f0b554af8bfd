//! Classes of bytes.

ghost use Rattle.std.specs.Prelude.{◌≡◌};
ghost use Rattle.text_lexer.specs.Bytes.{is_letter, is_digit, is_name_byte, is_word_start, is_mark};

pub fn is_letter(b: u8) -> bool
    ensures { result ≡ is_letter b }
{
    (b'a' <= b && b <= b'z') || (b'A' <= b && b <= b'Z')
}

pub fn is_digit(b: u8) -> bool
    ensures { result ≡ is_digit b }
{
    b'0' <= b && b <= b'9'
}

pub fn is_word_start(b: u8) -> bool
    ensures { result ≡ is_word_start b }
{
    is_letter(b) || b == b'$' || b == b'.' || b == b'_'
}

/// The bytes of a name that isn't quoted.
pub fn is_name_byte(b: u8) -> bool
    ensures { result ≡ is_name_byte b }
{
    is_word_start(b) || is_digit(b) || b == b'-'
}

pub fn is_mark(b: u8) -> bool
    ensures { result ≡ is_mark b }
{
    match b {
        b'=' | b',' | b'(' | b')' | b'[' | b']' | b'{' | b'}' | b':' | b'|' | b'*' => true,
        _ => false,
    }
}
