//! Which name a spelling stands for.

ghost use Rattle.std.specs.Prelude.{◌≡◌, ◌<◌, ◌^◌, ◌↔◌, ℕ, IsTrue, Some, IfOk, IfSome, decimal};
ghost use Rattle.std.specs.List.{list_all};
ghost use Rattle.ir_base.specs.declared.name.Name.{Name};
ghost use Rattle.text_names.specs.Spelling.{IsName, spelling, is_name_byte, is_name_text};

use crate::opened::opened;
use crate::spelling::{begins_with_digit, print_name};
use ir_base::{Name, Text};
use std::alloc::{AllocError, Global};

fn is_name_byte(byte: u8) -> bool
    ensures { result ≡ is_name_byte byte }
{
    byte != 0
}

fn are_name_bytes(bytes: &[u8]) -> bool
    ensures { result ≡ list_all is_name_byte bytes.now }
{
    bytes.iter().all(|byte| is_name_byte(*byte))
}

fn is_name_text(text: &[u8]) -> bool
    ensures { result ≡ is_name_text text.now }
{
    !text.is_empty() && are_name_bytes(text)
}

/// Whether a value is a name: a text that is empty or has a zero byte is none.
fn is_name(name: &Name) -> bool
    ensures { IsTrue result ↔ IsName name.now }
{
    match name {
        Name::Number(number) => {
            let _number = *number;
            true
        }
        Name::Text(text) => is_name_text(text.as_bytes()),
    }
}

/// The number that is written so, where it is below 2^32; maybe one too that is written otherwise.
fn number_of(bytes: &[u8]) -> Option<u32>
    ensures { (n : ℕ) → n < 2 ^ 32 → bytes.now ≡ decimal n → result ≡ Some n }
{
    match str::from_utf8(bytes) {
        Ok(text) => text.parse().ok(),
        Err(_) => None,
    }
}

/// The name that is written so, if it is one; maybe one too that is written otherwise.
fn candidate(alloc: Global, bytes: &[u8]) -> Result<Option<Name>, AllocError>
    ensures { (n : Name) → IsName n → bytes.now ≡ spelling n → IfOk result (λ r. r ≡ Some n) }
{
    if begins_with_digit(bytes) {
        return Ok(number_of(bytes).map(Name::Number));
    }
    let text = opened(alloc, bytes)?;
    Ok(Some(Name::Text(Text::from_bytes(alloc, &text)?)))
}

/// The name whose canonical spelling these bytes are, and `None` where they are no name's.
pub fn entry_of(alloc: Global, bytes: &[u8]) -> Result<Option<Name>, AllocError>
    ensures spelled { IfOk result (λ r. IfSome r (λ n. IsName n × (bytes.now ≡ spelling n))) }
    ensures found { (n : Name) → IsName n → bytes.now ≡ spelling n → IfOk result (λ r. r ≡ Some n) }
{
    let Some(name) = candidate(alloc, bytes)? else {
        return Ok(None);
    };
    let mut written = Vec::new(alloc);
    print_name(&name, &mut written)?;
    if is_name(&name) && written.as_slice() == bytes {
        Ok(Some(name))
    } else {
        Ok(None)
    }
}
