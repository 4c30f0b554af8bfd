//! Lists of numbers, as a word writes them.

ghost use Rattle.std.specs.Prelude.{◌≡◌, ◌==◌, ℕ, List, IfOk, map, option_map};
ghost use Rattle.std.specs.List.{list_all, slice_split};
ghost use Rattle.cli_words.specs.Lists as spec;

use std::alloc::{AllocError, Global};

fn is_digit(byte: u8) -> bool
    ensures { result ≡ spec.is_digit byte }
{
    byte.is_ascii_digit()
}

fn are_digits(bytes: &[u8]) -> bool
    ensures { result ≡ list_all spec.is_digit bytes.now }
{
    bytes.iter().all(|byte| is_digit(*byte))
}

/// What one or more digits write, where it is below 2^64.
fn magnitude(digits: &[u8]) -> Option<u64>
    ensures { result ≡ spec.magnitude digits.now }
{
    if !are_digits(digits) {
        return None;
    }
    match str::from_utf8(digits) {
        Ok(text) => text.parse().ok(),
        Err(_) => None,
    }
}

/// The negative of a number, where it is at least -2^63.
fn negated(magnitude: u64) -> Option<i128>
    ensures { result ≡ spec.negated magnitude }
{
    if magnitude <= 1 << 63 {
        Some(-i128::from(magnitude))
    } else {
        None
    }
}

/// A decimal number from -2^63 to 2^64-1.
fn number(part: &[u8]) -> Option<i128>
    ensures { result ≡ spec.number part.now }
{
    match part {
        [] => None,
        [b'-', digits @ ..] => negated(magnitude(digits)?),
        _ => Some(i128::from(magnitude(part)?)),
    }
}

/// The parts of a word between its commas.
fn parts<'a>(alloc: Global, word: &'a str) -> Result<Vec<&'a str>, AllocError>
    ensures { IfOk result (λ v. map (λ x. x.now) v.items ≡ slice_split (λ b. b == 44) word.entry.now) }
{
    word.split(',').collect(alloc)
}

/// The numbers of a list: one or more decimal numbers, each digits with a minus before them or none, from -2^63 to 2^64-1,
/// with commas between and without spaces. `None` where the word is no list.
pub fn read_list(alloc: Global, word: &str) -> Result<Option<Vec<i128>>, AllocError>
    ensures { IfOk result (λ r. option_map (λ v. v.items) r ≡ spec.list word.now) }
{
    let parts = parts(alloc, word)?;
    let mut numbers = Vec::with_capacity(alloc, parts.len())?;
    for part in &parts {
        match number(part.as_bytes()) {
            None => return Ok(None),
            Some(read) => numbers.push(read)?,
        }
    }
    Ok(Some(numbers))
}
