//! Values as they are written.

ghost use Rattle.std.specs.Prelude.{◌≡◌, ◌≤◌, ◌^◌, ◌++◌, OnOk, decimal, codes};
ghost use Rattle.std.specs.Fmt.{signed_decimal};
ghost use Rattle.run_ints.specs.Numbers.{signed_of};
ghost use Rattle.cli_report.specs.Report.{signed_among, word_text, later_words, words_text};

use ir_base::Word;
use itoa::Buffer;
use std::alloc::AllocError;

/// Adds a number in decimal.
pub fn push_number(out: &mut Vec<u8>, number: u64) -> Result<(), AllocError>
    ensures { OnOk result (out.new.items ≡ out.old.items ++ decimal number) }
{
    let mut buffer = Buffer::new();
    out.extend_from_slice(buffer.format(number).as_bytes())
}

fn push_signed(out: &mut Vec<u8>, number: i128) -> Result<(), AllocError>
    ensures { OnOk result (out.new.items ≡ out.old.items ++ signed_decimal number) }
{
    let mut buffer = Buffer::new();
    out.extend_from_slice(buffer.format(number).as_bytes())
}

/// Adds a word: an i1 as 0 or 1, others with their sign.
pub fn push_word(out: &mut Vec<u8>, word: Word) -> Result<(), AllocError>
    ensures { OnOk result (out.new.items ≡ out.old.items ++ word_text word) }
{
    if word.width == 1 {
        push_number(out, word.bits)
    } else {
        push_signed(out, signed_number(word))
    }
}

/// Adds words with commas between.
pub fn push_words(out: &mut Vec<u8>, words: &[Word]) -> Result<(), AllocError>
    ensures { OnOk result (out.new.items ≡ out.old.items ++ words_text words.now) }
{
    let [first, others @ ..] = words else {
        return Ok(());
    };
    push_word(out, *first)?;
    push_later(out, others)
}

fn push_later(out: &mut Vec<u8>, words: &[Word]) -> Result<(), AllocError>
    ensures { OnOk result (out.new.items ≡ out.old.items ++ later_words words.now) }
{
    for word in words {
        out.extend_from_slice(b", ")?;
        push_word(out, *word)?;
    }
    Ok(())
}

/// A word's number with its sign.
#[tactic(auto, using(crate::proofs::Signs::of_wide))]
fn signed_number(word: Word) -> i128
    ensures { result ≡ signed_of word.width word.bits }
{
    if word.width > 64 {
        i128::from(word.bits)
    } else {
        signed_in(word.bits, 1 << word.width)
    }
}

/// The number with its sign of one of so many words.
fn signed_in(bits: u64, count: u128) -> i128
    requires { count ≤ 2 ^ 64 }
    ensures { result ≡ signed_among count bits }
{
    if 2 * u128::from(bits) < count {
        i128::from(bits)
    } else {
        let distance = count.saturating_sub(1).saturating_sub(u128::from(bits));
        -1 - distance as i128
    }
}
