//! Numbers of digits.

ghost use Rattle.std.specs.Prelude.{◌≡◌, ◌+◌, ◌*◌};
ghost use Rattle.text_symbols.specs.Numbers.{are_digits, digit_value, fitting, value_of, without_zeros};

/// The number that the digits are, where it is below 2^64.
#[tactic(auto, using(crate::proofs::Values::too_much, crate::proofs::Values::at_end))]
pub fn value_of(digits: &[u8]) -> Option<u64>
    ensures { result ≡ fitting (value_of digits.now) }
{
    let mut value: u64 = 0;
    for digit in digits {
        match with_digit(value, *digit) {
            None => return None,
            Some(next) => value = next,
        }
    }
    Some(value)
}

/// The number with one more digit, where it is below 2^64.
fn with_digit(value: u64, digit: u8) -> Option<u64>
    ensures { result ≡ fitting (value * 10 + digit_value digit) }
{
    let tens = value.checked_mul(10)?;
    tens.checked_add(u64::from(digit_value(digit)))
}

pub fn are_digits(bytes: &[u8]) -> bool
    ensures { result ≡ are_digits bytes.now }
{
    for b in bytes {
        if !(b'0' <= *b && *b <= b'9') {
            return false;
        }
    }
    true
}

fn digit_value(digit: u8) -> u8
    ensures { result ≡ digit_value digit }
{
    digit.saturating_sub(b'0')
}

/// The digits behind the leading zeros.
pub fn without_zeros(digits: &[u8]) -> &[u8]
    ensures { result.now ≡ without_zeros digits.now }
{
    let mut rest = digits;
    while let [b'0', after @ ..] = rest {
        rest = after;
    }
    rest
}
