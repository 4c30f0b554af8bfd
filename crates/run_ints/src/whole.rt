//! Words as whole numbers, and whole numbers cut to a width.

ghost use Rattle.std.specs.Prelude.{◌≡◌, ◌≤◌, ◌<◌, ◌^◌, ◌%◌, ◌*ℤ◌, ℤ, pos, int_div, int_rem};
ghost use Rattle.std.specs.Int.RustNames.{FitsSigned, unsigned_abs};
ghost use Rattle.run_ints.specs.Numbers.{signed_of, bits_of, fits_unsigned, fits_signed};

/// How many words of a width there are.
pub fn count(width: u32) -> u128
    requires { width ≤ 64 }
    ensures { result ≡ 2 ^ width }
{
    1 << width
}

/// A word's number with its sign.
pub fn signed(width: u32, bits: u64) -> i128
    requires narrow { width ≤ 64 }
    requires below { bits < 2 ^ width }
    ensures value { result ≡ signed_of width bits }
    ensures small { unsigned_abs result ≤ 2 ^ 63 }
{
    let count = count(width);
    if 2 * (bits as u128) < count {
        bits as i128
    } else {
        bits as i128 - count as i128
    }
}

/// What is left of a number in a width.
#[tactic(auto, using(std::proofs::lemmas::Nat::and_mask))]
pub fn cut(width: u32, n: u128) -> u64
    requires { width ≤ 64 }
    ensures { result ≡ n % 2 ^ width }
{
    (n & (count(width) - 1)) as u64
}

/// What is left of a whole number in a width.
pub fn cut_signed(width: u32, z: i128) -> u64
    requires { width ≤ 64 }
    ensures { result ≡ bits_of width z }
{
    if z >= 0 {
        cut(width, z as u128)
    } else {
        (count(width) - 1) as u64 - cut(width, (-1 - z) as u128)
    }
}

/// Whether a whole number is from 0 to 2^width - 1.
pub fn is_unsigned(width: u32, z: i128) -> bool
    requires { width ≤ 64 }
    ensures { result ≡ fits_unsigned width z }
{
    z >= 0 && (z as u128) < count(width)
}

/// Whether a whole number is from -2^(width-1) to 2^(width-1) - 1.
pub fn is_signed(width: u32, z: i128) -> bool
    requires { width ≤ 64 }
    ensures { result ≡ fits_signed width z }
{
    let magnitude = if z >= 0 { z as u128 } else { (-1 - z) as u128 };
    2 * magnitude < count(width)
}

/// The product of two numbers of at most 64 bits.
#[tactic(auto, using(crate::proofs::Products::product_fits))]
pub fn product(a: i128, b: i128) -> i128
    requires a_small { unsigned_abs a ≤ 2 ^ 63 }
    requires b_small { unsigned_abs b ≤ 2 ^ 63 }
    ensures { result ≡ a *ℤ b }
{
    a * b
}

/// The quotient, rounded toward zero.
pub fn quotient(a: i128, b: i128) -> i128
    requires small { unsigned_abs a ≤ 2 ^ 63 }
    requires divisor { 0 < unsigned_abs b }
    ensures { result ≡ int_div a b }
{
    a / b
}

/// What is left by the quotient, with the sign of the dividend.
pub fn remainder(a: i128, b: i128) -> i128
    requires small { unsigned_abs a ≤ 2 ^ 63 }
    requires divisor { 0 < unsigned_abs b }
    ensures { result ≡ int_rem a b }
{
    a % b
}
