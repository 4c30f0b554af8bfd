//! Widths of integers, and whole numbers cut to them.

ghost use Rattle.std.specs.Prelude.{◌≡◌, ◌+◌, ◌%◌, ◌^◌, ◌≤◌, ◌<◌, ℕ};
ghost use Rattle.run_memory.specs.run_ints.Numbers.{bits_of as bits_in};
ghost use Rattle.ir_paths.specs.ir_model.TypeView.{bits_of};

use ir_paths::ir_model_library::IntWidth;

/// How many bits the width has.
pub fn bits(width: IntWidth) -> u32
    ensures { result ≡ bits_of width }
{
    match width {
        IntWidth::I1 => 1,
        IntWidth::I8 => 8,
        IntWidth::I16 => 16,
        IntWidth::I32 => 32,
        IntWidth::I64 => 64,
    }
}

/// The greatest number of the width.
pub fn greatest(width: IntWidth) -> u64
    ensures { result + 1 ≡ 2 ^ bits_of width }
{
    match width {
        IntWidth::I1 => 1,
        IntWidth::I8 => 0xff,
        IntWidth::I16 => 0xffff,
        IntWidth::I32 => 0xffff_ffff,
        IntWidth::I64 => u64::MAX,
    }
}

/// The low bits of a natural number.
fn low_bits(width: IntWidth, n: u128) -> u64
    ensures { result ≡ n % 2 ^ bits_of width }
{
    match width {
        IntWidth::I1 => (n % 2) as u64,
        IntWidth::I8 => (n % 0x100) as u64,
        IntWidth::I16 => (n % 0x1_0000) as u64,
        IntWidth::I32 => (n % 0x1_0000_0000) as u64,
        IntWidth::I64 => (n % 0x1_0000_0000_0000_0000) as u64,
    }
}

/// The low bits of a whole number in its two's complement.
pub fn cut(width: IntWidth, z: i128) -> u64
    ensures { result ≡ bits_in (bits_of width) z }
{
    if z >= 0 {
        low_bits(width, z.unsigned_abs())
    } else {
        greatest(width) - low_bits(width, (z + 1).unsigned_abs())
    }
}
