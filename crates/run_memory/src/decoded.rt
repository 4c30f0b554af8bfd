//! Bytes as values.

ghost use Rattle.std.specs.Prelude.{◌≡◌, ◌≤◌, length};
ghost use Rattle.run_memory.specs.Memory.{number_of, integer_from, are_parts, pointer_from, decode};

use crate::block::Byte;
use crate::pointer::{Access, Pointer, Value};
use run_ints::ir_base_library::Word;

/// The number that bytes stand for, the least byte first, where each of them is a number.
fn number_of(bytes: &[Byte]) -> Option<u64>
    requires { length bytes.now ≤ 8 }
    ensures { result ≡ number_of bytes.now }
{
    let mut number = 0;
    for k in 0..bytes.len() {
        match bytes[k] {
            Byte::Number(digit) => number += (digit as u64) << (8 * k),
            _ => return None,
        }
    }
    Some(number)
}

/// The integer of a width that a load finds, which for an i1 is 0 or 1.
fn integer_from(width: u32, number: Option<u64>) -> Value
    ensures { result ≡ integer_from width number }
{
    match number {
        None => Value::Poison,
        Some(bits) => {
            if width == 1 && bits > 1 {
                Value::Poison
            } else {
                Value::Int(Word { width, bits })
            }
        }
    }
}

/// Whether the bytes are the parts of a pointer in order.
fn are_parts(p: Pointer, bytes: &[Byte]) -> bool
    requires { length bytes.now ≤ 8 }
    ensures { result ≡ are_parts p 0 bytes.now }
{
    for k in 0..bytes.len() {
        match bytes[k] {
            Byte::Part(q, part) if p.is_same(q) && part == k as u32 => {}
            _ => return false,
        }
    }
    true
}

fn pointer_from(bytes: &[Byte]) -> Value
    requires { length bytes.now ≤ 8 }
    ensures { result ≡ pointer_from bytes.now }
{
    match bytes {
        [Byte::Part(p, _), ..] => {
            if are_parts(*p, bytes) {
                Value::Ptr(*p)
            } else {
                Value::Poison
            }
        }
        _ => Value::Poison,
    }
}

/// The value that bytes stand for.
pub fn decoded(what: Access, bytes: &[Byte]) -> Value
    requires { length bytes.now ≤ 8 }
    ensures { result ≡ decode what bytes.now }
{
    match what {
        Access::Int(width) => integer_from(width, number_of(bytes)),
        Access::Ptr => pointer_from(bytes),
    }
}
