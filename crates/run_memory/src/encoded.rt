//! Values as bytes.

ghost use Rattle.std.specs.Prelude.{◌≡◌, ◌<◌, ◌≤◌, get_or};
ghost use Rattle.run_memory.specs.Memory.{encode};

use crate::block::Byte;
use crate::pointer::Value;
use arrayvec::ArrayVec;

/// The byte at a place of what a value is stored as.
#[tactic(auto, using(crate::proofs::Digits::part_at, crate::proofs::Digits::digit_at, crate::proofs::Digits::undefined_at))]
fn byte_of(v: Value, len: usize, k: usize) -> Byte
    requires within { k < len }
    requires short { len ≤ 8 }
    ensures { result ≡ get_or (encode len v) k Byte.Undefined }
{
    match v {
        Value::Poison => Byte::Undefined,
        Value::Int(word) => Byte::Number(((word.bits >> (8 * k)) % 256) as u8),
        Value::Ptr(p) => Byte::Part(p, k as u32),
    }
}

/// The bytes that a value is stored as.
pub fn encoded(v: Value, len: usize) -> ArrayVec<Byte, 8>
    requires { len ≤ 8 }
    ensures { result.items ≡ encode len v }
{
    let mut bytes = ArrayVec::new();
    for k in 0..len {
        bytes.push(byte_of(v, len, k));
    }
    bytes
}
