//! Whole inputs and outputs.

ghost use Rattle.std.specs.Prelude.{◌≡◌, ◌<◌, ◌≤◌, ◌+◌, ◌-◌, ◌^◌, ◌++◌, ℕ, List, [], length, drop, Some, IfOk, IfErr, OnOk, OnErr};
ghost use Rattle.std.specs.Io.KnownBytes.{Consumes, Appends, IsAtEnd};
ghost use Rattle.cli_io.specs.Faults.{Rose, Succeeds};
ghost use Rattle.cli_io.specs.Parts.{HoldsMore, HoldsAtMost, ConsumesAtMost, AppendsPrefix};

use crate::traits::{Sink, Source};
use std::alloc::Global;
use thiserror::Error;

/// Why a source wasn't read whole.
#[derive(Clone, Copy, Debug, PartialEq, Eq, Error)]
pub enum ReadAllError {
    /// A read failed, and was counted.
    #[error("a read failed")]
    ReadFault,
    /// More bytes than the limit were there.
    #[error("the input is too long")]
    TooLong,
    /// Want of memory.
    #[error("out of memory")]
    OutOfMemory,
}

/// A write failed, and was counted. A prefix of the bytes went out.
#[derive(Clone, Copy, Debug, PartialEq, Eq, Error)]
#[error("a write failed")]
pub struct WriteFault;

/// How many bytes are asked for in one call.
const WINDOW: usize = 16384;

/// Reads at most `most` of the next bytes in one call, and puts them behind the others. At an error none was put there.
fn read_piece<S: Source>(
    source: &mut S,
    all: &mut Vec<u8>,
    most: usize,
) -> Result<usize, ReadAllError>
    requires { 0 < most }
    ensures bound { IfOk result (λ n. n ≤ most) }
    ensures items { IfOk result (λ n. (bytes : List ℕ) × (all.new.items ≡ all.old.items ++ bytes)
        × Consumes (S.left source.old) (S.left source.new) bytes × (length bytes ≡ n)) }
    ensures end { IfOk result (λ n. n ≡ 0 → IsAtEnd (S.left source.new)) }
    ensures kept { OnErr result (all.new.items ≡ all.old.items) }
    ensures taken { OnErr result (ConsumesAtMost (S.left source.old) (S.left source.new) most) }
    ensures fits { IfErr result (λ e. e ≡ ReadAllError.TooLong → ⊥) }
    ensures fault { result ≡ Err ReadAllError.ReadFault → Rose (S.faults source.old) (S.faults source.new) }
    ensures later { S.faults source.old ≤ S.faults source.new }
    ensures sure { S.IsSure source.old → (result ≡ Err ReadAllError.ReadFault → ⊥) × S.IsSure source.new × (S.faults source.new ≡ S.faults source.old) }
{
    let mut window = [0u8; WINDOW];
    let (room, _) = window.split_at_mut(most.min(WINDOW));
    match source.read_into(room) {
        Err(_) => Err(ReadAllError::ReadFault),
        Ok(count) => {
            let (front, _) = room.split_at(count);
            match all.extend_from_slice(front) {
                Err(_) => Err(ReadAllError::OutOfMemory),
                Ok(()) => Ok(count),
            }
        }
    }
}

/// All bytes that are left, where they are at most `limit`. No more than `limit + 1` bytes are read.
///
/// A failed read is `ReadFault`, at the first of them, and more bytes than the limit are `TooLong`.
pub fn read_all<S: Source>(
    alloc: Global,
    source: &mut S,
    limit: usize,
) -> Result<Vec<u8>, ReadAllError>
    requires { limit ≤ 2 ^ 32 }
    ensures whole { IfOk result (λ v. Consumes (S.left source.old) (S.left source.new) v.items) }
    ensures at_end { OnOk result (IsAtEnd (S.left source.new)) }
    ensures within { IfOk result (λ v. length v.items ≤ limit) }
    ensures told { OnOk result (HoldsAtMost (S.left source.old) limit) }
    ensures too_long { result ≡ Err ReadAllError.TooLong → HoldsMore (S.left source.old) limit }
    ensures taken { ConsumesAtMost (S.left source.old) (S.left source.new) (limit + 1) }
    ensures fault { result ≡ Err ReadAllError.ReadFault → Rose (S.faults source.old) (S.faults source.new) }
    ensures later { S.faults source.old ≤ S.faults source.new }
    ensures sure { S.IsSure source.old → (result ≡ Err ReadAllError.ReadFault → ⊥) × S.IsSure source.new × (S.faults source.new ≡ S.faults source.old) }
{
    let mut all = Vec::new(alloc);
    while all.len() <= limit {
        let most = limit + 1 - all.len();
        if read_piece(source, &mut all, most)? == 0 {
            return Ok(all);
        }
    }
    Err(ReadAllError::TooLong)
}

/// Writes all bytes, or a prefix of them where a write fails.
pub fn write_all<K: Sink>(sink: &mut K, bytes: &[u8]) -> Result<(), WriteFault>
    ensures whole { OnOk result (Appends (K.held sink.old) (K.held sink.new) bytes.now) }
    ensures part { OnErr result (AppendsPrefix (K.held sink.old) (K.held sink.new) bytes.now) }
    ensures fault { OnErr result (Rose (K.faults sink.old) (K.faults sink.new)) }
    ensures later { K.faults sink.old ≤ K.faults sink.new }
    ensures sure { (room : ℕ) → K.IsSureFor sink.old room → length bytes.now ≤ room
        → Succeeds (K.faults sink.old) (K.faults sink.new) result (λ _. K.IsSureFor sink.new (room - length bytes.now)) }
{
    let mut rest = bytes;
    while !rest.is_empty() {
        match sink.write(rest) {
            Err(_) => return Err(WriteFault),
            Ok(count) => {
                let (_, after) = rest.split_at(count);
                rest = after;
            }
        }
    }
    Ok(())
}
