//! Who is alive with whom.

ghost use Rattle.std.specs.Prelude.{◌≡◌, ◌≤◌, IfOk, length};
ghost use Rattle.frame_conflicts.specs.Known.{AreMetFor, AreSpotsAt, seen_at as seen_of_chunk, spots_at as spots_of_chunk};
ghost use Rattle.frame_conflicts.specs.Meeting.{AreMeetings, HaveMet, are_of as are_of_those, spots_from};

use crate::bits::{has_bit, word_at};
use crate::facts::Chunk;
use ir_base::Items;
use std::alloc::{AllocError, Global};

/// Each bit of one word meets all bits of the other.
fn meet(words: &mut Items<u64>, one: u64, other: u64)
    requires { length words.old ≡ 64 }
    ensures { HaveMet one other 64 words.old words.new }
{
    for bit in 0..64 {
        if has_bit(one, bit) {
            let word = word_at(words.as_slice(), bit) | other;
            words.set(bit, word);
        }
    }
}

/// Whether two words have nothing that the two before them haven't.
fn are_of(one: u64, other: u64, last_one: u64, last_other: u64) -> bool
    ensures { result ≡ are_of_those one other last_one last_other }
{
    one == 0 || other == 0 || (one == last_one && other == last_other)
}

/// For each of 64 slots those of 64 others that are alive with it at one of the points looked at. The spots are the positions of
/// the points at which any of the 64 are alive: no others are gone over.
fn meetings(
    alloc: Global,
    one: &[u64],
    spots: &[usize],
    other: &[u64],
) -> Result<Items<u64>, AllocError>
    requires { spots.now ≡ spots_from 0 one.now }
    ensures { IfOk result (AreMeetings one.now other.now) }
{
    let mut words = Items::from_vec(vec![in alloc; 0; 64]?);
    let mut last_x = 0;
    let mut last_y = 0;
    for spot in spots {
        let x = word_at(one, *spot);
        let y = word_at(other, *spot);
        if !are_of(x, y, last_x, last_y) {
            meet(&mut words, x, y);
            last_x = x;
            last_y = y;
        }
    }
    Ok(words)
}

fn seen_at(chunks: &Items<Chunk>, at: usize) -> &[u64]
    ensures { result.now ≡ seen_of_chunk chunks.now at }
{
    match chunks.get(at) {
        None => &[],
        Some(chunk) => chunk.seen.as_slice(),
    }
}

/// The positions of the points at which any slots of a chunk are alive.
fn spots_at(chunks: &Items<Chunk>, at: usize) -> &[usize]
    ensures { result.now ≡ spots_of_chunk chunks.now at }
{
    match chunks.get(at) {
        None => &[],
        Some(chunk) => chunk.spots.as_slice(),
    }
}

/// The meetings of a chunk with another; a chunk before it isn't looked at.
fn meetings_from(
    alloc: Global,
    chunks: &Items<Chunk>,
    one: usize,
    other: usize,
) -> Result<Items<u64>, AllocError>
    requires { AreSpotsAt chunks.now one }
    ensures { IfOk result (λ words. one ≤ other → AreMeetings (seen_of_chunk chunks.now one) (seen_of_chunk chunks.now other) words) }
{
    if other < one {
        Ok(Items::new(alloc))
    } else {
        meetings(
            alloc,
            seen_at(chunks, one),
            spots_at(chunks, one),
            seen_at(chunks, other),
        )
    }
}

/// For each chunk that isn't before one the meetings of that one with it.
pub fn all_meetings(
    alloc: Global,
    chunks: &Items<Chunk>,
    one: usize,
) -> Result<Items<Items<u64>>, AllocError>
    requires { AreSpotsAt chunks.now one }
    ensures { IfOk result (AreMetFor chunks.now one (length chunks.now)) }
{
    let mut met = Items::new(alloc);
    for other in 0..chunks.len() {
        met.push(meetings_from(alloc, chunks, one, other)?)?;
    }
    Ok(met)
}
