//! The answers.

ghost use Rattle.std.specs.Prelude.{◌≡◌, ◌<◌, ◌≤◌, ◌+◌, ◌*◌, ◌/◌, ◌↔◌, IfOk, IsTrue, OnOk, length, min};
ghost use Rattle.frame_conflicts.specs.Conflicts.{AliveAt, AreAliveAt, AreConflicts, ConflictAt};
ghost use Rattle.frame_conflicts.specs.Known.{AreMetFor, IsFrameAt, IsKnown, are_apart as are_apart_by, have_met_at, is_loose_at, loose_at as loose_of_chunk};
ghost use Rattle.frame_conflicts.specs.Pairs.{AreUpTo};
ghost use Rattle.frame_classes.specs.Classes.{AreClasses};

use crate::bits::{chunk_end, chunks_of, has_bit, word_at};
use crate::facts::{Chunk, Known, is_frame, known_of};
use crate::meeting::all_meetings;
use crate::pairs::push_if;
use crate::suspended::{push_chunk as push_alive, suspended_of};
use frame_classes::frame_slots_library::slots_of;
use frame_classes::{SlotClass, classes};
use ir_base::Items;
use ir_model::Function;
use std::alloc::{AllocError, Global};

// ---- conflicts

/// The slots of a chunk that have markers and aren't used before begin.
pub(crate) fn loose_at(chunks: &Items<Chunk>, at: usize) -> u64
    ensures { result ≡ loose_of_chunk chunks.now at }
{
    match chunks.get(at) {
        None => 0,
        Some(chunk) => chunk.loose,
    }
}

/// Whether the slot of a position has markers and isn't used before begin.
pub(crate) fn is_loose(known: &Known, at: usize) -> bool
    ensures { result ≡ is_loose_at known.now.chunks at }
{
    has_bit(loose_at(&known.chunks, at / 64), at % 64)
}

/// Whether the slots of two positions are alive together at a point looked at.
fn have_met(met: &Items<Items<u64>>, one: usize, other: usize) -> bool
    ensures { result ≡ have_met_at met.now one other }
{
    match met.get(other / 64) {
        None => false,
        Some(words) => has_bit(word_at(words.as_slice(), one % 64), other % 64),
    }
}

/// Whether the slots of two positions lack markers, are used before begin, or are alive together.
fn are_apart(known: &Known, met: &Items<Items<u64>>, one: usize, other: usize) -> bool
    ensures { result ≡ are_apart_by known.now.chunks met.now one other }
{
    !is_loose(known, one) || !is_loose(known, other) || have_met(met, one, other)
}

/// Whether a frame slot conflicts with the slot of a position behind it.
pub(crate) fn is_conflict(
    function: &Function,
    known: &Known,
    met: &Items<Items<u64>>,
    one: usize,
    other: usize,
) -> bool
    requires known { IsKnown function.now known.now }
    requires met { AreMetFor known.now.chunks (one / 64) (length known.now.chunks) met.now }
    requires frame { IsFrameAt function.now one }
    requires order { one < other }
    ensures { IsTrue result ↔ ConflictAt function.now one other }
{
    if is_frame(function, &known.classes, other) {
        are_apart(known, met, one, other)
    } else {
        false
    }
}

/// Adds the pairs of a frame slot with those behind it.
fn push_row(
    function: &Function,
    known: &Known,
    met: &Items<Items<u64>>,
    one: usize,
    pairs: &mut Items<(usize, usize)>,
) -> Result<(), AllocError>
    requires known { IsKnown function.now known.now }
    requires met { AreMetFor known.now.chunks (one / 64) (length known.now.chunks) met.now }
    requires frame { IsFrameAt function.now one }
    requires within { one < known.now.count }
    requires pairs { AreUpTo (ConflictAt function.now) one 0 pairs.old }
    ensures { OnOk result (AreUpTo (ConflictAt function.now) (one + 1) 0 pairs.new) }
{
    let count = known.count;
    for other in one + 1..count {
        let holds = is_conflict(function, known, met, one, other);
        push_if(pairs, holds, one, other)?;
    }
    Ok(())
}

/// The same for any slot.
fn push_slot(
    function: &Function,
    known: &Known,
    met: &Items<Items<u64>>,
    one: usize,
    pairs: &mut Items<(usize, usize)>,
) -> Result<(), AllocError>
    requires known { IsKnown function.now known.now }
    requires met { AreMetFor known.now.chunks (one / 64) (length known.now.chunks) met.now }
    requires within { one < known.now.count }
    requires pairs { AreUpTo (ConflictAt function.now) one 0 pairs.old }
    ensures { OnOk result (AreUpTo (ConflictAt function.now) (one + 1) 0 pairs.new) }
{
    if is_frame(function, &known.classes, one) {
        push_row(function, known, met, one, pairs)?;
    }
    Ok(())
}

/// The same for the slots of a chunk.
fn push_chunk(
    alloc: Global,
    function: &Function,
    known: &Known,
    chunk: usize,
    pairs: &mut Items<(usize, usize)>,
) -> Result<(), AllocError>
    requires known { IsKnown function.now known.now }
    requires chunk { chunk * 64 < known.now.count }
    requires pairs { AreUpTo (ConflictAt function.now) (chunk * 64) 0 pairs.old }
    ensures { OnOk result (AreUpTo (ConflictAt function.now) (min (chunk * 64 + 64) known.now.count) 0 pairs.new) }
{
    let count = known.count;
    let start = chunk * 64;
    let met = all_meetings(alloc, &known.chunks, chunk)?;
    for one in start..chunk_end(count, start) {
        push_slot(function, known, &met, one, pairs)?;
    }
    Ok(())
}

/// What `conflicts` gives, by the classes of the slots.
pub fn conflicts_by(
    alloc: Global,
    function: &Function,
    classes: Items<SlotClass>,
) -> Result<Items<(usize, usize)>, AllocError>
    requires { AreClasses function.now classes }
    ensures { IfOk result (AreConflicts function.now) }
{
    let known = known_of(alloc, function, classes)?;
    let mut pairs = Items::new(alloc);
    for chunk in 0..chunks_of(known.count) {
        push_chunk(alloc, function, &known, chunk, &mut pairs)?;
    }
    Ok(pairs)
}

/// The pairs of frame slots that may not share bytes, by their positions among the function's allocas, the lower one first, in
/// order: two share none unless both have lifetime markers, neither is used before begin, and at no point outside the end
/// block and all blocks that it reaches both may be alive (LLVM Language Reference, "llvm.lifetime.start").
pub fn conflicts(alloc: Global, function: &Function) -> Result<Items<(usize, usize)>, AllocError>
    ensures { IfOk result (AreConflicts function.now) }
{
    let found = classes(alloc, function)?;
    conflicts_by(alloc, function, found)
}

// ---- slots alive at suspends

/// What `alive_at` gives, by the classes of the slots.
pub fn alive_by(
    alloc: Global,
    function: &Function,
    classes: &Items<SlotClass>,
) -> Result<Items<(usize, usize)>, AllocError>
    requires { AreClasses function.now classes.now }
    ensures { IfOk result (AreAliveAt function.now) }
{
    let slots = slots_of(alloc, function)?;
    let known = suspended_of(alloc, function)?;
    let mut pairs = Items::new(alloc);
    for chunk in 0..chunks_of(slots.len()) {
        push_alive(
            alloc,
            function,
            &known,
            classes,
            slots.as_slice(),
            chunk,
            &mut pairs,
        )?;
    }
    Ok(pairs)
}

/// The frame slots that may be alive at suspends, each with these: a slot by its position among the function's allocas, a
/// suspend by its number in order of the text, in order. A slot may be alive at a point where a path leads there from begin,
/// for a slot without lifetime markers, or from a start of it without an end of it between.
pub fn alive_at(alloc: Global, function: &Function) -> Result<Items<(usize, usize)>, AllocError>
    ensures { IfOk result (AreAliveAt function.now) }
{
    let found = classes(alloc, function)?;
    alive_by(alloc, function, &found)
}
