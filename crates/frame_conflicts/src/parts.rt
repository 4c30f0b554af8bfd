//! The frame slots that conflict, without their pairs.

ghost use Rattle.std.specs.Prelude.{◌≡◌, ◌<◌, ◌≤◌, ◌+◌, ◌*◌, ◌/◌, ◌↔◌, ◌++◌, IfOk, IsTrue, OnOk, length, min};
ghost use Rattle.frame_conflicts.specs.Known.{AreMetFor, IsFrameAt, IsKnown, is_loose_at};
ghost use Rattle.frame_conflicts.specs.Pairs.{AreThePairs, AreUpTo};
ghost use Rattle.frame_conflicts.specs.Parts.{AreJust, ArePartsOf, IsWideAt, NarrowAt, number_if};
ghost use Rattle.frame_classes.specs.Classes.{AreClasses};

use crate::answer::{is_conflict, is_loose, loose_at};
use crate::bits::{chunk_end, chunks_of};
use crate::facts::{Known, is_frame, known_of};
use crate::meeting::all_meetings;
use crate::pairs::push_if;
use frame_classes::SlotClass;
use ir_base::Items;
use ir_model::Function;
use std::alloc::{AllocError, Global};

/// The frame slots of a function by their positions among its allocas: all of them in `frame`; in `wide` those that conflict with
/// all others, because they lack lifetime markers or are used before begin; and in `narrow` the pairs of the rest that conflict.
#[derive(Drop)]
pub struct SlotParts {
    pub frame: Items<usize>,
    pub wide: Items<usize>,
    pub narrow: Items<(usize, usize)>,
}

// ---- lists of slots

fn push_number(all: &mut Items<usize>, holds: bool, at: usize) -> Result<(), AllocError>
    ensures { OnOk result (all.new ≡ all.old ++ number_if holds at) }
{
    if holds {
        all.push(at)?;
    }
    Ok(())
}

fn frame_slots(
    alloc: Global,
    function: &Function,
    known: &Known,
) -> Result<Items<usize>, AllocError>
    requires { IsKnown function.now known.now }
    ensures { IfOk result (λ all. AreJust (IsFrameAt function.now) all) }
{
    let mut all = Items::new(alloc);
    for at in 0..known.count {
        let holds = is_frame(function, &known.classes, at);
        push_number(&mut all, holds, at)?;
    }
    Ok(all)
}

/// Whether the slot of a position conflicts with all frame slots.
fn is_wide(function: &Function, known: &Known, at: usize) -> bool
    requires { IsKnown function.now known.now }
    ensures { IsTrue result ↔ IsWideAt function.now at }
{
    if is_frame(function, &known.classes, at) {
        !is_loose(known, at)
    } else {
        false
    }
}

fn wide_slots(alloc: Global, function: &Function, known: &Known) -> Result<Items<usize>, AllocError>
    requires { IsKnown function.now known.now }
    ensures { IfOk result (λ all. AreJust (IsWideAt function.now) all) }
{
    let mut all = Items::new(alloc);
    for at in 0..known.count {
        let holds = is_wide(function, known, at);
        push_number(&mut all, holds, at)?;
    }
    Ok(all)
}

// ---- pairs of other slots

/// Whether a slot that isn't wide conflicts with the slot of a position behind it, which isn't wide either.
fn is_narrow(
    function: &Function,
    known: &Known,
    met: &Items<Items<u64>>,
    one: usize,
    other: usize,
) -> bool
    requires known { IsKnown function.now known.now }
    requires met { AreMetFor known.now.chunks (one / 64) (length known.now.chunks) met.now }
    requires frame { IsFrameAt function.now one }
    requires loose { IsTrue (is_loose_at known.now.chunks one) }
    requires order { one < other }
    ensures { IsTrue result ↔ NarrowAt function.now one other }
{
    if is_loose(known, other) {
        is_conflict(function, known, met, one, other)
    } else {
        false
    }
}

/// Adds the pairs of a slot with those behind it.
fn push_row(
    function: &Function,
    known: &Known,
    met: &Items<Items<u64>>,
    one: usize,
    pairs: &mut Items<(usize, usize)>,
) -> Result<(), AllocError>
    requires known { IsKnown function.now known.now }
    requires met { AreMetFor known.now.chunks (one / 64) (length known.now.chunks) met.now }
    requires frame { IsFrameAt function.now one }
    requires loose { IsTrue (is_loose_at known.now.chunks one) }
    requires within { one < known.now.count }
    requires pairs { AreUpTo (NarrowAt function.now) one 0 pairs.old }
    ensures { OnOk result (AreUpTo (NarrowAt function.now) (one + 1) 0 pairs.new) }
{
    let count = known.count;
    for other in one + 1..count {
        let holds = is_narrow(function, known, met, one, other);
        push_if(pairs, holds, one, other)?;
    }
    Ok(())
}

/// The same for any slot.
fn push_slot(
    function: &Function,
    known: &Known,
    met: &Items<Items<u64>>,
    one: usize,
    pairs: &mut Items<(usize, usize)>,
) -> Result<(), AllocError>
    requires known { IsKnown function.now known.now }
    requires met { AreMetFor known.now.chunks (one / 64) (length known.now.chunks) met.now }
    requires within { one < known.now.count }
    requires pairs { AreUpTo (NarrowAt function.now) one 0 pairs.old }
    ensures { OnOk result (AreUpTo (NarrowAt function.now) (one + 1) 0 pairs.new) }
{
    if is_loose(known, one) {
        if is_frame(function, &known.classes, one) {
            push_row(function, known, met, one, pairs)?;
        }
    }
    Ok(())
}

/// The same for the slots of a chunk.
fn push_slots(
    alloc: Global,
    function: &Function,
    known: &Known,
    chunk: usize,
    pairs: &mut Items<(usize, usize)>,
) -> Result<(), AllocError>
    requires known { IsKnown function.now known.now }
    requires chunk { chunk * 64 < known.now.count }
    requires pairs { AreUpTo (NarrowAt function.now) (chunk * 64) 0 pairs.old }
    ensures { OnOk result (AreUpTo (NarrowAt function.now) (min (chunk * 64 + 64) known.now.count) 0 pairs.new) }
{
    let count = known.count;
    let start = chunk * 64;
    let met = all_meetings(alloc, &known.chunks, chunk)?;
    for one in start..chunk_end(count, start) {
        push_slot(function, known, &met, one, pairs)?;
    }
    Ok(())
}

/// The same; a chunk of wide slots isn't looked at.
fn push_chunk(
    alloc: Global,
    function: &Function,
    known: &Known,
    chunk: usize,
    pairs: &mut Items<(usize, usize)>,
) -> Result<(), AllocError>
    requires known { IsKnown function.now known.now }
    requires chunk { chunk * 64 < known.now.count }
    requires pairs { AreUpTo (NarrowAt function.now) (chunk * 64) 0 pairs.old }
    ensures { OnOk result (AreUpTo (NarrowAt function.now) (min (chunk * 64 + 64) known.now.count) 0 pairs.new) }
{
    if loose_at(&known.chunks, chunk) == 0 {
        return Ok(());
    }
    push_slots(alloc, function, known, chunk, pairs)
}

fn narrow_pairs(
    alloc: Global,
    function: &Function,
    known: &Known,
) -> Result<Items<(usize, usize)>, AllocError>
    requires { IsKnown function.now known.now }
    ensures { IfOk result (λ pairs. AreThePairs (NarrowAt function.now) pairs) }
{
    let mut pairs = Items::new(alloc);
    for chunk in 0..chunks_of(known.count) {
        push_chunk(alloc, function, known, chunk, &mut pairs)?;
    }
    Ok(pairs)
}

/// What `conflicts_by` gives, without the pairs of the slots that conflict with all others.
pub fn parts_by(
    alloc: Global,
    function: &Function,
    classes: Items<SlotClass>,
) -> Result<SlotParts, AllocError>
    requires { AreClasses function.now classes }
    ensures { IfOk result (ArePartsOf function.now) }
{
    let known = known_of(alloc, function, classes)?;
    let frame = frame_slots(alloc, function, &known)?;
    let wide = wide_slots(alloc, function, &known)?;
    let narrow = narrow_pairs(alloc, function, &known)?;
    Ok(SlotParts {
        frame,
        wide,
        narrow,
    })
}
