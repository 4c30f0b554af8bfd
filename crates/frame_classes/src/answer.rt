//! The classes of a function's slots.

ghost use Rattle.std.specs.Prelude.{◌≡◌, ◌<◌, ◌≤◌, ◌/◌, ◌||◌, ◌==◌, ℕ, [], IfOk, OnOk, length};
ghost use Rattle.frame_classes.specs.Answer.{AreFrameWords, AreNamed, HaveFrameWords, IsFrameWordOf, class_by as class_of_slot, classes_from, has_bit as has_bit_of, is_named as is_named_of};
ghost use Rattle.frame_classes.specs.Classes.{AreClasses};
ghost use Rattle.frame_classes.specs.Words.{IsPlanOf};

use crate::chunk::chunk_words;
use crate::class::SlotClass;
use crate::frame::frame_word;
use crate::plan::{Plan, plan_of};
use crate::rows::word_in;
use frame_slots::flow_facts_library::ramp_slots_of;
use frame_slots::{chunk_of, slots_of};
use ir_base::{Items, ValueId};
use ir_model::Function;
use ir_parts::next;
use std::alloc::{AllocError, Global};

// ---- sets of names

fn is_named(marks: &Items<bool>, name: ValueId) -> bool
    ensures { result ≡ is_named_of marks.now name }
{
    match marks.get(name) {
        None => false,
        Some(mark) => *mark,
    }
}

/// Marks a name. There is no room for one beyond the marks.
fn mark_name(marks: &mut Items<bool>, name: ValueId) -> Result<(), AllocError>
    ensures { OnOk result ((v : ℕ) → is_named_of marks.new v ≡ (is_named_of marks.old v || (name == v))) }
{
    if name >= marks.len() {
        return Err(AllocError);
    }
    marks.set(name, true);
    Ok(())
}

/// So many marks, none of them set.
fn no_marks(alloc: Global, count: usize) -> Result<Items<bool>, AllocError>
    ensures { IfOk result (λ marks. AreNamed [] marks) }
{
    Ok(Items::from_vec(vec![in alloc; false; count]?))
}

/// The marks of these names among so many.
fn name_marks(alloc: Global, count: usize, names: &[ValueId]) -> Result<Items<bool>, AllocError>
    ensures { IfOk result (λ marks. AreNamed names.now marks) }
{
    let mut marks = no_marks(alloc, count)?;
    for name in names {
        mark_name(&mut marks, *name)?;
    }
    Ok(marks)
}

// ---- words

/// Those of a chunk of at most 64 slots that need the frame.
fn chunk_word(
    alloc: Global,
    function: &Function,
    plan: &Plan,
    slots: &[ValueId],
) -> Result<u64, AllocError>
    requires count { length slots.now ≤ 64 }
    requires plan { IsPlanOf function.now plan.now }
    ensures { IfOk result (IsFrameWordOf function.now slots.now) }
{
    let chunk = chunk_words(alloc, function, plan, slots)?;
    frame_word(alloc, function, plan, &chunk)
}

/// How many chunks of 64 hold so many.
fn chunks_of(count: usize) -> usize
    ensures { (k : ℕ) → k < count → k / 64 < result }
{
    if count % 64 == 0 {
        count / 64
    } else {
        count / 64 + 1
    }
}

fn words_below(
    alloc: Global,
    function: &Function,
    plan: &Plan,
    slots: &[ValueId],
    chunks: usize,
) -> Result<Items<u64>, AllocError>
    requires { IsPlanOf function.now plan.now }
    ensures { IfOk result (HaveFrameWords function.now slots.now chunks) }
{
    let mut words = Items::new(alloc);
    for chunk in 0..chunks {
        words.push(chunk_word(alloc, function, plan, chunk_of(slots, chunk))?)?;
    }
    Ok(words)
}

/// For each chunk of 64 slots those that need the frame.
fn frame_words(
    alloc: Global,
    function: &Function,
    slots: &[ValueId],
) -> Result<Items<u64>, AllocError>
    ensures { IfOk result (AreFrameWords function.now slots.now) }
{
    let plan = plan_of(alloc, function)?;
    words_below(alloc, function, &plan, slots, chunks_of(slots.len()))
}

// ---- classes

fn has_bit(word: u64, bit: usize) -> bool
    requires { bit < 64 }
    ensures { result ≡ has_bit_of word bit }
{
    (word >> bit) & 1 == 1
}

fn class_by(is_ramp: bool, needs_frame: bool) -> SlotClass
    ensures { result ≡ class_of_slot is_ramp needs_frame }
{
    if is_ramp {
        SlotClass::Ramp
    } else if needs_frame {
        SlotClass::Frame
    } else {
        SlotClass::Local
    }
}

fn classes_of(
    alloc: Global,
    ramp: &Items<bool>,
    words: &[u64],
    slots: &[ValueId],
) -> Result<Items<SlotClass>, AllocError>
    ensures { IfOk result (λ all. all ≡ classes_from ramp.now words.now 0 slots.now) }
{
    let mut all = Items::new(alloc);
    let mut at = 0;
    for slot in slots {
        let needs_frame = has_bit(word_in(words, at / 64), at % 64);
        all.push(class_by(is_named(ramp, *slot), needs_frame))?;
        at = next(at)?;
    }
    Ok(all)
}

/// The classes of a function's allocas, in order of the text.
///
/// A ramp slot is an alloca that isn't the promise, doesn't escape, and is neither used nor marked behind a suspend. Another
/// one lives in the frame if it is the promise; if it is used in a window or after the end, and used behind a suspend; if on
/// one path stand a use, a resume or destroy edge and, without the end block between, a later use with no start between; or
/// if it escapes, and may be alive at a suspend that one of its uses reaches, or at any if one of its uses stands after the
/// end. Of a slot that escapes a start behind a suspend counts as a use, and no start parts its uses. All others are made
/// anew by each activation.
pub fn classes(alloc: Global, function: &Function) -> Result<Items<SlotClass>, AllocError>
    ensures { IfOk result (AreClasses function.now) }
{
    let slots = slots_of(alloc, function)?;
    let ramp = ramp_slots_of(alloc, function)?;
    let marks = name_marks(alloc, function.names.len(), ramp.as_slice())?;
    let words = frame_words(alloc, function, slots.as_slice())?;
    classes_of(alloc, &marks, words.as_slice(), slots.as_slice())
}
