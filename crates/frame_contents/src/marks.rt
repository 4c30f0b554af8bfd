//! Marks of names, and lists of them.

ghost use Rattle.std.specs.Prelude.{◌≡◌, ◌||◌, ◌==◌, ◌++◌, ◌∷◌, [], ℕ, IfOk, OnOk, false, get_or, if◌then◌else◌, slice_get};
ghost use Rattle.frame_contents.specs.Held.{crossing_values as values_of_pairs, frame_slots_from, is_frame as is_frame_class};
ghost use Rattle.ir_paths.specs.Slots.{has_name};

use frame_conflicts::frame_classes_library::SlotClass;
use ir_base::{SuspendId, ValueId};
use std::alloc::{AllocError, Global};

/// Marks a name. There is no room for one past the last.
fn mark(marks: &mut Vec<bool>, name: ValueId) -> Result<(), AllocError>
    ensures { OnOk result ((v : ℕ) → get_or marks.new.items v false ≡ (get_or marks.old.items v false || (name == v))) }
{
    if name >= marks.len() {
        return Err(AllocError);
    }
    marks[name] = true;
    Ok(())
}

/// Marks of these names, in a function with so many.
pub(crate) fn marks_of(
    alloc: Global,
    count: usize,
    names: &[ValueId],
) -> Result<Vec<bool>, AllocError>
    ensures { IfOk result (λ marks. (v : ℕ) → get_or marks.items v false ≡ has_name names.now v) }
{
    let mut marks = Vec::from_elem(alloc, false, count)?;
    for name in names {
        mark(&mut marks, *name)?;
    }
    Ok(marks)
}

/// Whether a name is marked.
pub(crate) fn is_marked(marks: &[bool], name: ValueId) -> bool
    ensures { result ≡ get_or marks.now name false }
{
    match marks.get(name) {
        None => false,
        Some(marked) => *marked,
    }
}

/// The values of a list of pairs.
pub(crate) fn crossing_values(
    alloc: Global,
    crossing: &[(ValueId, SuspendId)],
) -> Result<Vec<ValueId>, AllocError>
    ensures { IfOk result (λ values. values.items ≡ values_of_pairs crossing.now) }
{
    let mut values = Vec::new(alloc);
    for pair in crossing {
        values.push(pair.0)?;
    }
    Ok(values)
}

/// Whether the class at a position is that of frame slots.
fn is_frame_at(classes: &[SlotClass], k: usize) -> bool
    ensures { result ≡ is_frame_class (slice_get classes.now k) }
{
    match classes.get(k) {
        None => false,
        Some(SlotClass::Ramp) => false,
        Some(SlotClass::Local) => false,
        Some(SlotClass::Frame) => true,
    }
}

fn push_if(values: &mut Vec<ValueId>, kept: bool, value: ValueId) -> Result<(), AllocError>
    ensures { OnOk result (values.new.items ≡ values.old.items ++ (if kept then value ∷ [] else [])) }
{
    if kept {
        values.push(value)?;
    }
    Ok(())
}

/// The allocas of the class of frame slots.
pub(crate) fn frame_slots(
    alloc: Global,
    allocas: &[ValueId],
    classes: &[SlotClass],
) -> Result<Vec<ValueId>, AllocError>
    ensures { IfOk result (λ slots. slots.items ≡ frame_slots_from classes.now 0 allocas.now) }
{
    let mut slots = Vec::new(alloc);
    let mut k: usize = 0;
    for slot in allocas {
        push_if(&mut slots, is_frame_at(classes, k), *slot)?;
        match k.checked_add(1) {
            Some(next) => k = next,
            None => return Err(AllocError),
        }
    }
    Ok(slots)
}
