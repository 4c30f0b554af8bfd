//! Tables by name: slots of a class, labels, and sizes.

ghost use Rattle.std.specs.Prelude.{◌≡◌, IfOk, OnOk, false, replicate, slice_get};
ghost use Rattle.ir_paths.specs.Slots.{allocas_of as allocas_of_function};
ghost use Rattle.pass_frames.specs.Tables.{class_flags, is_of, is_same_class, label_flags, sizes_by_name, with_label, with_labels, with_sizes, with_slot, with_slots};

use frame_contents::Holding;
use frame_contents::frame_classes_library::SlotClass;
use ir_base::{BlockId, Items, ValueId};
use ir_model::Function;
use ir_parts::next;
use rule_shape::allocas_of;
use std::alloc::{AllocError, Global};

fn is_same_class(a: SlotClass, b: SlotClass) -> bool
    ensures { result ≡ is_same_class a b }
{
    match a {
        SlotClass::Ramp => matches!(b, SlotClass::Ramp),
        SlotClass::Local => matches!(b, SlotClass::Local),
        SlotClass::Frame => matches!(b, SlotClass::Frame),
    }
}

/// Whether the class at a position is this one.
fn is_at(class: SlotClass, classes: &[SlotClass], k: usize) -> bool
    ensures { result ≡ is_of class (slice_get classes.now k) }
{
    match classes.get(k) {
        None => false,
        Some(found) => is_same_class(class, *found),
    }
}

fn set_slot(
    class: SlotClass,
    classes: &[SlotClass],
    k: usize,
    slot: ValueId,
    flags: &mut Items<bool>,
)
    ensures { flags.new ≡ with_slot class (slice_get classes.now k) slot flags.old }
{
    if is_at(class, classes, k) {
        flags.set(slot, true);
    }
}

fn set_slots(
    class: SlotClass,
    classes: &[SlotClass],
    allocas: &[ValueId],
    flags: &mut Items<bool>,
) -> Result<(), AllocError>
    ensures { OnOk result (flags.new ≡ with_slots class classes.now 0 allocas.now flags.old) }
{
    let mut k = 0;
    for slot in allocas {
        set_slot(class, classes, k, *slot, flags);
        k = next(k)?;
    }
    Ok(())
}

fn no_flags(alloc: Global, count: usize) -> Result<Items<bool>, AllocError>
    ensures { IfOk result (λ x. x ≡ replicate count false) }
{
    Ok(Items::from_vec(Vec::from_elem(alloc, false, count)?))
}

/// For each name whether it is an alloca of the class.
pub fn class_flags(
    alloc: Global,
    function: &Function,
    classes: &[SlotClass],
    class: SlotClass,
) -> Result<Items<bool>, AllocError>
    ensures { IfOk result (λ x. x ≡ class_flags function.now classes.now class) }
{
    let allocas = allocas_of(alloc, function)?;
    let mut flags = no_flags(alloc, function.names.len())?;
    set_slots(class, classes, allocas.as_slice(), &mut flags)?;
    Ok(flags)
}

fn set_label(function: &Function, block: BlockId, flags: &mut Items<bool>)
    ensures { flags.new ≡ with_label (slice_get function.now.blocks block) flags.old }
{
    match function.blocks.get(block) {
        None => (),
        Some(block) => flags.set(block.label, true),
    }
}

fn set_labels(function: &Function, blocks: &[BlockId], flags: &mut Items<bool>)
    ensures { flags.new ≡ with_labels function.now blocks.now flags.old }
{
    for block in blocks {
        set_label(function, *block, flags);
    }
}

/// For each name whether it is the label of one of these blocks.
pub fn label_flags(
    alloc: Global,
    function: &Function,
    blocks: &[BlockId],
) -> Result<Items<bool>, AllocError>
    ensures { IfOk result (λ x. x ≡ label_flags function.now blocks.now) }
{
    let mut flags = no_flags(alloc, function.names.len())?;
    set_labels(function, blocks, &mut flags);
    Ok(flags)
}

fn set_sizes(held: &[Holding], sizes: &mut Items<u64>)
    ensures { sizes.new ≡ with_sizes held.now sizes.old }
{
    for holding in held {
        sizes.set(holding.value, holding.size);
    }
}

/// For each name the bytes that its field takes.
pub fn sizes_by_name(
    alloc: Global,
    function: &Function,
    held: &[Holding],
) -> Result<Items<u64>, AllocError>
    ensures { IfOk result (λ x. x ≡ sizes_by_name function.now held.now) }
{
    let mut sizes = Items::from_vec(Vec::from_elem(alloc, 0, function.names.len())?);
    set_sizes(held, &mut sizes);
    Ok(sizes)
}
