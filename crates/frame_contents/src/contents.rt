//! What the frames of coroutines hold, without their layouts.

ghost use Rattle.std.specs.Prelude.{IfOk};
ghost use Rattle.frame_contents.specs.Frames.{AreContents};

use crate::held::{Holding, held_of};
use crate::positions::positions_of;
use frame_conflicts::frame_classes_library::{SlotClass, classes};
use frame_crossing::crossing;
use frame_crossing::rule_shape_library::allocas_of;
use ir_base::{Items, SuspendId, ValueId};
use ir_model::Function;
use ir_sizes::Sizes;
use std::alloc::{AllocError, Global};

/// What the frame of a coroutine holds: the values that cross suspends, with these; the class of each alloca, in order of the
/// text; what the fields keep, in order of the text; and for each name of the function the position of its field, where it
/// has one.
#[derive(Drop)]
pub struct Contents {
    pub crossing: Items<(ValueId, SuspendId)>,
    pub classes: Items<SlotClass>,
    pub held: Items<Holding>,
    pub positions: Items<Option<usize>>,
}

/// What the frame of a coroutine holds.
pub fn contents_of(
    alloc: Global,
    sizes: &Sizes<'_>,
    function: &Function,
) -> Result<Contents, AllocError>
    ensures { IfOk result (λ c. AreContents sizes.now.names.now.source.now function.now c) }
{
    let crossing = crossing(alloc, function)?;
    let classes = classes(alloc, function)?;
    let allocas = allocas_of(alloc, function)?;
    let held = held_of(
        alloc,
        sizes,
        function,
        allocas.as_slice(),
        classes.as_slice(),
        crossing.as_slice(),
    )?;
    let positions = positions_of(alloc, function.names.len(), held.as_slice())?;
    Ok(Contents {
        crossing,
        classes,
        held,
        positions,
    })
}
