//! The frames of coroutines.

ghost use Rattle.std.specs.Prelude.{◌≡◌, IfOk};
ghost use Rattle.frame_contents.specs.Frames.{ArePositions, IfKnown, IsFrameOf, IsLaid, IsSharedBy};
ghost use Rattle.ir_paths.specs.Slots.{allocas_of as allocas_of_function};
ghost use Rattle.frame_conflicts.specs.frame_classes.Classes.{AreClasses};

use crate::fields::fields_of;
use crate::held::{Holding, held_of};
use crate::positions::{at_fields, both_at_fields, field_positions, positions_of, slot_positions};
use frame_conflicts::frame_classes_library::{SlotClass, classes};
use frame_conflicts::{alive_by, parts_by};
use frame_crossing::crossing;
use frame_crossing::rule_shape_library::allocas_of;
use frame_layout::{Field, Layout, LayoutError, lay_out_by, lay_out_plain};
use ir_base::{FuncId, Items, SuspendId, ValueId};
use ir_model::Function;
use ir_sizes::Sizes;
use std::alloc::{AllocError, Global};

/// The frame of a coroutine: what its fields keep, in order of the text; for each name of the function the position of its
/// field, where it has one; and the layout. The field behind those of what is held is the index.
#[derive(Drop)]
pub struct CoroutineFrame {
    pub held: Items<Holding>,
    pub positions: Items<Option<usize>>,
    pub layout: Layout,
}

/// The layout of these fields, in which bytes are shared. The pairs of fields that conflict aren't made.
fn laid_shared(
    alloc: Global,
    func: FuncId,
    function: &Function,
    allocas: &[ValueId],
    classes: Items<SlotClass>,
    fields: &[Field],
    positions: &[Option<usize>],
    crossing: &[(ValueId, SuspendId)],
) -> Result<Layout, LayoutError>
    requires { AreClasses function.now classes }
    ensures { IfKnown (IsSharedBy function.now func allocas.now fields.now positions.now crossing.now) result }
{
    let slots = slot_positions(alloc, positions, allocas)?;
    let alive = alive_by(alloc, function, &classes)?;
    let parts = parts_by(alloc, function, classes)?;
    let crossing = at_fields(alloc, positions, crossing)?;
    let alive = at_fields(alloc, slots.as_slice(), alive.as_slice())?;
    let frame = field_positions(alloc, slots.as_slice(), parts.frame.as_slice())?;
    let wide = field_positions(alloc, slots.as_slice(), parts.wide.as_slice())?;
    let narrow = both_at_fields(alloc, slots.as_slice(), parts.narrow.as_slice())?;
    lay_out_by(
        alloc,
        func,
        fields,
        crossing.as_slice(),
        alive.as_slice(),
        frame.as_slice(),
        wide.as_slice(),
        narrow.as_slice(),
    )
}

/// The layout of these fields, in which bytes are shared, or the plain one.
fn laid(
    alloc: Global,
    func: FuncId,
    function: &Function,
    share: bool,
    allocas: &[ValueId],
    classes: Items<SlotClass>,
    held: &[Holding],
    positions: &[Option<usize>],
    crossing: &[(ValueId, SuspendId)],
) -> Result<Layout, LayoutError>
    requires allocas { allocas.now ≡ allocas_of_function function.now }
    requires classes { AreClasses function.now classes }
    requires positions { ArePositions held.now positions.now }
    ensures { IfKnown (IsLaid share function.now func held.now crossing.now) result }
{
    let fields = fields_of(alloc, function, held)?;
    if share {
        laid_shared(
            alloc,
            func,
            function,
            allocas,
            classes,
            fields.as_slice(),
            positions,
            crossing,
        )
    } else {
        lay_out_plain(alloc, func, &fields)
    }
}

/// The frame of a coroutine. It holds the promise, the values that cross suspends and the frame slots; with `share` fields that
/// don't conflict may share bytes, else the layout is the plain one. For a plain layout no conflicts are asked for.
///
/// The frame is too large exactly where the plain layout ends above 2^24.
pub fn frame_of(
    alloc: Global,
    sizes: &Sizes<'_>,
    func: FuncId,
    function: &Function,
    share: bool,
) -> Result<CoroutineFrame, LayoutError>
    ensures { IsFrameOf sizes.now.names.now.source.now share func function.now result }
{
    let crossing = crossing(alloc, function)?;
    let classes = classes(alloc, function)?;
    let allocas = allocas_of(alloc, function)?;
    let held = held_of(
        alloc,
        sizes,
        function,
        allocas.as_slice(),
        classes.as_slice(),
        crossing.as_slice(),
    )?;
    let positions = positions_of(alloc, function.names.len(), held.as_slice())?;
    let layout = laid(
        alloc,
        func,
        function,
        share,
        allocas.as_slice(),
        classes,
        held.as_slice(),
        positions.as_slice(),
        crossing.as_slice(),
    )?;
    Ok(CoroutineFrame {
        held,
        positions,
        layout,
    })
}
