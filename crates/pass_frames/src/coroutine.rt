//! The framed form of a coroutine.

ghost use Rattle.std.specs.Prelude.{◌≡◌, ◌∷◌, IfOk, length};
ghost use Rattle.pass_edges.specs.EdgeBlocks.{with_edge_blocks as with_edge_blocks_of};
ghost use Rattle.frame_contents.specs.Frames.{AreContents};
ghost use Rattle.pass_frames.specs.Framed.{IsFramedCoroutine, begin_block as begin_block_of, begin_of, celled, copied, placed};
ghost use Rattle.pass_frames.specs.Tables.{label_flags as label_flags_of};

use crate::before::{begin_block, blocks_before};
use crate::offsets::offsets_of;
use crate::tables::{class_flags, label_flags, sizes_by_name};
use frame_contents::frame_classes_library::SlotClass;
use frame_contents::{Contents, contents_of};
use frame_layout::Layout;
use ir_base::{BlockId, Items, ValueId};
use ir_model::{Function, Intrinsic};
use pass_addresses::with_frame_addresses;
use pass_cells::with_cells;
use pass_copies::with_begin_copies;
use pass_distances::Types;
use pass_edges::with_edge_blocks;
use pass_front::with_front_allocas;
use std::alloc::{AllocError, Global};

fn begin_of(function: &Function) -> ValueId
    ensures { result ≡ begin_of function.now }
{
    match function.first_result(Intrinsic::CoroBegin) {
        None => 0,
        Some(id) => id,
    }
}

/// Blocks on edges, and the values that cross suspends in cells and fields.
fn celled(
    alloc: Global,
    types: &Types<'_>,
    function: &Function,
    edged: &Function,
    contents: &Contents,
) -> Result<Function, AllocError>
    requires { edged.now ≡ with_edge_blocks_of function.now }
    ensures { IfOk result (λ g. g ≡ celled types.now.sizes.now.names.now.source.now function.now contents.now) }
{
    let local = class_flags(
        alloc,
        function,
        contents.classes.as_slice(),
        SlotClass::Local,
    )?;
    let crossing = contents.crossing.as_slice();
    with_cells(alloc, types, edged, crossing, local.as_slice())
}

/// The blocks before begin, with begin's own in front.
fn early_labels(
    alloc: Global,
    function: &Function,
    begin: BlockId,
    before: &[BlockId],
) -> Result<Items<bool>, AllocError>
    ensures { IfOk result (λ x. x ≡ label_flags_of function.now (begin ∷ before.now)) }
{
    let mut blocks = Vec::new(alloc);
    blocks.push(begin)?;
    blocks.extend_from_slice(before)?;
    label_flags(alloc, function, blocks.as_slice())
}

/// Slots that are used before begin are copied there.
fn copied(
    alloc: Global,
    function: &Function,
    contents: &Contents,
    celled: &Function,
    begin: BlockId,
    before: &[BlockId],
) -> Result<Function, AllocError>
    requires { begin ≡ begin_block_of celled.now }
    ensures { IfOk result (λ g. g ≡ copied function.now contents.now celled.now before.now) }
{
    let slots = class_flags(
        alloc,
        function,
        contents.classes.as_slice(),
        SlotClass::Frame,
    )?;
    let early = early_labels(alloc, celled, begin, before)?;
    let sizes = sizes_by_name(alloc, function, contents.held.as_slice())?;
    with_begin_copies(
        alloc,
        celled,
        slots.as_slice(),
        early.as_slice(),
        sizes.as_slice(),
    )
}

/// Slots become bytes of the frame.
fn placed(
    alloc: Global,
    layout: &Layout,
    function: &Function,
    base: ValueId,
    contents: &Contents,
    copied: &Function,
) -> Result<Function, AllocError>
    requires { base ≡ length (with_edge_blocks_of function.now).names }
    ensures { IfOk result (λ g. g ≡ placed layout.now function.now contents.now copied.now) }
{
    let offsets = offsets_of(alloc, layout, contents, base, copied.names.len())?;
    let marked = class_flags(
        alloc,
        function,
        contents.classes.as_slice(),
        SlotClass::Ramp,
    )?;
    let begin = begin_of(function);
    with_frame_addresses(alloc, copied, begin, offsets.as_slice(), marked.as_slice())
}

/// The framed form of a coroutine with these contents. The allocas of its entry block stand in front.
#[tactic(auto, using(crate::proofs::Told::framed_by))]
fn framed_with(
    alloc: Global,
    types: &Types<'_>,
    layout: &Layout,
    function: &Function,
    contents: &Contents,
) -> Result<Function, AllocError>
    requires { AreContents types.now.sizes.now.names.now.source.now function.now contents.now }
    ensures { IfOk result (λ g. IsFramedCoroutine types.now.sizes.now.names.now.source.now layout.now function.now g) }
{
    let edged = with_edge_blocks(alloc, function)?;
    let base = edged.names.len();
    let celled = celled(alloc, types, function, &edged, contents)?;
    let begin = begin_block(&celled)?;
    let before = blocks_before(alloc, &celled, begin)?;
    let copied = copied(alloc, function, contents, &celled, begin, before.as_slice())?;
    let laid = placed(alloc, layout, function, base, contents, &copied)?;
    with_front_allocas(alloc, laid)
}

/// The framed form of a coroutine.
pub fn framed_coroutine(
    alloc: Global,
    types: &Types<'_>,
    layout: &Layout,
    function: &Function,
) -> Result<Function, AllocError>
    ensures { IfOk result (λ g. IsFramedCoroutine types.now.sizes.now.names.now.source.now layout.now function.now g) }
{
    let contents = contents_of(alloc, types.sizes, function)?;
    framed_with(alloc, types, layout, function, &contents)
}
