//! The layouts of a module's coroutines.

ghost use Rattle.std.specs.Prelude.{◌≡◌};
ghost use Rattle.frame_contents.specs.Frames.{AreLayouts, IfKnown, IsLayout, IsPushed};
ghost use Rattle.frame_contents.specs.declared.module_frames.LayoutsError.TheVariants.{OutOfMemory};

use crate::frames::{CoroutineFrame, frame_of};
use frame_layout::{Layout, LayoutError, Layouts};
use ir_base::{FuncId, Items};
use ir_model::{Function, Module};
use ir_sizes::Sizes;
use ir_tables::Names;
use std::alloc::{AllocError, Global};
use thiserror::Error;

/// Why a module's coroutines have no layouts.
#[derive(Clone, Copy, Debug, PartialEq, Eq, Error)]
pub enum LayoutsError {
    /// The plain layout of this coroutine ends above 2^24.
    #[error("a frame is too large")]
    TooLarge(FuncId),
    /// Want of memory.
    #[error("out of memory")]
    OutOfMemory,
}

impl From<AllocError> for LayoutsError {
    ghost from_gives = { λ _ e. e ≡ OutOfMemory };

    fn from(_e: AllocError) -> LayoutsError {
        LayoutsError::OutOfMemory
    }
}

/// The layout of one coroutine.
fn layout_of(
    alloc: Global,
    sizes: &Sizes<'_>,
    func: FuncId,
    function: &Function,
    share: bool,
) -> Result<Layout, LayoutError>
    ensures { IfKnown (IsLayout sizes.now.names.now.source.now share func function.now) result }
{
    let frame = frame_of(alloc, sizes, func, function, share)?;
    let CoroutineFrame { layout, .. } = frame;
    Ok(layout)
}

/// Adds the layout of a function, if it is a coroutine.
fn push_layout(
    alloc: Global,
    sizes: &Sizes<'_>,
    func: FuncId,
    function: &Function,
    share: bool,
    all: &mut Items<Layout>,
) -> Result<(), LayoutsError>
    ensures { IsPushed sizes.now.names.now.source.now share func function.now all.old all.new result }
{
    if !function.coroutine {
        return Ok(());
    }
    match layout_of(alloc, sizes, func, function, share) {
        Err(LayoutError::FrameTooLarge) => Err(LayoutsError::TooLarge(func)),
        Err(LayoutError::OutOfMemory) => Err(LayoutsError::OutOfMemory),
        Ok(layout) => match all.push(layout) {
            Ok(()) => Ok(()),
            Err(_) => Err(LayoutsError::OutOfMemory),
        },
    }
}

fn all_layouts(
    alloc: Global,
    sizes: &Sizes<'_>,
    functions: &[Function],
    share: bool,
) -> Result<Layouts, LayoutsError>
    requires { functions.now ≡ sizes.now.names.now.source.now.functions }
    ensures { AreLayouts sizes.now.names.now.source.now share result }
{
    let mut coroutines = Items::new(alloc);
    for func in 0..functions.len() {
        let pushed = push_layout(alloc, sizes, func, &functions[func], share, &mut coroutines);
        if let Err(error) = pushed {
            return Err(error);
        }
    }
    Ok(Layouts { coroutines })
}

/// The layouts of a module's coroutines, in order of the text: with `share` those in which fields share bytes, else the plain
/// ones.
///
/// The frame of a coroutine is too large where its plain layout ends above 2^24; the first such one is told.
pub fn layouts_of(alloc: Global, source: &Module, share: bool) -> Result<Layouts, LayoutsError>
    ensures { AreLayouts source.now share result }
{
    let names = Names::new(alloc, source)?;
    let sizes = Sizes::new(alloc, &names)?;
    all_layouts(alloc, &sizes, source.functions.as_slice(), share)
}
