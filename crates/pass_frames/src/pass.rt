//! The framed form of a module.

ghost use Rattle.std.specs.Prelude.{◌≡◌, IfOk};
ghost use Rattle.pass_frames.specs.Framed.{AllFramed, IsFramedCoroutine, IsFramedForm, IsPushed, layout_at};

use crate::coroutine::framed_coroutine;
use frame_layout::{Layout, Layouts, index_alone};
use ir_base::{Data, Items};
use ir_model::{Function, Module};
use ir_parts::next;
use ir_sizes::Sizes;
use ir_tables::Names;
use pass_distances::Types;
use std::alloc::{AllocError, Global};

/// The framed form of a coroutine by the layout of a number.
fn framed_at(
    alloc: Global,
    types: &Types<'_>,
    layouts: &[Layout],
    taken: usize,
    function: &Function,
) -> Result<Function, AllocError>
    ensures { IfOk result (λ g. IsFramedCoroutine types.now.sizes.now.names.now.source.now (layout_at layouts.now taken) function.now g) }
{
    match layouts.get(taken) {
        Some(layout) => framed_coroutine(alloc, types, layout, function),
        None => {
            let layout = index_alone(alloc, 0, 0)?;
            framed_coroutine(alloc, types, &layout, function)
        }
    }
}

/// Adds the framed form of a coroutine, or another function as it is, and gives how many layouts are taken.
#[tactic(auto, using(crate::proofs::Told::pushed_as_it_is, crate::proofs::Told::pushed_framed))]
fn push_framed(
    alloc: Global,
    types: &Types<'_>,
    layouts: &[Layout],
    taken: usize,
    function: &Function,
    all: &mut Items<Function>,
) -> Result<usize, AllocError>
    ensures { IfOk result (λ after. IsPushed types.now.sizes.now.names.now.source.now layouts.now taken after function.now all.old all.new) }
{
    if function.coroutine {
        let framed = framed_at(alloc, types, layouts, taken, function)?;
        all.push(framed)?;
        return next(taken);
    }
    all.push(function.copied(alloc)?)?;
    Ok(taken)
}

fn framed_functions(
    alloc: Global,
    types: &Types<'_>,
    functions: &[Function],
    layouts: &[Layout],
) -> Result<Items<Function>, AllocError>
    requires { functions.now ≡ types.now.sizes.now.names.now.source.now.functions }
    ensures { IfOk result (λ all. AllFramed types.now.sizes.now.names.now.source.now layouts.now all) }
{
    let mut all = Items::new(alloc);
    let mut taken = 0;
    for function in functions {
        taken = push_framed(alloc, types, layouts, taken, function, &mut all)?;
    }
    Ok(all)
}

/// The framed form of a module: each coroutine keeps what crosses its suspends in its frame, which has its layout of these;
/// they are in order of the coroutines. All else is handed on.
pub fn frame_up(alloc: Global, source: &Module, layouts: &Layouts) -> Result<Module, AllocError>
    ensures { IfOk result (λ framed. IsFramedForm layouts.now source.now framed) }
{
    let names = Names::new(alloc, source)?;
    let sizes = Sizes::new(alloc, &names)?;
    let types = Types::new(alloc, &sizes)?;
    let layouts = layouts.coroutines.as_slice();
    let functions = framed_functions(alloc, &types, source.functions.as_slice(), layouts)?;
    Ok(Module {
        types: source.types.copied(alloc)?,
        globals: source.globals.copied(alloc)?,
        declarations: source.declarations.copied(alloc)?,
        functions,
    })
}
