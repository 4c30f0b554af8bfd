//! The pass over the module.

ghost use Rattle.std.specs.Prelude.{◌≡◌, IfOk, unwrap_or};
ghost use Rattle.ir_model.specs.Calls.{first_result};
ghost use Rattle.ir_model.specs.declared.operand.Intrinsic.{Intrinsic as TheIntrinsic};
ghost use Rattle.pass_elide.specs.Elided.{coroutine_frame, elided_function as elided_by, elided_functions};
ghost use Rattle.pass_elide.specs.Elided.{elided_module, frame_in};
ghost use Rattle.pass_elide.specs.Frames.{layout_of, site_frame};

use crate::elided::elided_function;
use crate::fields::FieldFrames;
use crate::sites::SiteFrames;
use crate::tables::Tables;
use frame_layout::Layouts;
use ir_base::{Data, FuncId, Items, Place};
use ir_model::{Function, Intrinsic, Module};
use pass_intrinsics::later;
use std::alloc::{AllocError, Global};

/// A coroutine, by the fields of its frame.
fn elided_coroutine(
    alloc: Global,
    tables: &Tables,
    func: FuncId,
    function: &Function,
) -> Result<Function, AllocError>
    ensures { IfOk result (λ f. f ≡ elided_by
        (coroutine_frame (layout_of tables.now.layouts.now func) function.now) function.now) }
{
    let begin = function.first_result(Intrinsic::CoroBegin).unwrap_or(0);
    let frames = FieldFrames::new(alloc, &function.names, begin, tables.layout(func))?;
    elided_function(alloc, &frames, function)
}

/// A function that is no coroutine, by the sites in it.
fn elided_plain(
    alloc: Global,
    tables: &Tables,
    func: FuncId,
    function: &Function,
) -> Result<Function, AllocError>
    ensures { IfOk result (λ f. f ≡ elided_by
        (site_frame tables.now.names.source.now tables.now.layouts.now tables.now.sites.now func) function.now) }
{
    elided_function(alloc, &SiteFrames { tables, func }, function)
}

fn elided_at(
    alloc: Global,
    tables: &Tables,
    func: FuncId,
    function: &Function,
) -> Result<Function, AllocError>
    ensures { IfOk result (λ f. f ≡ elided_by
        (frame_in tables.now.names.source.now tables.now.layouts.now tables.now.sites.now func function.now)
        function.now) }
{
    if function.coroutine {
        elided_coroutine(alloc, tables, func, function)
    } else {
        elided_plain(alloc, tables, func, function)
    }
}

fn elided_functions(
    alloc: Global,
    tables: &Tables,
    functions: &[Function],
) -> Result<Items<Function>, AllocError>
    ensures { IfOk result (λ x. x ≡ elided_functions
        tables.now.names.source.now tables.now.layouts.now tables.now.sites.now 0 functions.now) }
{
    let mut all = Items::new(alloc);
    let mut func = 0;
    for function in functions {
        all.push(elided_at(alloc, tables, func, function)?)?;
        func = later(func, 1)?;
    }
    Ok(all)
}

/// The framed module whose calls at the sites, and those that have a field in their coroutine's frame, give their
/// callees a frame. Such a call of `g` becomes one of `g.noalloc`, with the frame's address as one more last argument.
/// At a site that is an alloca in front of the entry block. In a coroutine it is made of begin's value, right before
/// the call.
pub fn elide(
    alloc: Global,
    framed: &Module,
    layouts: &Layouts,
    sites: &[Place],
) -> Result<Module, AllocError>
    ensures { IfOk result (λ m. m ≡ elided_module layouts.now sites.now framed.now) }
{
    let tables = Tables::new(alloc, framed, &layouts.coroutines, sites)?;
    Ok(Module {
        types: framed.types.copied(alloc)?,
        globals: framed.globals.copied(alloc)?,
        declarations: framed.declarations.copied(alloc)?,
        functions: elided_functions(alloc, &tables, framed.functions.as_slice())?,
    })
}
