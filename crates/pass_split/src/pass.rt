//! The pass over the module.

ghost use Rattle.std.specs.Prelude.{◌≡◌, IfOk, OnOk, ◌++◌};
ghost use Rattle.pass_exits.specs.ExitBlocks.{with_exit_blocks};
ghost use Rattle.pass_split.specs.Called.{split_by};
ghost use Rattle.pass_split.specs.Given.{is_given_by, called_names, has_given_call};
ghost use Rattle.pass_split.specs.Parts.{marked_parts, split_function, first_layout, other_layouts, layouts_after, split_functions, split_module};

use crate::given::{Calls, calls_of, is_given_by};
use crate::parts::{plain_of, push_parts};
use frame_layout::{Layout, Layouts, index_alone};
use ir_base::{Data, Items};
use ir_model::{Function, Module};
use pass_exits::with_exit_blocks;
use pass_intrinsics::shape_of;
use std::alloc::{AllocError, Global};

/// Adds what a function becomes, by the first of these layouts where it is a coroutine.
fn push_split(
    alloc: Global,
    all: &mut Items<Function>,
    layouts: &[Layout],
    given: bool,
    function: &Function,
) -> Result<(), AllocError>
    ensures { OnOk result (all.new ≡ all.old ++ split_function (first_layout layouts.now) given function.now) }
{
    if !function.coroutine {
        all.push(plain_of(alloc, function)?)?;
        return Ok(());
    }
    match layouts {
        [] => push_coroutine(alloc, all, &index_alone(alloc, 0, 0)?, given, function),
        [layout, ..] => push_coroutine(alloc, all, layout, given, function),
    }
}

/// Adds what a function becomes where these are the calls.
fn push_function(
    alloc: Global,
    all: &mut Items<Function>,
    layouts: &[Layout],
    calls: &Calls,
    function: &Function,
) -> Result<(), AllocError>
    ensures { OnOk result (all.new ≡ all.old ++ split_function (first_layout layouts.now) (is_given_by calls.now.names function.now) function.now) }
{
    let given = is_given_by(alloc, calls, function)?;
    push_split(alloc, all, layouts, given, function)
}

/// Adds the parts of a coroutine whose edges that leave a window have blocks with marks.
fn push_marked(
    alloc: Global,
    all: &mut Items<Function>,
    layout: &Layout,
    given: bool,
    function: &Function,
) -> Result<(), AllocError>
    ensures { OnOk result (all.new ≡ all.old ++ marked_parts layout.now given function.now) }
{
    let shape = shape_of(alloc, function, layout)?;
    push_parts(alloc, all, &shape, given, function)
}

fn push_coroutine(
    alloc: Global,
    all: &mut Items<Function>,
    layout: &Layout,
    given: bool,
    function: &Function,
) -> Result<(), AllocError>
    ensures { OnOk result (all.new ≡ all.old ++ marked_parts layout.now given (with_exit_blocks function.now)) }
{
    let marked = with_exit_blocks(alloc, function)?;
    push_marked(alloc, all, layout, given, &marked)
}

/// The layouts that are left behind a function.
fn layouts_after<'a>(function: &Function, layouts: &'a [Layout]) -> &'a [Layout]
    ensures { result.now ≡ layouts_after function.now layouts.now }
{
    if !function.coroutine {
        return layouts;
    }
    match layouts {
        [] => layouts,
        [_, others @ ..] => others,
    }
}

fn split_by(
    alloc: Global,
    layouts: &[Layout],
    calls: &Calls,
    functions: &[Function],
) -> Result<Items<Function>, AllocError>
    ensures { IfOk result (λ x. x ≡ split_by layouts.now calls.now.names functions.now) }
{
    let mut all = Items::new(alloc);
    let mut left = layouts;
    for function in functions {
        push_function(alloc, &mut all, left, calls, function)?;
        left = layouts_after(function, left);
    }
    Ok(all)
}

fn split_functions(
    alloc: Global,
    layouts: &[Layout],
    source: &Module,
) -> Result<Items<Function>, AllocError>
    ensures { IfOk result (λ x. x ≡ split_functions layouts.now source.now source.now.functions) }
{
    let functions = source.functions.as_slice();
    let calls = calls_of(alloc, functions)?;
    split_by(alloc, layouts, &calls, functions)
}

/// The module with each coroutine `f` split into its ramp `f`, `f.resume` and `f.destroy` ("Coroutines in LLVM", the pass
/// CoroSplit), by the layouts of its coroutines in order of the text. Where a call gives `f` a frame, `f.cleanup` and
/// `f.noalloc` stand behind these. Of the coro intrinsics it calls none but `coro.id`.
/// Functions that aren't coroutines keep their names and types; types, globals and declarations stay.
pub fn split(alloc: Global, source: &Module, layouts: &Layouts) -> Result<Module, AllocError>
    ensures { IfOk result (λ x. x ≡ split_module layouts.now source.now) }
{
    let coroutines = layouts.coroutines.as_slice();
    Ok(Module {
        types: source.types.copied(alloc)?,
        globals: source.globals.copied(alloc)?,
        declarations: source.declarations.copied(alloc)?,
        functions: split_functions(alloc, coroutines, source)?,
    })
}
