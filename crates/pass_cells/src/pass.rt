//! The pass over a function.

ghost use Rattle.std.specs.Prelude.{◌≡◌, ◌++◌, ◌-◌, IfOk, map, codes};
ghost use Rattle.pass_cells.specs.Cells.{fetch_by, fetch_for, fetches_of, named_function, fetched_function, written_function, with_plan, with_cells};

use crate::names::with_own_names;
use crate::plan::{KeptValue, Plan, plan_of};
use crate::written::{entry_front, written_blocks};
use ir_base::{Data, Items, SuspendId, ValueId};
use ir_model::Function;
use pass_distances::Types;
use pass_fetch::{Fetch, with_fetches, with_numbered_names};
use std::alloc::{AllocError, Global};

/// How a value is fetched that is kept.
fn fetch_for(
    alloc: Global,
    kept: &Items<KeptValue>,
    place: Option<usize>,
) -> Result<Option<Fetch>, AllocError>
    ensures { IfOk result (λ x. x ≡ fetch_for kept.now place) }
{
    match place {
        None => Ok(None),
        Some(place) => match kept.get(place) {
            None => Ok(None),
            Some(value) => Ok(Some(Fetch::Load {
                ty: value.ty.copied(alloc)?,
                cell: value.cell,
            })),
        },
    }
}

fn fetches_of(alloc: Global, plan: &Plan) -> Result<Items<Option<Fetch>>, AllocError>
    ensures { IfOk result (λ x. x ≡ fetches_of plan.now) }
{
    let mut all = Items::new(alloc);
    for place in plan.places.as_slice() {
        all.push(fetch_for(alloc, &plan.kept, *place)?)?;
    }
    Ok(all)
}

/// The function with the names of its cells and fields.
fn named_function(alloc: Global, function: &Function, plan: &Plan) -> Result<Function, AllocError>
    ensures { IfOk result (λ f. f ≡ named_function plan.now function.now) }
{
    Ok(Function {
        name: function.name.copied(alloc)?,
        result: Data::copied(&function.result, alloc)?,
        params: function.params.copied(alloc)?,
        coroutine: function.coroutine,
        blocks: function.blocks.copied(alloc)?,
        names: with_own_names(alloc, &function.names, plan.kept.len(), plan.links)?,
    })
}

/// The function with each use of a value that is kept loaded from its cell.
#[tactic(auto, unfolding(crate::specs::Cells::fetched_function))]
fn fetched_function(alloc: Global, function: &Function, plan: &Plan) -> Result<Function, AllocError>
    ensures { IfOk result (λ f. f ≡ fetched_function plan.now function.now) }
{
    let named = named_function(alloc, function, plan)?;
    let fetches = fetches_of(alloc, plan)?;
    with_fetches(alloc, &named, fetches.as_slice(), b"$c.use.")
}

/// The function with what stands around its instructions and at the fronts of its blocks.
fn written_function(
    alloc: Global,
    types: &Types<'_>,
    plan: &Plan,
    function: &Function,
) -> Result<Function, AllocError>
    ensures { IfOk result (λ f. f ≡ written_function types.now.sizes.now.names.now.source.now plan.now function.now) }
{
    let first = function.names.len();
    let front = entry_front(alloc, plan, function.params.as_slice())?;
    let source = function.blocks.as_slice();
    let (blocks, next) = written_blocks(alloc, types, plan, front, first, source)?;
    let count = next.saturating_sub(first);
    Ok(Function {
        name: function.name.copied(alloc)?,
        result: Data::copied(&function.result, alloc)?,
        params: function.params.copied(alloc)?,
        coroutine: function.coroutine,
        blocks,
        names: with_numbered_names(alloc, &function.names, b"$c.kept.", count)?,
    })
}

/// A coroutine whose values that cross suspends are kept in cells and fields: before each use such a value is loaded from its
/// cell, and behind its definition it is stored there; before a save it goes from the cell into its field, and at the front of the
/// blocks on the suspend's resume and destroy edges from the field into the cell. Of a `getelementptr` of a local slot the field
/// keeps the distance from the slot, which is summed where the `getelementptr` stands.
///
/// `crossing` are the pairs of values and suspends that they cross, in order; `local` tells for each name whether it is a local
/// slot. Each resume and destroy edge leads to a block of its own without phis.
pub fn with_cells(
    alloc: Global,
    types: &Types<'_>,
    function: &Function,
    crossing: &[(ValueId, SuspendId)],
    local: &[bool],
) -> Result<Function, AllocError>
    ensures { IfOk result (λ f. f ≡ with_cells types.now.sizes.now.names.now.source.now function.now crossing.now local.now) }
{
    let plan = plan_of(alloc, function, crossing, local)?;
    let fetched = fetched_function(alloc, function, &plan)?;
    written_function(alloc, types, &plan, &fetched)
}
