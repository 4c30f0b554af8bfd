//! Modules in which no frame can be too large.

ghost use Rattle.std.specs.Prelude.{◌≡◌, ◌≤◌, ◌^◌, IfOk, IsTrue};
ghost use Rattle.frame_bounds.specs.Bounds.{AreSmall, NoneTooLarge, frame_bound as frame_bound_of};

use crate::bounds::frame_bound;
use ir_model::{Function, Module};
use ir_sizes::Sizes;
use ir_tables::Names;
use std::alloc::{AllocError, Global};

/// The most bytes that a frame may end at.
const LIMIT: u64 = 16777216;

fn is_small(sizes: &Sizes<'_>, function: &Function) -> bool
    ensures { IsTrue result → IsTrue function.now.coroutine → frame_bound_of sizes.now.names.now.source.now function.now ≤ 2 ^ 24 }
{
    if !function.coroutine {
        return true;
    }
    match frame_bound(sizes, function) {
        None => false,
        Some(bound) => bound <= LIMIT,
    }
}

fn each_is_small(sizes: &Sizes<'_>, functions: &[Function]) -> bool
    ensures { IsTrue result → AreSmall sizes.now.names.now.source.now functions.now }
{
    for function in functions {
        if !is_small(sizes, function) {
            return false;
        }
    }
    true
}

/// Whether each coroutine's frame is bounded, where these are the functions of the module.
#[tactic(auto, using(crate::proofs::Bounded::none_too_large))]
fn all_small(sizes: &Sizes<'_>, functions: &[Function]) -> bool
    requires { functions.now ≡ sizes.now.names.now.source.now.functions }
    ensures { IsTrue result → NoneTooLarge sizes.now.names.now.source.now }
{
    each_is_small(sizes, functions)
}

/// Whether what stands in each coroutine bounds its frame, so that none can be too large. Where it doesn't, a frame may still not
/// be.
pub fn are_small(alloc: Global, source: &Module) -> Result<bool, AllocError>
    ensures { IfOk result (λ small. IsTrue small → NoneTooLarge source.now) }
{
    let names = Names::new(alloc, source)?;
    let sizes = Sizes::new(alloc, &names)?;
    Ok(all_small(&sizes, source.functions.as_slice()))
}
