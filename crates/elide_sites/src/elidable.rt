//! The coroutines whose frames may lie in a caller.

ghost use Rattle.std.specs.Prelude.{◌≡◌, ◌&&◌, ◌++◌, ◌∷◌, ◌↔◌, if◌then◌else◌, [], IfOk, IsTrue, OnOk};
ghost use Rattle.elide_sites.specs.Elidable.{AreElidable, AreFlags, IsElidable};
ghost use Rattle.elide_shape.specs.Frames.{rets_give_frame};
ghost use Rattle.elide_shape.specs.Frees.{are_released};
ghost use Rattle.elide_shape.specs.Guard.{is_guarded};

use crate::destroyed::frees_when_destroyed;
use elide_shape::{Facts, edges_of, facts_of};
use ir_base::{FuncId, Items};
use ir_model::{Function, Module};
use run_step::positions_of;
use std::alloc::{AllocError, Global};

/// Whether what stands in the coroutine is as in an elidable one.
fn is_formed(alloc: Global, facts: &Facts) -> Result<bool, AllocError>
    ensures { IfOk result (λ b. b ≡ (is_guarded facts.now.function.now && (rets_give_frame facts.now.function.now && are_released facts.now.function.now))) }
{
    Ok(facts.is_guarded(alloc)? && (facts.rets_give_frame()? && facts.are_released(alloc)?))
}

/// Whether the function is a coroutine whose frame may lie in a caller.
#[tactic(auto, using(crate::proofs::Flags::no_coroutine, crate::proofs::Flags::not_formed, crate::proofs::Flags::formed))]
fn is_elidable(alloc: Global, function: &Function) -> Result<bool, AllocError>
    ensures { IfOk result (λ b. IsTrue b ↔ IsElidable function.now) }
{
    if !function.coroutine {
        return Ok(false);
    }
    let labels = positions_of(alloc, function)?;
    let edges = edges_of(alloc, function, &labels)?;
    let facts = facts_of(alloc, function, labels, edges.as_slice())?;
    if is_formed(alloc, &facts)? {
        frees_when_destroyed(alloc, function, edges.as_slice())
    } else {
        Ok(false)
    }
}

/// For each function whether it is elidable.
pub fn flags_of(alloc: Global, module: &Module) -> Result<Items<bool>, AllocError>
    ensures { IfOk result (λ flags. AreFlags «module».now flags) }
{
    let functions = module.functions.as_slice();
    let mut flags = Items::new(alloc);
    for at in 0..functions.len() {
        flags.push(is_elidable(alloc, &functions[at])?)?;
    }
    Ok(flags)
}

fn push_if(is_elidable: bool, func: FuncId, all: &mut Items<FuncId>) -> Result<(), AllocError>
    ensures { OnOk result (all.new ≡ all.old ++ (if is_elidable then func ∷ [] else [])) }
{
    if is_elidable {
        all.push(func)?;
    }
    Ok(())
}

/// The coroutines whose frames may lie in a caller, in order of the text ("Coroutines in LLVM", "llvm.coro.alloc").
pub fn elidable_callees(alloc: Global, module: &Module) -> Result<Items<FuncId>, AllocError>
    ensures { IfOk result (AreElidable «module».now) }
{
    let flags = flags_of(alloc, module)?;
    let flags = flags.as_slice();
    let mut all = Items::new(alloc);
    for at in 0..flags.len() {
        push_if(flags[at], at, &mut all)?;
    }
    Ok(all)
}
