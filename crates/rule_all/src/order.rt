//! The one order of refusals.

ghost use Rattle.std.specs.Prelude.{◌≡◌, IfOk};
ghost use Rattle.rule_all.specs.Order.{functions_refusal, items_refusal, refusal};
ghost use Rattle.rule_all.specs.Refused.{IsRefused};

use crate::faults::{PathFaults, all_faults, faults_at};
use crate::function::{broken, function_refusal};
use ir_base::{Items, Rule};
use ir_model::{Function, Module};
use ir_parts::next;
use ir_sizes::Sizes;
use ir_tables::Names;
use rule_locals::first_misaligned_global;
use rule_modules::{Refusal, module_refusal};
use rule_names::Stage;
use rule_values::first_wrong_initial;
use std::alloc::{AllocError, Global};

/// The first broken rule of the functions, in order of the text.
fn functions_refusal(
    alloc: Global,
    stage: Stage,
    sizes: &Sizes<'_>,
    faults: &Items<PathFaults>,
    functions: &[Function],
) -> Result<Option<Refusal>, AllocError>
    ensures { IfOk result (λ r. r ≡ functions_refusal stage sizes.now.names.now.source.now faults.now 0 functions.now) }
{
    let mut func = 0;
    for function in functions {
        let own = faults_at(faults, func);
        if let Some(refusal) = function_refusal(alloc, stage, sizes, func, function, own)? {
            return Ok(Some(refusal));
        }
        func = next(func)?;
    }
    Ok(None)
}

/// The rules behind the module rules: those of globals, then those of the functions.
#[tactic(auto, unfolding(crate::specs::Order::items_refusal))]
fn named_refusal(
    alloc: Global,
    stage: Stage,
    sizes: &Sizes<'_>,
    faults: &Items<PathFaults>,
) -> Result<Option<Refusal>, AllocError>
    ensures { IfOk result (λ r. r ≡ items_refusal stage sizes.now.names.now.source.now faults.now) }
{
    if let Some(place) = first_wrong_initial(sizes.names)? {
        return Ok(broken(Rule::Y1, place));
    }
    if let Some(place) = first_misaligned_global(sizes.names)? {
        return Ok(broken(Rule::Y4, place));
    }
    functions_refusal(
        alloc,
        stage,
        sizes,
        faults,
        sizes.names.source.functions.as_slice(),
    )
}

fn items_refusal(
    alloc: Global,
    stage: Stage,
    source: &Module,
    faults: &Items<PathFaults>,
) -> Result<Option<Refusal>, AllocError>
    ensures { IfOk result (λ r. r ≡ items_refusal stage source.now faults.now) }
{
    let names = Names::new(alloc, source)?;
    let sizes = Sizes::new(alloc, &names)?;
    named_refusal(alloc, stage, &sizes, faults)
}

/// The same where the faults of the rules on paths are told.
#[tactic(auto, unfolding(crate::specs::Order::refusal))]
fn refusal_with(
    alloc: Global,
    stage: Stage,
    source: &Module,
    faults: &Items<PathFaults>,
) -> Result<Option<Refusal>, AllocError>
    ensures { IfOk result (λ r. r ≡ refusal stage source.now faults.now) }
{
    match module_refusal(alloc, stage, source)? {
        Some(refusal) => Ok(Some(refusal)),
        None => items_refusal(alloc, stage, source, faults),
    }
}

/// The first broken rule of a module, with its first place, in the one order of refusals: the module rules, the rules of
/// globals, then for each function in order of the text its rules.
pub fn first_refusal(
    alloc: Global,
    stage: Stage,
    source: &Module,
) -> Result<Option<Refusal>, AllocError>
    ensures { IfOk result (λ r. IsRefused stage source.now r) }
{
    let faults = all_faults(alloc, source.functions.as_slice())?;
    refusal_with(alloc, stage, source, &faults)
}
