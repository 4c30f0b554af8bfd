//! What the rules on paths say of each function.

ghost use Rattle.std.specs.Prelude.{◌≡◌, IfOk};
ghost use Rattle.rule_all.specs.Faults.{AreFaultsOf, HaveFaults, faults_at as faults_of_position};

use ir_base::{FuncId, Items, Place};
use ir_model::Function;
use rule_slots::slot_faults;
use rule_uses::first_undefined_use;
use rule_window_values::first_kept_value;
use rule_windows::{first_outside, first_wrong_window};
use std::alloc::{AllocError, Global};

/// For each of the rules F2, K5, K6, K7, K8 and K9 the first place of a function that breaks it.
#[derive(Clone, Copy, Debug, Drop)]
pub struct PathFaults {
    pub undefined_use: Option<Place>,
    pub outside: Option<Place>,
    pub window: Option<Place>,
    pub kept_value: Option<Place>,
    pub marked_slot: Option<Place>,
    pub early_address: Option<Place>,
}

fn faults_of(alloc: Global, func: FuncId, function: &Function) -> Result<PathFaults, AllocError>
    ensures { IfOk result (λ x. AreFaultsOf func function.now x) }
{
    let undefined_use = first_undefined_use(alloc, func, function)?;
    let outside = first_outside(alloc, func, function)?;
    let window = first_wrong_window(alloc, func, function)?;
    let kept_value = first_kept_value(alloc, func, function)?;
    let slots = slot_faults(alloc, func, function)?;
    Ok(PathFaults {
        undefined_use,
        outside,
        window,
        kept_value,
        marked_slot: slots.marked,
        early_address: slots.early,
    })
}

/// What the rules on paths say of the functions, in their order.
pub fn all_faults(alloc: Global, functions: &[Function]) -> Result<Items<PathFaults>, AllocError>
    ensures { IfOk result (λ all. HaveFaults functions.now all) }
{
    let mut all = Items::new(alloc);
    for func in 0..functions.len() {
        all.push(faults_of(alloc, func, &functions[func])?)?;
    }
    Ok(all)
}

/// What they say of the function at a position.
pub fn faults_at(faults: &Items<PathFaults>, func: FuncId) -> PathFaults
    ensures { result ≡ faults_of_position faults.now func }
{
    match faults.get(func) {
        Some(found) => *found,
        None => PathFaults {
            undefined_use: None,
            outside: None,
            window: None,
            kept_value: None,
            marked_slot: None,
            early_address: None,
        },
    }
}
