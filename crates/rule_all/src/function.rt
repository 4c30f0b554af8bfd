//! The rules of one function, in their order.

ghost use Rattle.std.specs.Prelude.{◌≡◌, IfOk, Some};
ghost use Rattle.rule_all.specs.Order.{value_refusal, flow_refusal, pointer_refusal, placing_refusal, parts_refusal, standing_refusal, slots_refusal, frame_refusal, shape_refusal, function_refusal};
ghost use Rattle.rule_names.specs.declared.stage.Stage.{Stage as TheStage};

use crate::faults::PathFaults;
use ir_base::{FuncId, Place, Rule};
use ir_model::Function;
use ir_sizes::Sizes;
use rule_locals::{
    first_closed_call, first_function_pointer, first_late_alloca, first_misplaced_intrinsic,
    first_other_mark, first_past_extent, first_wrong_transfer,
};
use rule_modules::Refusal;
use rule_names::Stage;
use rule_phis::first_wrong_edge;
use rule_shape::{
    first_second_final, first_suspend_too_many, first_wrong_call, first_wrong_promise,
    first_wrong_switch,
};
use rule_values::first_wrong_value;
use std::alloc::{AllocError, Global};

/// A rule that is broken at a place.
pub fn broken(rule: Rule, place: Place) -> Option<Refusal>
    ensures { result ≡ Some (record { rule = rule; place = place }) }
{
    Some(Refusal { rule, place })
}

/// The types of values, what is called, how large types are, and what must be a tail call: Y1, Y3, Y4, Y5.
#[tactic(auto, unfolding(crate::specs::Order::value_refusal))]
fn value_refusal(
    alloc: Global,
    stage: Stage,
    sizes: &Sizes<'_>,
    func: FuncId,
    function: &Function,
) -> Result<Option<Refusal>, AllocError>
    ensures { IfOk result (λ r. r ≡ value_refusal stage sizes.now.names.now.source.now func function.now) }
{
    if let Some(place) = first_wrong_value(alloc, sizes.names, func, function)? {
        return Ok(broken(Rule::Y1, place));
    }
    if let Some(place) = first_closed_call(sizes.names, func, function)? {
        return Ok(broken(Rule::Y3, place));
    }
    if let Some(place) = first_past_extent(stage, sizes, func, function)? {
        return Ok(broken(Rule::Y4, place));
    }
    if let Some(place) = first_wrong_transfer(stage, func, function)? {
        return Ok(broken(Rule::Y5, place));
    }
    Ok(None)
}

/// Edges into blocks, uses without a definition, and allocas: F1, F2, F3.
#[tactic(auto, unfolding(crate::specs::Order::flow_refusal))]
fn flow_refusal(
    alloc: Global,
    func: FuncId,
    function: &Function,
    faults: PathFaults,
) -> Result<Option<Refusal>, AllocError>
    ensures { IfOk result (λ r. r ≡ flow_refusal func function.now faults) }
{
    if let Some(place) = first_wrong_edge(alloc, func, function)? {
        return Ok(broken(Rule::F1, place));
    }
    if let Some(place) = faults.undefined_use {
        return Ok(broken(Rule::F2, place));
    }
    if let Some(place) = first_late_alloca(func, function)? {
        return Ok(broken(Rule::F3, place));
    }
    Ok(None)
}

/// Functions' addresses and calls of them, which a plain module may have: P1.
#[tactic(auto, unfolding(crate::specs::Order::pointer_refusal))]
fn pointer_refusal(
    stage: Stage,
    sizes: &Sizes<'_>,
    func: FuncId,
    function: &Function,
) -> Result<Option<Refusal>, AllocError>
    ensures { IfOk result (λ r. r ≡ pointer_refusal stage sizes.now.names.now.source.now func function.now) }
{
    match stage {
        Stage::Plain => Ok(None),
        Stage::Source => match first_function_pointer(sizes.names, func, function)? {
            Some(place) => Ok(broken(Rule::P1, place)),
            None => Ok(None),
        },
    }
}

/// Addresses of functions, and where coro intrinsics stand: P1, K1.
#[tactic(auto, unfolding(crate::specs::Order::placing_refusal))]
fn placing_refusal(
    alloc: Global,
    stage: Stage,
    sizes: &Sizes<'_>,
    func: FuncId,
    function: &Function,
) -> Result<Option<Refusal>, AllocError>
    ensures { IfOk result (λ r. r ≡ placing_refusal stage sizes.now.names.now.source.now func function.now) }
{
    if let Some(refusal) = pointer_refusal(stage, sizes, func, function)? {
        return Ok(Some(refusal));
    }
    if let Some(place) = first_misplaced_intrinsic(alloc, stage, func, function)? {
        return Ok(broken(Rule::K1, place));
    }
    Ok(None)
}

/// The parts that a coroutine has: K2, K3, K4.
#[tactic(auto, unfolding(crate::specs::Order::parts_refusal))]
fn parts_refusal(
    alloc: Global,
    func: FuncId,
    function: &Function,
) -> Result<Option<Refusal>, AllocError>
    ensures { IfOk result (λ r. r ≡ parts_refusal func function.now) }
{
    if let Some(place) = first_wrong_call(alloc, func, function)? {
        return Ok(broken(Rule::K2, place));
    }
    if let Some(place) = first_wrong_switch(alloc, func, function)? {
        return Ok(broken(Rule::K3, place));
    }
    if let Some(place) = first_second_final(alloc, func, function)? {
        return Ok(broken(Rule::K4, place));
    }
    Ok(None)
}

/// Where they stand, and what stands in windows: K5, K6, K7.
#[tactic(auto, unfolding(crate::specs::Order::standing_refusal))]
fn standing_refusal(faults: PathFaults) -> Option<Refusal>
    ensures { result ≡ standing_refusal faults }
{
    if let Some(place) = faults.outside {
        return broken(Rule::K5, place);
    }
    if let Some(place) = faults.window {
        return broken(Rule::K6, place);
    }
    match faults.kept_value {
        Some(place) => broken(Rule::K7, place),
        None => None,
    }
}

/// What stands of slots in windows, before begin and after the end: K8, K9.
#[tactic(auto, unfolding(crate::specs::Order::slots_refusal))]
fn slots_refusal(faults: PathFaults) -> Option<Refusal>
    ensures { result ≡ slots_refusal faults }
{
    if let Some(place) = faults.marked_slot {
        return broken(Rule::K8, place);
    }
    match faults.early_address {
        Some(place) => broken(Rule::K9, place),
        None => None,
    }
}

/// The promise, and the number of suspends: K10, K11.
#[tactic(auto, unfolding(crate::specs::Order::frame_refusal))]
fn frame_refusal(
    alloc: Global,
    func: FuncId,
    function: &Function,
) -> Result<Option<Refusal>, AllocError>
    ensures { IfOk result (λ r. r ≡ frame_refusal func function.now) }
{
    if let Some(place) = first_wrong_promise(alloc, func, function)? {
        return Ok(broken(Rule::K10, place));
    }
    if let Some(place) = first_suspend_too_many(alloc, func, function)? {
        return Ok(broken(Rule::K11, place));
    }
    Ok(None)
}

#[tactic(auto, unfolding(crate::specs::Order::shape_refusal))]
fn coroutine_refusal(
    alloc: Global,
    func: FuncId,
    function: &Function,
    faults: PathFaults,
) -> Result<Option<Refusal>, AllocError>
    ensures { IfOk result (λ r. r ≡ shape_refusal TheStage.Source func function.now faults) }
{
    if let Some(refusal) = parts_refusal(alloc, func, function)? {
        return Ok(Some(refusal));
    }
    if let Some(refusal) = standing_refusal(faults) {
        return Ok(Some(refusal));
    }
    if let Some(refusal) = slots_refusal(faults) {
        return Ok(Some(refusal));
    }
    frame_refusal(alloc, func, function)
}

/// The shape of a coroutine of a source.
#[tactic(auto, unfolding(crate::specs::Order::shape_refusal))]
fn shape_refusal(
    alloc: Global,
    stage: Stage,
    func: FuncId,
    function: &Function,
    faults: PathFaults,
) -> Result<Option<Refusal>, AllocError>
    ensures { IfOk result (λ r. r ≡ shape_refusal stage func function.now faults) }
{
    match stage {
        Stage::Plain => Ok(None),
        Stage::Source => coroutine_refusal(alloc, func, function, faults),
    }
}

/// The first broken rule of a function, of which the rules on paths have these faults.
#[tactic(auto, unfolding(crate::specs::Order::function_refusal))]
pub fn function_refusal(
    alloc: Global,
    stage: Stage,
    sizes: &Sizes<'_>,
    func: FuncId,
    function: &Function,
    faults: PathFaults,
) -> Result<Option<Refusal>, AllocError>
    ensures { IfOk result (λ r. r ≡ function_refusal stage sizes.now.names.now.source.now func function.now faults) }
{
    if let Some(refusal) = value_refusal(alloc, stage, sizes, func, function)? {
        return Ok(Some(refusal));
    }
    if let Some(refusal) = flow_refusal(alloc, func, function, faults)? {
        return Ok(Some(refusal));
    }
    if let Some(refusal) = placing_refusal(alloc, stage, sizes, func, function)? {
        return Ok(Some(refusal));
    }
    if let Some(refusal) = shape_refusal(alloc, stage, func, function, faults)? {
        return Ok(Some(refusal));
    }
    match first_other_mark(alloc, sizes, func, function)? {
        Some(place) => Ok(broken(Rule::K13, place)),
        None => Ok(None),
    }
}
