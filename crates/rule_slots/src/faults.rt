//! The first places at which the rules on coroutine slots are broken.

ghost use Rattle.std.specs.Prelude.{IfOk, IsTrue, OnOk};
ghost use Rattle.flow_points.specs.Reached.{IsGraphOf};
ghost use Rattle.rule_slots.specs.Early.{IsFirstEarly};
ghost use Rattle.rule_slots.specs.Marked.{IsFirstMarked};
ghost use Rattle.rule_slots.specs.Slots.{AreAddressesOf, AreSlotsOf};

use crate::closed::closed_points;
use crate::early::Early;
use crate::ends::{before_begin, early_ends};
use crate::marked::Marked;
use crate::slots::{Slots, slots_of};
use flow_facts::ramp_slots_of;
use flow_points::PointGraph;
use ir_base::{FuncId, Place};
use ir_model::Function;
use ir_parts::first_part;
use std::alloc::{AllocError, Global};

/// For each of the rules K8 and K9 the first place of a function that breaks it.
#[derive(Clone, Copy, Debug, Drop)]
pub struct SlotFaults {
    pub marked: Option<Place>,
    pub early: Option<Place>,
}

#[tactic(auto, using(crate::proofs::Rules::first_marked_is))]
fn first_marked(
    alloc: Global,
    graph: &mut PointGraph,
    func: FuncId,
    function: &Function,
    slots: &Slots,
) -> Result<Option<Place>, AllocError>
    requires graph { IsGraphOf function.now graph.old }
    requires coroutine { IsTrue function.now.coroutine }
    requires slots { AreSlotsOf function.now slots.now.themselves }
    ensures first { IfOk result (λ p. IsFirstMarked func function.now p) }
    ensures kept { OnOk result (IsGraphOf function.now graph.new) }
{
    let closed = closed_points(alloc, graph, function)?;
    let rule = Marked {
        function,
        slots,
        closed,
    };
    let place = first_part(&rule, func, function)?;
    Ok(place)
}

#[tactic(auto, using(crate::proofs::Rules::first_early_is))]
fn first_early(
    alloc: Global,
    graph: &mut PointGraph,
    func: FuncId,
    function: &Function,
    slots: &Slots,
) -> Result<Option<Place>, AllocError>
    requires graph { IsGraphOf function.now graph.old }
    requires coroutine { IsTrue function.now.coroutine }
    requires slots { AreSlotsOf function.now slots.now.themselves }
    requires addresses { AreAddressesOf function.now slots.now.addresses }
    ensures { IfOk result (λ p. IsFirstEarly func function.now p) }
{
    let before = before_begin(alloc, graph, function)?;
    let ends = early_ends(alloc, graph, function, &before)?;
    let rule = Early {
        function,
        slots,
        before,
        ends,
    };
    let place = first_part(&rule, func, function)?;
    Ok(place)
}

/// The first place at which rule K8 is broken, a marker on a coroutine slot in a window or after the end, and the first at
/// which rule K9 is: an address of a coroutine slot used before begin otherwise than directly as the address of a load, store
/// or memcpy, in a marker or in coro.id. Only coroutines break them.
#[tactic(auto, using(crate::proofs::Rules::no_first_marked, crate::proofs::Rules::no_first_early))]
pub fn slot_faults(
    alloc: Global,
    func: FuncId,
    function: &Function,
) -> Result<SlotFaults, AllocError>
    ensures marked { IfOk result (λ faults. IsFirstMarked func function.now faults.marked) }
    ensures early { IfOk result (λ faults. IsFirstEarly func function.now faults.early) }
{
    if !function.coroutine {
        return Ok(SlotFaults {
            marked: None,
            early: None,
        });
    }
    let mut graph = PointGraph::new(alloc, function)?;
    let ramp = ramp_slots_of(alloc, function)?;
    let slots = slots_of(alloc, function, ramp.as_slice())?;
    let marked = first_marked(alloc, &mut graph, func, function, &slots)?;
    let early = first_early(alloc, &mut graph, func, function, &slots)?;
    Ok(SlotFaults { marked, early })
}
