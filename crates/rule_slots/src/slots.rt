//! Coroutine slots and their addresses.

ghost use Rattle.std.specs.Prelude.{◌≡◌, ◌++◌, IfOk, OnOk};
ghost use Rattle.ir_paths.specs.Slots.{allocas_in, allocas_of as allocas_of_function};
ghost use Rattle.flow_facts.specs.Slots.{AreRampSlots};
ghost use Rattle.rule_slots.specs.Slots.{AreAddressesOf, AreSlotsOf, names_without};

use crate::names::{NameSet, name_set};
use crate::steps::led_from;
use ir_base::{Items, ValueId};
use ir_model::{Function, Instr};
use std::alloc::{AllocError, Global};

/// The coroutine slots of a function, and all their addresses.
#[derive(Drop)]
pub struct Slots {
    pub themselves: NameSet,
    pub addresses: NameSet,
}

fn push_allocas(instrs: &[Instr], all: &mut Items<ValueId>) -> Result<(), AllocError>
    ensures { OnOk result (all.new ≡ all.old ++ allocas_in instrs.now) }
{
    for instr in instrs {
        if let Instr::Alloca { result, .. } = instr {
            all.push(*result)?;
        }
    }
    Ok(())
}

fn allocas_of(alloc: Global, function: &Function) -> Result<Items<ValueId>, AllocError>
    ensures { IfOk result (λ all. all ≡ allocas_of_function function.now) }
{
    let mut all = Items::new(alloc);
    for block in function.blocks.as_slice() {
        push_allocas(block.instrs.as_slice(), &mut all)?;
    }
    Ok(all)
}

/// Those of the names that the set doesn't have.
fn names_without(
    alloc: Global,
    set: &NameSet,
    names: &[ValueId],
) -> Result<Items<ValueId>, AllocError>
    ensures { IfOk result (λ all. all ≡ names_without set.now names.now) }
{
    let mut all = Items::new(alloc);
    for name in names {
        if !set.has(*name) {
            all.push(*name)?;
        }
    }
    Ok(all)
}

/// The coroutine slots, by the ramp slots.
#[tactic(auto, using(crate::proofs::OfSlots::slots_of_is, crate::proofs::OfSlots::addresses_of_is))]
pub fn slots_of(alloc: Global, function: &Function, ramp: &[ValueId]) -> Result<Slots, AllocError>
    requires { AreRampSlots function.now ramp.now }
    ensures themselves { IfOk result (λ s. AreSlotsOf function.now s.themselves) }
    ensures addresses { IfOk result (λ s. AreAddressesOf function.now s.addresses) }
{
    let count = function.names.len();
    let ramp = name_set(alloc, count, ramp)?;
    let allocas = allocas_of(alloc, function)?;
    let slots = names_without(alloc, &ramp, allocas.as_slice())?;
    Ok(Slots {
        themselves: name_set(alloc, count, slots.as_slice())?,
        addresses: led_from(alloc, function, slots.as_slice())?,
    })
}
