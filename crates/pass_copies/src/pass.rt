//! The pass over a function.

ghost use Rattle.std.specs.Prelude.{◌≡◌, ◌+◌, ◌-◌, ◌*◌, ◌++◌, ◌∷◌, IfOk, OnOk, codes, length};
ghost use Rattle.pass_fetch.specs.Blocks.{numbered_names};
ghost use Rattle.pass_copies.specs.Slots.{early_name, where_name, names_of_slot, slot_names};
ghost use Rattle.pass_copies.specs.BeginCopies.{copying_of, first_fetched, copied_function, with_begin_copies};

use crate::blocks::copied_blocks;
use crate::copying::Copying;
use crate::slot::EarlySlot;
use crate::slots::{early_slots, fetches_of, resumed_at};
use crate::uses::used_before;
use crate::written::entry_front;
use ir_base::{Data, Items, Name, ValueId};
use ir_model::{Function, numbered_name};
use pass_fetch::with_numbered_names;
use pass_intrinsics::later;
use std::alloc::{AllocError, Global};

#[tactic(auto, unfolding(crate::specs::Slots::early_name))]
fn early_name(alloc: Global, slot: usize) -> Result<Name, AllocError>
    ensures { IfOk result (λ n. n ≡ early_name slot) }
{
    numbered_name(alloc, b"$c.early.", slot)
}

#[tactic(auto, unfolding(crate::specs::Slots::where_name))]
fn where_name(alloc: Global, slot: usize) -> Result<Name, AllocError>
    ensures { IfOk result (λ n. n ≡ where_name slot) }
{
    numbered_name(alloc, b"$c.where.", slot)
}

/// Adds the names of the temporary and the cell of a slot.
fn push_slot_names(alloc: Global, names: &mut Items<Name>, slot: usize) -> Result<(), AllocError>
    ensures { OnOk result (names.new ≡ names.old ++ names_of_slot slot) }
{
    names.push(early_name(alloc, slot)?)?;
    names.push(where_name(alloc, slot)?)?;
    Ok(())
}

/// The names of a function, and behind them those of so many temporaries and cells.
#[tactic(auto, using(crate::proofs::Names::slot_names_step))]
fn with_slot_names(
    alloc: Global,
    names: &Items<Name>,
    count: usize,
) -> Result<Items<Name>, AllocError>
    ensures { IfOk result (λ x. x ≡ names.now ++ slot_names count) }
{
    let mut all = names.copied(alloc)?;
    for k in 0..count {
        push_slot_names(alloc, &mut all, k)?;
    }
    Ok(all)
}

fn copying_of(
    alloc: Global,
    function: &Function,
    slots: Items<EarlySlot>,
) -> Result<Copying, AllocError>
    ensures { IfOk result (λ c. c ≡ copying_of function.now slots) }
{
    let fetches = fetches_of(alloc, function, slots.as_slice())?;
    Ok(Copying {
        slots,
        fetches,
        resumed: resumed_at(alloc, function)?,
    })
}

/// The first name behind those of temporaries and cells.
fn first_fetched(function: &Function, copying: &Copying) -> Result<ValueId, AllocError>
    ensures { IfOk result (λ n. n ≡ first_fetched function.now copying.now) }
{
    match copying.slots.len().checked_mul(2) {
        Some(count) => later(function.names.len(), count),
        None => Err(AllocError),
    }
}

fn copied_function(
    alloc: Global,
    function: &Function,
    before: &[bool],
    copying: &Copying,
) -> Result<Function, AllocError>
    ensures { IfOk result (λ f. f ≡ copied_function function.now before.now copying.now) }
{
    let first = first_fetched(function, copying)?;
    let front = entry_front(alloc, copying.slots.as_slice())?;
    let source = function.blocks.as_slice();
    let (blocks, next) = copied_blocks(alloc, copying, before, front, first, source)?;
    let names = with_slot_names(alloc, &function.names, copying.slots.len())?;
    let count = next.saturating_sub(first);
    Ok(Function {
        name: function.name.copied(alloc)?,
        result: Data::copied(&function.result, alloc)?,
        params: function.params.copied(alloc)?,
        coroutine: function.coroutine,
        blocks,
        names: with_numbered_names(alloc, &names, b"$c.there.", count)?,
    })
}

/// The coroutine in which the frame slots that are used before begin have temporaries. `slots` says of each name whether it is
/// a frame slot, `before` of each label whether the front of its block is reached from the entry without passing begin, and
/// `sizes` how many bytes a slot has.
pub fn with_begin_copies(
    alloc: Global,
    function: &Function,
    slots: &[bool],
    before: &[bool],
    sizes: &[u64],
) -> Result<Function, AllocError>
    ensures { IfOk result (λ f. f ≡ with_begin_copies function.now slots.now before.now sizes.now) }
{
    let used = used_before(alloc, function, slots, before)?;
    let early = early_slots(alloc, function, used.as_slice(), sizes)?;
    let copying = copying_of(alloc, function, early)?;
    copied_function(alloc, function, before, &copying)
}
