//! Uses of slots become addresses behind begin's value.

ghost use Rattle.std.specs.Prelude.{◌≡◌, IfOk};
ghost use Rattle.pass_addresses.specs.Placing.{slot_fetches, with_frame_addresses};

use crate::markers::without_markers;
use crate::promise::without_promise;
use crate::slots::without_slots;
use ir_base::{Items, ValueId};
use ir_model::Function;
use pass_fetch::{Fetch, with_fetches};
use std::alloc::{AllocError, Global};

fn slot_fetches(
    alloc: Global,
    begin: ValueId,
    offsets: &[Option<u64>],
) -> Result<Items<Option<Fetch>>, AllocError>
    ensures { IfOk result (λ x. x ≡ slot_fetches begin offsets.now) }
{
    let mut all = Items::new(alloc);
    for offset in offsets {
        all.push(offset.map(|distance| Fetch::Address {
            base: begin,
            distance,
        }))?;
    }
    Ok(all)
}

/// The function with the slots that lie in its frame turned into bytes of it: each use of such a slot is an address behind
/// begin's value, and its alloca goes. `offsets` says for each name how far behind begin's value its slot lies, where it lies
/// in the frame. Only markers of names that are `marked` stay, and `coro.id` names no promise.
pub fn with_frame_addresses(
    alloc: Global,
    function: &Function,
    begin: ValueId,
    offsets: &[Option<u64>],
    marked: &[bool],
) -> Result<Function, AllocError>
    ensures { IfOk result (λ f. f ≡ with_frame_addresses function.now begin offsets.now marked.now) }
{
    let fetches = slot_fetches(alloc, begin, offsets)?;
    let function = without_promise(alloc, without_markers(alloc, function, marked)?)?;
    let function = with_fetches(alloc, &function, fetches.as_slice(), b"$c.at.")?;
    without_slots(alloc, function, offsets)
}
