//! From a frame to its promise, and back.

ghost use Rattle.std.specs.Prelude.{◌≡◌, IfErr, IfOk, OnOk, OnErr, Ok, Err, slice_get, ℕ, Some, None, find, option_map, ◌==◌};
ghost use Rattle.std.specs.Option.{option_copied};
ghost use Rattle.run_source.specs.Source.{promise as promise_at, promise_block as promise_block_of, promise_of_frame as promise_of_frame_at, frame_of_promise as frame_of_promise_of, block_of_slot as block_of_slot_in, is_live_at as is_live_block, is_over as is_over_instance, has_promise_at as has_promise_in};
ghost use Rattle.run_source.specs.State.{frame_address_of as frame_address_of_instance};
ghost use Rattle.run_source.specs.SourceEffects.{given_of};
ghost use Rattle.run_memory.specs.declared.pointer.Pointer.{Pointer as ThePointer};
ghost use Rattle.run_memory.specs.declared.pointer.Value.{Value as TheValue};
ghost use Rattle.ir_paths.specs.Windows.{operand_at};

use crate::state::{Instance, State, Status};
use ir_base::{Cause, ValueId};
use ir_model::Arg;
use run_memory::{BlockId, Memory, Offset, Pointer, Value};
use run_source_tables::run_step_library::{Slot, Stack, pointer_to};
use run_source_tables::{SourceProgram, is_true_at};

/// The block of the newest slot of an alloca.
fn block_of_slot(slots: &Stack<Slot>, alloca: ValueId) -> Option<BlockId>
    ensures { result ≡ block_of_slot_in slots.now alloca }
{
    let oldest_first = slots.as_slice();
    let mut left = oldest_first.len();
    while left > 0 {
        left -= 1;
        let slot = oldest_first[left];
        if slot.alloca == alloca {
            return Some(slot.block);
        }
    }
    None
}

/// The block of an instance's promise.
fn promise_block(given: &SourceProgram, instance: &Instance) -> Option<BlockId>
    ensures { result ≡ promise_block_of (given_of given.now) instance.now }
{
    let alloca = given.promise_of(instance.coroutine)?;
    block_of_slot(&instance.slots, alloca)
}

/// Whether an instance's slots have died.
pub fn is_over(instance: &Instance) -> bool
    ensures { result ≡ is_over_instance instance.now }
{
    match &instance.status {
        Status::Finished => true,
        _ => instance.freed,
    }
}

/// An instance's frame address.
pub fn frame_address_of(instance: &Instance) -> Value
    ensures { result ≡ frame_address_of_instance instance.now }
{
    Value::Ptr(Pointer::At(
        instance.block,
        Offset {
            bits: instance.start,
        },
    ))
}

fn promise_of_frame(given: &SourceProgram, state: &State, p: Value) -> Result<Value, Cause>
    ensures { result ≡ promise_of_frame_at (given_of given.now) state.now p }
{
    let Some(i) = state.instances.place(p) else {
        return Err(Cause::Frame);
    };
    let Some(instance) = state.instances.get(i) else {
        return Err(Cause::Frame);
    };
    let Some(block) = promise_block(given, instance) else {
        return Err(Cause::Promise);
    };
    if is_over(instance) {
        Err(Cause::Dead)
    } else {
        Ok(pointer_to(block))
    }
}

fn has_promise_at(given: &SourceProgram, block: BlockId, instance: &Instance) -> bool
    ensures { result ≡ has_promise_in (given_of given.now) block instance.now }
{
    match promise_block(given, instance) {
        None => false,
        Some(promise) => block == promise,
    }
}

/// Whether a block is live.
pub fn is_live_at(memory: &Memory, block: BlockId) -> bool
    ensures { result ≡ is_live_block memory.now block }
{
    match memory.get(block) {
        None => false,
        Some(x) => x.life.is_live(),
    }
}

/// The first instance whose promise is a block.
fn keeper_of<'a>(
    given: &SourceProgram,
    instances: &'a [Instance],
    block: BlockId,
) -> Option<&'a Instance>
    ensures { option_copied result ≡ find (λ x. has_promise_in (given_of given.now) block x) instances.now }
{
    for instance in instances {
        if has_promise_at(given, block, instance) {
            return Some(instance);
        }
    }
    None
}

/// From an offset of a block, which a live promise must be, back to its frame.
fn frame_of_promise_at(
    given: &SourceProgram,
    state: &State,
    block: BlockId,
    offset: Offset,
) -> Result<Value, Cause>
    ensures { result ≡ frame_of_promise_of (given_of given.now) state.now (TheValue.Ptr (ThePointer.At block offset)) }
{
    if offset.bits != 0 {
        return Err(Cause::Promise);
    }
    let Some(instance) = keeper_of(given, state.instances.as_slice(), block) else {
        return Err(Cause::Promise);
    };
    if is_live_at(&state.world.memory, block) {
        Ok(frame_address_of(instance))
    } else {
        Err(Cause::Promise)
    }
}

fn frame_of_promise(given: &SourceProgram, state: &State, p: Value) -> Result<Value, Cause>
    ensures { result ≡ frame_of_promise_of (given_of given.now) state.now p }
{
    match p {
        Value::Ptr(Pointer::At(block, offset)) => frame_of_promise_at(given, state, block, offset),
        _ => Err(Cause::Promise),
    }
}

/// `llvm.coro.promise`.
pub fn promise(given: &SourceProgram, state: &State, p: Value, args: &[Arg]) -> Result<Value, Cause>
    ensures { result ≡ promise_at (given_of given.now) state.now p (operand_at args.now 2) }
{
    if is_true_at(args, 2) {
        frame_of_promise(given, state, p)
    } else {
        promise_of_frame(given, state, p)
    }
}
