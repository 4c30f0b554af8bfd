//! Free, end, and the deallocation of frames.

ghost use Rattle.std.specs.Prelude.{◌≡◌, ◌+◌, IfErr, OnOk, OnErr, Ok, Err, Some, slice_get, ◌==◌};
ghost use Rattle.std.specs.List.{list_any};
ghost use Rattle.run_memory.specs.Memory.{is_unkilled};
ghost use Rattle.run_memory.specs.declared.block.Kind.{Kind as TheKind};
ghost use Rattle.run_memory.specs.declared.pointer.Pointer.{Pointer as ThePointer};
ghost use Rattle.run_memory.specs.declared.pointer.Value.{Value as TheValue};
ghost use Rattle.run_source_tables.specs.run_step.Step.{without_slots};
ghost use Rattle.run_source.specs.State.{own_instance, gives};
ghost use Rattle.run_source.specs.Source.{after_end as after_end_by, deallocate as deallocate_at, end_of, finish as finish_own, frame_address as frame_address_of_own, may_be_freed as may_be_freed_now, release as release_own};
ghost use Rattle.run_source.specs.SourceEffects.{let_go_at, deallocated_other};
ghost use Rattle.run_source.specs.declared.state.Instance.{Instance as TheInstance};

use crate::calls::come_back;
use crate::frames::give;
use crate::promise::frame_address_of;
use crate::state::{Instance, Mode, State, Status};
use ir_base::{Cause, ValueId};
use run_memory::{BlockId, Kind, Memory, Offset, Pointer, Value};
use run_source_tables::run_step_library::{Slot, Stack, truth};
use run_step_code::deallocate;

/// The slots of an instance die.
fn kill_all(memory: &mut Memory, slots: &Stack<Slot>)
    ensures { memory.new ≡ without_slots memory.old slots.now }
{
    let oldest_first = slots.as_slice();
    let mut left = oldest_first.len();
    while left > 0 {
        left -= 1;
        memory.kill_at(oldest_first[left].block);
    }
}

/// The frame address of the topmost activation's instance.
pub fn frame_address(state: &State) -> Value
    ensures { result ≡ frame_address_of_own (own_instance state.now) }
{
    match state.top.instance {
        None => Value::Poison,
        Some(i) => match state.instances.get(i) {
            None => Value::Poison,
            Some(instance) => frame_address_of(instance),
        },
    }
}

/// `llvm.coro.free`, which gives an address.
pub fn release_with(state: &mut State, next: usize, result_name: Option<ValueId>, address: Value)
    requires { next ≡ state.old.top.at + 1 }
    ensures { state.new ≡ gives (release_own state.old) result_name address }
{
    if let Some(i) = state.top.instance {
        if let Some(_) = state.instances.get(i) {
            state.instances.release(i);
        }
    }
    give(state, next, result_name, address);
}

/// `llvm.coro.free`.
pub fn free(state: &mut State, next: usize, result_name: Option<ValueId>)
    requires { next ≡ state.old.top.at + 1 }
    ensures { state.new ≡ gives (release_own state.old) result_name (frame_address_of_own (own_instance state.old)) }
{
    let address = frame_address(state);
    release_with(state, next, result_name, address);
}

/// The instance of the topmost activation is Finished, and its slots die.
pub fn finish(state: &mut State)
    ensures { state.new ≡ finish_own state.old }
{
    if let Some(i) = state.top.instance {
        if let Some(instance) = state.instances.get(i) {
            kill_all(&mut state.world.memory, &instance.slots);
            state.instances.finish(i);
        }
    }
}

/// Behind the end a resumed activation returns, and any other goes on.
pub fn after_end(state: &mut State, next: usize, result_name: Option<ValueId>)
    requires { next ≡ state.old.top.at + 1 }
    ensures { after_end_by state.old result_name state.old.top.mode ≡ Ok state.new }
{
    match state.top.mode {
        Mode::Resumed => come_back(state),
        _ => give(state, next, result_name, truth(false)),
    }
}

/// `llvm.coro.end`.
pub fn end(state: &mut State, next: usize, result_name: Option<ValueId>)
    requires { next ≡ state.old.top.at + 1 }
    ensures { end_of state.old finish_own result_name ≡ Ok state.new }
{
    if !state.top.has_left {
        finish(state);
    }
    after_end(state, next, result_name);
}

/// Whether one of the slots is a block.
fn has_block(slots: &Stack<Slot>, block: BlockId) -> bool
    ensures { result ≡ list_any (λ s. s.block == block) slots.now }
{
    let oldest_first = slots.as_slice();
    let mut left = oldest_first.len();
    while left > 0 {
        left -= 1;
        if oldest_first[left].block == block {
            return true;
        }
    }
    false
}

/// Whether a block is an allocator's that was never killed.
fn is_allocated(memory: &Memory, block: BlockId) -> bool
    ensures { result ≡ is_unkilled TheKind.Allocator (slice_get memory.now block) }
{
    match memory.get(block) {
        None => false,
        Some(x) => x.is_unkilled(Kind::Allocator),
    }
}

/// Whether an instance lets its block be freed.
fn may_be_freed(instance: &Instance) -> bool
    ensures { result ≡ may_be_freed_now instance.now }
{
    match &instance.status {
        Status::Suspended(_, _) => false,
        _ => instance.released,
    }
}

/// Frees the block of an instance that lets it be freed: its slots die, and it is owned no more.
fn free_frame(
    state: &mut State,
    next: usize,
    i: usize,
    block: BlockId,
    offset: Offset,
) -> Result<(), Cause>
    requires { next ≡ state.old.top.at + 1 }
    ensures done { (x : TheInstance) → slice_get state.old.instances i ≡ Some x → x.block ≡ block → OnOk result (let_go_at state.old i x (TheValue.Ptr (ThePointer.At block offset)) ≡ Ok state.new) }
    ensures refused { (x : TheInstance) → slice_get state.old.instances i ≡ Some x → x.block ≡ block → IfErr result (λ cause. let_go_at state.old i x (TheValue.Ptr (ThePointer.At block offset)) ≡ Err cause) }
    ensures kept { OnErr result (state.new ≡ state.old) }
{
    let Some(instance) = state.instances.get(i) else {
        return Err(Cause::Free);
    };
    if offset.bits != 0 {
        return Err(Cause::Free);
    }
    if !is_allocated(&state.world.memory, block) {
        return Err(Cause::Free);
    }
    if has_block(&instance.slots, block) {
        return Err(Cause::Free);
    }
    kill_all(&mut state.world.memory, &instance.slots);
    state.instances.free(i);
    state.world.memory.disown(block);
    state.world.memory.kill_at(block);
    state.top.at = next;
    Ok(())
}

/// A deallocation where no instance lets its block be freed.
fn free_other(state: &mut State, next: usize, p: Value) -> Result<(), Cause>
    requires { next ≡ state.old.top.at + 1 }
    ensures done { OnOk result (deallocated_other state.old p ≡ Ok state.new) }
    ensures refused { IfErr result (λ cause. deallocated_other state.old p ≡ Err cause) }
    ensures kept { OnErr result (state.new ≡ state.old) }
{
    deallocate(&mut state.world.memory, p)?;
    state.top.at = next;
    Ok(())
}

/// A deallocation at an offset of a block.
fn free_in(state: &mut State, next: usize, block: BlockId, offset: Offset) -> Result<(), Cause>
    requires { next ≡ state.old.top.at + 1 }
    ensures done { OnOk result (deallocate_at state.old (TheValue.Ptr (ThePointer.At block offset)) ≡ Ok state.new) }
    ensures refused { IfErr result (λ cause. deallocate_at state.old (TheValue.Ptr (ThePointer.At block offset)) ≡ Err cause) }
    ensures kept { OnErr result (state.new ≡ state.old) }
{
    let p = Value::Ptr(Pointer::At(block, offset));
    let Some(i) = state.instances.last_at(block, offset.bits) else {
        return free_other(state, next, p);
    };
    let Some(instance) = state.instances.get(i) else {
        return free_other(state, next, p);
    };
    if may_be_freed(instance) {
        free_frame(state, next, i, block, offset)
    } else {
        free_other(state, next, p)
    }
}

/// A deallocation.
pub fn free_at(state: &mut State, next: usize, p: Value) -> Result<(), Cause>
    requires { next ≡ state.old.top.at + 1 }
    ensures done { OnOk result (deallocate_at state.old p ≡ Ok state.new) }
    ensures refused { IfErr result (λ cause. deallocate_at state.old p ≡ Err cause) }
    ensures kept { OnErr result (state.new ≡ state.old) }
{
    match p {
        Value::Ptr(Pointer::At(block, offset)) => free_in(state, next, block, offset),
        _ => free_other(state, next, p),
    }
}
