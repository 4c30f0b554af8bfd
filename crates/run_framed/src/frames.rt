//! Begin, free and end of a coroutine whose frame may be given to it.

ghost use Rattle.std.specs.Prelude.{◌≡◌, ◌+◌, ◌==◌, ◌&&◌, IfErr, OnOk, OnErr, Ok, if◌then◌else◌};
ghost use Rattle.run_memory.specs.Memory.{disown, same_kind};
ghost use Rattle.run_memory.specs.declared.block.Kind.{Kind as TheKind};
ghost use Rattle.run_memory.specs.declared.pointer.Pointer.{Pointer as ThePointer};
ghost use Rattle.run_memory.specs.declared.pointer.Value.{Value as TheValue};
ghost use Rattle.run_source.specs.Source.{end_of, release};
ghost use Rattle.run_source.specs.SourceEffects.{IsStop};
ghost use Rattle.run_source.specs.State.{gives, own_instance};
ghost use Rattle.run_framed.specs.Framed.{allocates as allocates_in, are_finished_at as are_finished_at_value, begin_given as begin_given_with, begin_in_block as begin_in_block_with, begin_in_frame as begin_in_frame_with, frame_around, framed_begin, framed_finish, freed_address as freed_address_of, has_room as has_room_for, has_size as has_size_in, is_given as is_given_in, is_stack_block as is_stack_block_in};
ghost use Rattle.run_step.specs.Results.{and_then};
ghost use Rattle.run_framed.specs.FramedEffects.{framed_of};

use crate::judging::{Wanted, has_room_in, last_wanted};
use crate::program::FramedProgram;
use ir_base::{Cause, ValueId};
use run_memory::{BlockId, Kind, Memory, Offset, Pointer, Value};
use run_source::ending::{after_end, finish, release_with};
use run_source::frames::{begin, begin_in, give, start_at};
use run_source::promise::{frame_address_of, is_live_at, is_over};
use run_source::{Instance, Mode, State, Stop};
use std::alloc::Global;

/// Whether an activation's `llvm.coro.alloc` is true.
pub fn allocates(mode: Mode) -> bool
    ensures { result ≡ allocates_in mode }
{
    match mode {
        Mode::GivenRamp(_) => false,
        _ => true,
    }
}

/// Whether a block has just a size.
fn has_size(memory: &Memory, block: BlockId, size: u64) -> bool
    ensures { result ≡ has_size_in memory.now block size }
{
    match memory.get(block) {
        None => false,
        Some(x) => x.size == size,
    }
}

fn is_stack(kind: Kind) -> bool
    ensures { result ≡ same_kind kind TheKind.Stack }
{
    match kind {
        Kind::Stack => true,
        _ => false,
    }
}

fn is_stack_block(memory: &Memory, block: BlockId) -> bool
    ensures { result ≡ is_stack_block_in memory.now block }
{
    match memory.get(block) {
        None => false,
        Some(x) => is_stack(x.kind),
    }
}

/// Whether the instances that began at an offset of a block are Finished.
fn are_finished_from(program: &FramedProgram, state: &State, block: BlockId, offset: Offset) -> bool
    ensures { result ≡ are_finished_at_value state.now.instances (TheValue.Ptr (ThePointer.At block offset)) }
{
    let wanted = Wanted::Unfinished(offset.bits);
    match last_wanted(program, &state.instances, block, wanted) {
        None => true,
        Some(_) => false,
    }
}

/// Whether the instances that began at an address are Finished.
fn are_finished_at(program: &FramedProgram, state: &State, frame: Value) -> bool
    ensures { result ≡ are_finished_at_value state.now.instances frame }
{
    match frame {
        Value::Ptr(Pointer::At(block, offset)) => {
            are_finished_from(program, state, block, offset)
        }
        _ => true,
    }
}

/// `llvm.coro.begin` at the start of a live stack block of just the frame's size.
fn begin_in_block(
    alloc: Global,
    program: &FramedProgram,
    state: &mut State,
    next: usize,
    result_name: Option<ValueId>,
    block: BlockId,
    offset: Offset,
) -> Result<(), Stop>
    requires { next ≡ state.old.top.at + 1 }
    ensures done { OnOk result (and_then (begin_in_block_with (framed_of program.now) state.old block offset) (λ s. Ok (gives s result_name (TheValue.Ptr (ThePointer.At block offset)))) ≡ Ok state.new) }
    ensures refused { IfErr result (λ stop. IsStop stop (and_then (begin_in_block_with (framed_of program.now) state.old block offset) (λ s. Ok (gives s result_name (TheValue.Ptr (ThePointer.At block offset)))))) }
    ensures kept { OnErr result (state.new ≡ state.old) }
{
    let size = program.given.frame(state.top.func).size;
    if offset.bits != 0 || !has_size(&state.world.memory, block, size) {
        return Err(Stop::Undefined(Cause::Begin));
    }
    let frame = Value::Ptr(Pointer::At(block, offset));
    begin_in(
        alloc,
        &program.given,
        state,
        next,
        result_name,
        frame,
        Kind::Stack,
    )
}

/// Whether an offset of a block is that of a field for a callee's frame of just a size.
fn has_room(program: &FramedProgram, state: &State, block: BlockId, offset: u64, size: u64) -> bool
    ensures { result ≡ has_room_for (framed_of program.now) offset size (frame_around (framed_of program.now) state.now.instances block offset) }
{
    let wanted = Wanted::Around(offset);
    let Some(i) = last_wanted(program, &state.instances, block, wanted) else {
        return false;
    };
    match state.instances.get(i) {
        None => false,
        Some(instance) => !is_over(instance) && has_room_in(program, offset, size, instance),
    }
}

/// `llvm.coro.begin` at a field of a frame in a live block.
fn begin_in_frame(
    alloc: Global,
    program: &FramedProgram,
    state: &mut State,
    next: usize,
    result_name: Option<ValueId>,
    block: BlockId,
    offset: Offset,
) -> Result<(), Stop>
    requires { next ≡ state.old.top.at + 1 }
    ensures done { OnOk result (and_then (begin_in_frame_with (framed_of program.now) state.old block offset) (λ s. Ok (gives s result_name (TheValue.Ptr (ThePointer.At block offset)))) ≡ Ok state.new) }
    ensures refused { IfErr result (λ stop. IsStop stop (and_then (begin_in_frame_with (framed_of program.now) state.old block offset) (λ s. Ok (gives s result_name (TheValue.Ptr (ThePointer.At block offset)))))) }
    ensures kept { OnErr result (state.new ≡ state.old) }
{
    if !is_live_at(&state.world.memory, block) {
        return Err(Stop::Undefined(Cause::Begin));
    }
    match start_at(alloc, &program.given, state, block, offset.bits) {
        Ok(()) => {
            give(
                state,
                next,
                result_name,
                Value::Ptr(Pointer::At(block, offset)),
            );
            Ok(())
        }
        Err(_) => Err(Stop::NoMemory),
    }
}

/// `llvm.coro.begin` of a ramp that is given the address of its frame.
fn begin_given(
    alloc: Global,
    program: &FramedProgram,
    state: &mut State,
    next: usize,
    result_name: Option<ValueId>,
    frame: Value,
) -> Result<(), Stop>
    requires { next ≡ state.old.top.at + 1 }
    ensures done { OnOk result (begin_given_with (framed_of program.now) state.old result_name frame ≡ Ok state.new) }
    ensures refused { IfErr result (λ stop. IsStop stop (begin_given_with (framed_of program.now) state.old result_name frame)) }
    ensures kept { OnErr result (state.new ≡ state.old) }
{
    if state.top.instance.is_some() {
        return Err(Stop::Undefined(Cause::Begin));
    }
    if !are_finished_at(program, state, frame) {
        return Err(Stop::Undefined(Cause::Begin));
    }
    let Value::Ptr(Pointer::At(block, offset)) = frame else {
        return Err(Stop::Undefined(Cause::Begin));
    };
    let size = program.given.frame(state.top.func).size;
    if has_room(program, state, block, offset.bits, size) {
        begin_in_frame(alloc, program, state, next, result_name, block, offset)
    } else {
        begin_in_block(alloc, program, state, next, result_name, block, offset)
    }
}

/// `llvm.coro.begin`.
pub fn begin_framed(
    alloc: Global,
    program: &FramedProgram,
    state: &mut State,
    next: usize,
    result_name: Option<ValueId>,
    mem: Value,
) -> Result<(), Stop>
    requires { next ≡ state.old.top.at + 1 }
    ensures done { OnOk result (framed_begin (framed_of program.now) state.old result_name mem state.old.top.mode ≡ Ok state.new) }
    ensures refused { IfErr result (λ stop. IsStop stop (framed_begin (framed_of program.now) state.old result_name mem state.old.top.mode)) }
    ensures kept { OnErr result (state.new ≡ state.old) }
{
    match state.top.mode {
        Mode::GivenRamp(frame) => begin_given(alloc, program, state, next, result_name, frame),
        _ => begin(alloc, &program.given, state, next, result_name, mem),
    }
}

/// Whether the frame of an instance was given to its ramp.
fn is_given(memory: &Memory, instance: &Instance) -> bool
    ensures { result ≡ is_given_in memory.now instance.now }
{
    is_stack_block(memory, instance.block) || instance.start != 0
}

/// What `llvm.coro.free` gives: null for a frame that was given.
fn freed_address(state: &State) -> Value
    ensures { result ≡ freed_address_of state.now.world.memory (own_instance state.now) }
{
    let Some(i) = state.top.instance else {
        return Value::Poison;
    };
    match state.instances.get(i) {
        None => Value::Poison,
        Some(instance) => {
            if is_given(&state.world.memory, instance) {
                Value::Ptr(Pointer::Null)
            } else {
                frame_address_of(instance)
            }
        }
    }
}

/// `llvm.coro.free`.
pub fn free(state: &mut State, next: usize, result_name: Option<ValueId>)
    requires { next ≡ state.old.top.at + 1 }
    ensures { state.new ≡ gives (release state.old) result_name (freed_address_of state.old.world.memory (own_instance state.old)) }
{
    let address = freed_address(state);
    release_with(state, next, result_name, address);
}

/// The stack block at whose start a frame lies is owned no more.
fn disown_stack(memory: &mut Memory, block: BlockId, start: u64)
    ensures { memory.new ≡ (if is_stack_block_in memory.old block && (start == 0) then disown memory.old block else memory.old) }
{
    if start == 0 && is_stack_block(memory, block) {
        memory.disown(block);
    }
}

/// The instance of the topmost activation is Finished, and gives up a block that was given to it.
fn finish_framed(state: &mut State)
    ensures { state.new ≡ framed_finish state.old }
{
    let Some(i) = state.top.instance else {
        return;
    };
    let Some(instance) = state.instances.get(i) else {
        return;
    };
    let block = instance.block;
    let start = instance.start;
    finish(state);
    disown_stack(&mut state.world.memory, block, start);
}

/// `llvm.coro.end`.
pub fn end(state: &mut State, next: usize, result_name: Option<ValueId>)
    requires { next ≡ state.old.top.at + 1 }
    ensures { end_of state.old framed_finish result_name ≡ Ok state.new }
{
    if !state.top.has_left {
        finish_framed(state);
    }
    after_end(state, next, result_name);
}
