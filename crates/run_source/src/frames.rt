//! Begin, save and suspend.

ghost use Rattle.std.specs.Prelude.{◌≡◌, ◌+◌, IfErr, IfOk, OnOk, OnErr, Ok, Err, slice_get, ℕ, filter, not, reverse};
ghost use Rattle.std.specs.List.{list_any};
ghost use Rattle.ir_model.specs.TypeView.{bits_of};
ghost use Rattle.ir_paths.specs.Windows.{operand_at};
ghost use Rattle.run_memory.specs.Memory.{with_block, owned_to};
ghost use Rattle.run_source_tables.specs.run_step.Values.{integer};
ghost use Rattle.run_source.specs.State.{gives, with_memory};
ghost use Rattle.run_source_tables.specs.Given.{facts_at};
ghost use Rattle.run_source.specs.Source.{begin as begin_with, begun, is_among, save as save_here, save_for as save_for_suspend, suspend as suspend_with};
ghost use Rattle.run_source.specs.SourceEffects.{given_of, IsStop, begin_in as begin_in_kind};

use crate::blocks::point_of;
use crate::effects::Stop;
use crate::state::{Saved, State};
use ir_base::{Cause, FuncId, Items, ValueId, Word};
use ir_model::{Arg, IntWidth};
use ir_paths::Point;
use run_memory::{BlockId, Kind, Pointer, Value};
use run_source_tables::run_step_library::{Slot, Stack, bits, cut};
use run_source_tables::{SourceProgram, is_none_at};
use run_step_code::set_result;
use std::alloc::{AllocError, Global};

/// A number of a width.
pub fn number(width: IntWidth, z: i128) -> Value
    ensures { result ≡ integer (bits_of width) z }
{
    Value::Int(Word {
        width: bits(width),
        bits: cut(width, z),
    })
}

/// Gives a call its value, and goes on behind it.
pub fn give(state: &mut State, next: usize, result_name: Option<ValueId>, value: Value)
    requires { next ≡ state.old.top.at + 1 }
    ensures { state.new ≡ gives state.old result_name value }
{
    set_result(&mut state.top.values, result_name, value);
    state.top.at = next;
}

/// The slots of an activation: those that its instance gets, and those that stay its own.
#[derive(Drop)]
struct Shares {
    kept: Stack<Slot>,
    own: Stack<Slot>,
}

fn share(
    alloc: Global,
    given: &SourceProgram,
    func: FuncId,
    slots: &[Slot],
) -> Result<Shares, AllocError>
    ensures kept { IfOk result (λ shares. shares.kept ≡ filter (λ slot. not (is_among (facts_at given.now.facts func).ramp_slots slot)) (reverse slots.now)) }
    ensures own { IfOk result (λ shares. shares.own ≡ filter (λ slot. is_among (facts_at given.now.facts func).ramp_slots slot) (reverse slots.now)) }
{
    let mut kept = Stack::new(alloc);
    let mut own = Stack::new(alloc);
    for slot in slots {
        if given.is_ramp_slot(func, slot.alloca) {
            own.push(*slot)?;
        } else {
            kept.push(*slot)?;
        }
    }
    Ok(Shares { kept, own })
}

/// The topmost activation's instance begins at an offset of a block.
pub fn start_at(
    alloc: Global,
    given: &SourceProgram,
    state: &mut State,
    block: BlockId,
    start: u64,
) -> Result<(), AllocError>
    ensures done { OnOk result (state.new ≡ begun (given_of given.now) state.old block start) }
    ensures kept { OnErr result (state.new ≡ state.old) }
{
    let func = state.top.func;
    let shares = share(alloc, given, func, state.top.slots.as_slice())?;
    let i = state.instances.len();
    state.instances.begin(func, block, start, shares.kept)?;
    state.top.slots = shares.own;
    state.top.instance = Some(i);
    Ok(())
}

/// `llvm.coro.begin` at a block.
fn begin_at(
    alloc: Global,
    given: &SourceProgram,
    state: &mut State,
    next: usize,
    result_name: Option<ValueId>,
    mem: Value,
    block: BlockId,
    size: u64,
) -> Result<(), AllocError>
    requires { next ≡ state.old.top.at + 1 }
    ensures done { OnOk result (state.new ≡ gives (begun (given_of given.now) (with_memory state.old (with_block state.old.world.memory block (owned_to size))) block 0) result_name mem) }
    ensures kept { OnErr result (state.new ≡ state.old) }
{
    start_at(alloc, given, state, block, 0)?;
    state.world.memory.own_at(block, size);
    give(state, next, result_name, mem);
    Ok(())
}

/// `llvm.coro.begin` at the start of a block of a kind, which becomes owned.
pub fn begin_in(
    alloc: Global,
    given: &SourceProgram,
    state: &mut State,
    next: usize,
    result_name: Option<ValueId>,
    mem: Value,
    kind: Kind,
) -> Result<(), Stop>
    requires { next ≡ state.old.top.at + 1 }
    ensures done { OnOk result (begin_in_kind (given_of given.now) state.old result_name mem kind ≡ Ok state.new) }
    ensures refused { IfErr result (λ stop. IsStop stop (begin_in_kind (given_of given.now) state.old result_name mem kind)) }
    ensures kept { OnErr result (state.new ≡ state.old) }
{
    let Value::Ptr(Pointer::At(block, offset)) = mem else {
        return Err(Stop::Undefined(Cause::Begin));
    };
    let size = given.frame(state.top.func).size;
    if !state.world.memory.may_own(block, offset, size, kind) {
        return Err(Stop::Undefined(Cause::Begin));
    }
    match begin_at(alloc, given, state, next, result_name, mem, block, size) {
        Ok(()) => Ok(()),
        Err(_) => Err(Stop::NoMemory),
    }
}

/// `llvm.coro.begin`.
pub fn begin(
    alloc: Global,
    given: &SourceProgram,
    state: &mut State,
    next: usize,
    result_name: Option<ValueId>,
    mem: Value,
) -> Result<(), Stop>
    requires { next ≡ state.old.top.at + 1 }
    ensures done { OnOk result (begin_with (given_of given.now) state.old result_name mem ≡ Ok state.new) }
    ensures refused { IfErr result (λ stop. IsStop stop (begin_with (given_of given.now) state.old result_name mem)) }
    ensures kept { OnErr result (state.new ≡ state.old) }
{
    if state.top.instance.is_some() {
        return Err(Stop::Undefined(Cause::Begin));
    }
    begin_in(alloc, given, state, next, result_name, mem, Kind::Allocator)
}

/// Values with the same data.
pub fn copied_values(
    alloc: Global,
    values: &[Option<Value>],
) -> Result<Items<Option<Value>>, AllocError>
    ensures { IfOk result (λ all. all ≡ values.now) }
{
    Ok(Items::from_vec(values.to_vec(alloc)?))
}

/// A save for a suspend: the values are kept in the instance, and the activation has left.
fn save_for(alloc: Global, state: &mut State, save: Point, suspend: Point) -> Result<(), Stop>
    ensures done { OnOk result (save_for_suspend state.old save suspend ≡ Ok state.new) }
    ensures refused { IfErr result (λ stop. IsStop stop (save_for_suspend state.old save suspend)) }
    ensures kept { OnErr result (state.new ≡ state.old) }
{
    let Some(i) = state.top.instance else {
        return Err(Stop::Undefined(Cause::State));
    };
    let Some(instance) = state.instances.get(i) else {
        return Err(Stop::Undefined(Cause::State));
    };
    if instance.freed {
        return Err(Stop::Undefined(Cause::State));
    }
    let Ok(values) = copied_values(alloc, state.top.values.as_slice()) else {
        return Err(Stop::NoMemory);
    };
    let saved = Saved {
        depth: state.below.len(),
        save,
    };
    state.instances.suspend(i, suspend, values, saved);
    state.top.has_left = true;
    Ok(())
}

/// `llvm.coro.save`.
pub fn save(
    alloc: Global,
    given: &SourceProgram,
    state: &mut State,
    next: usize,
) -> Result<(), Stop>
    requires { next ≡ state.old.top.at + 1 }
    ensures done { OnOk result (save_here (given_of given.now) state.old ≡ Ok state.new) }
    ensures refused { IfErr result (λ stop. IsStop stop (save_here (given_of given.now) state.old)) }
    ensures kept { OnErr result (state.new ≡ state.old) }
{
    let point = point_of(state);
    let Some(suspend) = given.suspend_of(state.top.func, point) else {
        return Err(Stop::Undefined(Cause::State));
    };
    save_for(alloc, state, point, suspend)?;
    state.top.at = next;
    Ok(())
}

/// `llvm.coro.suspend`, which saves right before itself where it has no token.
pub fn suspend(
    alloc: Global,
    state: &mut State,
    next: usize,
    result_name: Option<ValueId>,
    args: &[Arg],
) -> Result<(), Stop>
    requires { next ≡ state.old.top.at + 1 }
    ensures done { OnOk result (suspend_with state.old result_name (operand_at args.now 0) ≡ Ok state.new) }
    ensures refused { IfErr result (λ stop. IsStop stop (suspend_with state.old result_name (operand_at args.now 0))) }
    ensures kept { OnErr result (state.new ≡ state.old) }
{
    if is_none_at(args, 0) {
        let point = point_of(state);
        save_for(alloc, state, point, point)?;
    }
    give(state, next, result_name, number(IntWidth::I8, -1));
    Ok(())
}
