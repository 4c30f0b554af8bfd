//! Entering a block, also out of a window.

ghost use Rattle.std.specs.Prelude.{◌≡◌, ◌+◌, IfErr, OnOk, OnErr, Ok, Err, slice_get, IfSome, None, Some, filter, length, [], ℕ, List};
ghost use Rattle.std.specs.List.{list_all};
ghost use Rattle.ir_model.specs.Names.{function_at, position_of};
ghost use Rattle.ir_paths.specs.Paths.{entry_point as entry_point_of};
ghost use Rattle.ir_paths.specs.Windows.{leaves as leaves_window};
ghost use Rattle.run_source.specs.State.{function_of, own_instance, point_of as point_of_state};
ghost use Rattle.run_source.specs.Source.{enter_block as enter_block_of, go_to as go_to_label, leave as leave_by, may_leave as may_leave_by, is_save as is_save_of, left_windows};
ghost use Rattle.run_source.specs.SourceEffects.{given_of, IsStop};
ghost use Rattle.run_source_tables.specs.Lookups.{not_empty};
ghost use Rattle.run_source.specs.declared.effects.Stop.{Stop as TheStop};
ghost use Rattle.run_source.specs.declared.state.Instance.{Instance as TheInstance};

use crate::effects::Stop;
use crate::state::{Instance, Saved, State, Status};
use ir_base::{Cause, ValueId};
use ir_paths::{Point, Window};
use run_source_tables::{SourceProgram, leaves, same_point};
use run_step_code::enter_label;
use std::alloc::{AllocError, Global};

/// The point at which the topmost activation stands.
pub fn point_of(state: &State) -> Point
    ensures { result ≡ point_of_state state.now }
{
    Point {
        block: state.top.block,
        at: state.top.at,
    }
}

/// The topmost activation enters the block of a label.
pub fn enter_block(
    alloc: Global,
    given: &SourceProgram,
    state: &mut State,
    label: ValueId,
) -> Result<(), AllocError>
    ensures done { OnOk result (state.new ≡ enter_block_of (given_of given.now) state.old label) }
    ensures kept { OnErr result (state.new ≡ state.old) }
{
    let func = state.top.func;
    let from = state.top.block;
    let block = enter_label(
        alloc,
        &given.program,
        func,
        from,
        &mut state.top.values,
        label,
    )?;
    state.top.block = block;
    state.top.at = 0;
    Ok(())
}

fn is_save(depth: usize, save: Point, last: Option<Saved>) -> bool
    ensures { result ≡ is_save_of depth save last }
{
    match last {
        None => false,
        Some(saved) => saved.depth == depth && same_point(saved.save, save),
    }
}

/// Whether an instance's last save is that of a window, by the activation with so many below it.
fn may_leave(depth: usize, instance: &Instance, window: &Window) -> bool
    ensures { result ≡ may_leave_by depth instance.now window.now }
{
    match &instance.status {
        Status::Suspended(_, _) => is_save(depth, window.save, instance.last_save),
        _ => false,
    }
}

/// Whether an edge leaves one of these windows.
fn leaves_any(p: Point, q: Point, windows: &[Window]) -> bool
    ensures { result ≡ not_empty (filter (λ w. leaves_window p q w) windows.now) }
{
    for window in windows {
        if leaves(p, q, window) {
            return true;
        }
    }
    false
}

/// Whether an instance may leave each of the windows that an edge leaves.
fn may_leave_all(depth: usize, instance: &Instance, p: Point, q: Point, windows: &[Window]) -> bool
    ensures { result ≡ list_all (λ w. may_leave_by depth instance.now w) (filter (λ w. leaves_window p q w) windows.now) }
{
    for window in windows {
        if leaves(p, q, window) && !may_leave(depth, instance, window) {
            return false;
        }
    }
    true
}

/// The branch to a label leaves these windows, one at least.
fn leave(
    alloc: Global,
    given: &SourceProgram,
    state: &mut State,
    label: ValueId,
    p: Point,
    q: Point,
    windows: &[Window],
) -> Result<(), Stop>
    ensures done { OnOk result (leave_by (given_of given.now) state.old label (filter (λ w. leaves_window p q w) windows.now) ≡ Ok state.new) }
    ensures refused { IfErr result (λ stop. IsStop stop (leave_by (given_of given.now) state.old label (filter (λ w. leaves_window p q w) windows.now))) }
    ensures kept { OnErr result (state.new ≡ state.old) }
{
    let Some(i) = state.top.instance else {
        return Err(Stop::Undefined(Cause::State));
    };
    let Some(instance) = state.instances.get(i) else {
        return Err(Stop::Undefined(Cause::State));
    };
    if !may_leave_all(state.below.len(), instance, p, q, windows) {
        return Err(Stop::Undefined(Cause::State));
    }
    let Ok(()) = enter_block(alloc, given, state, label) else {
        return Err(Stop::NoMemory);
    };
    state.instances.run(i);
    state.top.has_left = false;
    Ok(())
}

/// Enters the block of a label, where no window is left.
fn enter_plainly(
    alloc: Global,
    given: &SourceProgram,
    state: &mut State,
    label: ValueId,
) -> Result<(), Stop>
    ensures done { OnOk result (state.new ≡ enter_block_of (given_of given.now) state.old label) }
    ensures refused { IfErr result (λ stop. stop ≡ TheStop.NoMemory) }
    ensures kept { OnErr result (state.new ≡ state.old) }
{
    match enter_block(alloc, given, state, label) {
        Ok(()) => Ok(()),
        Err(_) => Err(Stop::NoMemory),
    }
}

/// The branch to a label, by a look at the windows of its function.
fn go_by_windows(
    alloc: Global,
    given: &SourceProgram,
    state: &mut State,
    label: ValueId,
) -> Result<(), Stop>
    ensures done { OnOk result (go_to_label (given_of given.now) state.old label ≡ Ok state.new) }
    ensures refused { IfErr result (λ stop. IsStop stop (go_to_label (given_of given.now) state.old label)) }
    ensures kept { OnErr result (state.new ≡ state.old) }
{
    let func = state.top.func;
    let p = point_of(state);
    let q = Point {
        block: given.program.position(func, label),
        at: 0,
    };
    match given.facts.get(func) {
        None => enter_plainly(alloc, given, state, label),
        Some(facts) => {
            let windows = facts.windows.as_slice();
            if leaves_any(p, q, windows) {
                leave(alloc, given, state, label, p, q, windows)
            } else {
                enter_plainly(alloc, given, state, label)
            }
        }
    }
}

/// The branch to a label.
pub fn go_to(
    alloc: Global,
    given: &SourceProgram,
    state: &mut State,
    label: ValueId,
) -> Result<(), Stop>
    ensures done { OnOk result (go_to_label (given_of given.now) state.old label ≡ Ok state.new) }
    ensures refused { IfErr result (λ stop. IsStop stop (go_to_label (given_of given.now) state.old label)) }
    ensures kept { OnErr result (state.new ≡ state.old) }
{
    if given.may_be_left(state.top.func, state.top.block) {
        go_by_windows(alloc, given, state, label)
    } else {
        enter_plainly(alloc, given, state, label)
    }
}
