//! Resume, destroy, done and the promise.

ghost use Rattle.std.specs.Prelude.{◌≡◌, ◌+◌, IfErr, IfOk, OnOk, OnErr, Ok, Err, List, [], ◌∷◌, Some, slice_get, slice_set};
ghost use Rattle.run_source_tables.specs.run_step.Values.{Env};
ghost use Rattle.run_source.specs.declared.state.Activation.{Activation as TheActivation};
ghost use Rattle.run_source.specs.declared.state.Instance.{Instance as TheInstance};
ghost use Rattle.run_source.specs.declared.state.Status.{Status as TheStatus};
ghost use Rattle.run_source.specs.Source.{sleeper_at, Continues, continue, resume as resume_by, destroy as destroy_by, done_at};
ghost use Rattle.run_source.specs.SourceEffects.{given_of, IsStop, IsSleeping, woken as woken_with};
ghost use Rattle.run_source_tables.specs.Given.{Given};

use crate::blocks::enter_block;
use crate::calls::push;
use crate::effects::Stop;
use crate::frames::give;
use crate::state::{Activation, Mode, State, Status};
use ir_base::{Cause, FuncId, Items, ValueId};
use ir_paths::Point;
use run_memory::Value;
use run_source_tables::SourceProgram;
use run_source_tables::run_step_library::{Stack, truth};
use std::alloc::{AllocError, Global};
use std::mem;

/// A suspended instance: its number, its coroutine and its suspend.
#[derive(Clone, Copy, Debug, PartialEq, Eq, Drop)]
pub struct Sleeping {
    pub instance: usize,
    pub coroutine: FuncId,
    pub suspend: Point,
}

/// The suspended instance of a frame address.
fn sleeping_at(state: &State, p: Value) -> Result<Sleeping, Cause>
    ensures found { IfOk result (λ sleeping. IsSleeping state.now p sleeping) }
    ensures refused { IfErr result (λ cause. sleeper_at state.now p ≡ Err cause) }
{
    let Some(i) = state.instances.place(p) else {
        return Err(Cause::Frame);
    };
    let Some(instance) = state.instances.get(i) else {
        return Err(Cause::Frame);
    };
    match &instance.status {
        Status::Suspended(suspend, _) => Ok(Sleeping {
            instance: i,
            coroutine: instance.coroutine,
            suspend: *suspend,
        }),
        _ => Err(Cause::State),
    }
}

/// An activation of a suspended instance, with values.
pub fn woken(alloc: Global, sleeping: Sleeping, values: Items<Option<Value>>) -> Activation
    ensures { result ≡ woken_with sleeping values }
{
    Activation {
        func: sleeping.coroutine,
        block: sleeping.suspend.block,
        at: sleeping.suspend.at,
        values,
        slots: Stack::new(alloc),
        result: None,
        mode: Mode::Resumed,
        instance: Some(sleeping.instance),
        has_left: false,
    }
}

/// Takes an activation that found no memory away again, and keeps its values in its instance as before.
fn fall_asleep(alloc: Global, state: &mut State, sleeping: Sleeping, at: usize)
    ensures { (x : TheInstance) (under : TheActivation) (rest : List TheActivation) → slice_get state.old.instances sleeping.instance ≡ Some x → state.old.below ≡ under ∷ rest → state.new ≡ record state.old { instances = slice_set state.old.instances sleeping.instance (record x { status = TheStatus.Suspended sleeping.suspend state.old.top.values }); top = record under { at = at }; below = rest } }
{
    let values = mem::replace(&mut state.top.values, Items::new(alloc));
    state
        .instances
        .put_back(sleeping.instance, sleeping.suspend, values);
    if let Some(under) = state.below.pop() {
        state.top = under;
        state.top.at = at;
    }
}

/// Goes on with the kept values.
fn go_on_with_values(
    alloc: Global,
    given: &SourceProgram,
    state: &mut State,
    next: usize,
    sleeping: Sleeping,
    label: ValueId,
) -> Result<(), AllocError>
    requires { next ≡ state.old.top.at + 1 }
    ensures done { (x : TheInstance) (values : Env) → slice_get state.old.instances sleeping.instance ≡ Some x → x.coroutine ≡ sleeping.coroutine → x.status ≡ TheStatus.Suspended sleeping.suspend values → OnOk result (state.new ≡ continue (given_of given.now) state.old sleeping.instance x sleeping.suspend values label) }
    ensures kept { (x : TheInstance) (values : Env) → slice_get state.old.instances sleeping.instance ≡ Some x → x.status ≡ TheStatus.Suspended sleeping.suspend values → OnErr result (state.new ≡ state.old) }
{
    let at = state.top.at;
    push(state, next, woken(alloc, sleeping, Items::new(alloc)))?;
    state.top.values = state.instances.wake(alloc, sleeping.instance);
    match enter_block(alloc, given, state, label) {
        Ok(()) => Ok(()),
        Err(error) => {
            fall_asleep(alloc, state, sleeping, at);
            Err(error)
        }
    }
}

/// How a run goes on at a label behind the suspend of an instance. Where there is no memory for it, nothing changes.
pub trait GoesOn {
    ghost goes: { Self → Given → Continues };

    /// Goes on at a label.
    fn go_on(
        &self,
        alloc: Global,
        given: &SourceProgram,
        state: &mut State,
        next: usize,
        sleeping: Sleeping,
        label: ValueId,
    ) -> Result<(), AllocError>
        requires { next ≡ state.old.top.at + 1 }
        ensures done { (x : TheInstance) (values : Env) → slice_get state.old.instances sleeping.instance ≡ Some x → x.coroutine ≡ sleeping.coroutine → x.status ≡ TheStatus.Suspended sleeping.suspend values → OnOk result (state.new ≡ goes self.now (given_of given.now) state.old sleeping.instance x sleeping.suspend values label) }
        ensures kept { (x : TheInstance) (values : Env) → slice_get state.old.instances sleeping.instance ≡ Some x → x.status ≡ TheStatus.Suspended sleeping.suspend values → OnErr result (state.new ≡ state.old) };
}

/// A source goes on with the kept values.
#[derive(Clone, Copy, Debug, Drop)]
pub struct ByValues;

impl GoesOn for ByValues {
    ghost goes = { λ _ g. continue g };

    fn go_on(
        &self,
        alloc: Global,
        given: &SourceProgram,
        state: &mut State,
        next: usize,
        sleeping: Sleeping,
        label: ValueId,
    ) -> Result<(), AllocError> {
        go_on_with_values(alloc, given, state, next, sleeping, label)
    }
}

/// `llvm.coro.resume`.
pub fn resume<G: GoesOn>(
    alloc: Global,
    by: &G,
    given: &SourceProgram,
    state: &mut State,
    next: usize,
    p: Value,
) -> Result<(), Stop>
    requires { next ≡ state.old.top.at + 1 }
    ensures done { OnOk result (resume_by (given_of given.now) (G.goes by.now (given_of given.now)) state.old p ≡ Ok state.new) }
    ensures refused { IfErr result (λ stop. IsStop stop (resume_by (given_of given.now) (G.goes by.now (given_of given.now)) state.old p)) }
    ensures kept { OnErr result (state.new ≡ state.old) }
{
    let sleeping = match sleeping_at(state, p) {
        Ok(sleeping) => sleeping,
        Err(cause) => return Err(Stop::Undefined(cause)),
    };
    if given.is_final(sleeping.coroutine, sleeping.suspend) {
        return Err(Stop::Undefined(Cause::State));
    }
    let label = given.resume_label(sleeping.coroutine, sleeping.suspend);
    match by.go_on(alloc, given, state, next, sleeping, label) {
        Ok(()) => Ok(()),
        Err(_) => Err(Stop::NoMemory),
    }
}

/// `llvm.coro.destroy`.
pub fn destroy<G: GoesOn>(
    alloc: Global,
    by: &G,
    given: &SourceProgram,
    state: &mut State,
    next: usize,
    p: Value,
) -> Result<(), Stop>
    requires { next ≡ state.old.top.at + 1 }
    ensures done { OnOk result (destroy_by (given_of given.now) (G.goes by.now (given_of given.now)) state.old p ≡ Ok state.new) }
    ensures refused { IfErr result (λ stop. IsStop stop (destroy_by (given_of given.now) (G.goes by.now (given_of given.now)) state.old p)) }
    ensures kept { OnErr result (state.new ≡ state.old) }
{
    let sleeping = match sleeping_at(state, p) {
        Ok(sleeping) => sleeping,
        Err(cause) => return Err(Stop::Undefined(cause)),
    };
    let label = given.destroy_label(sleeping.coroutine, sleeping.suspend);
    match by.go_on(alloc, given, state, next, sleeping, label) {
        Ok(()) => Ok(()),
        Err(_) => Err(Stop::NoMemory),
    }
}

/// `llvm.coro.done`.
pub fn done(
    given: &SourceProgram,
    state: &mut State,
    next: usize,
    result_name: Option<ValueId>,
    p: Value,
) -> Result<(), Cause>
    requires { next ≡ state.old.top.at + 1 }
    ensures done { OnOk result (done_at (given_of given.now) state.old result_name p ≡ Ok state.new) }
    ensures refused { IfErr result (λ cause. done_at (given_of given.now) state.old result_name p ≡ Err cause) }
    ensures kept { OnErr result (state.new ≡ state.old) }
{
    let sleeping = sleeping_at(state, p)?;
    if !given.has_final(sleeping.coroutine) {
        return Err(Cause::State);
    }
    let is_final = given.is_final(sleeping.coroutine, sleeping.suspend);
    give(state, next, result_name, truth(is_final));
    Ok(())
}
