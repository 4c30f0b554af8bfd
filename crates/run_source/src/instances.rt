//! The coroutines that were started.

ghost use Rattle.std.specs.Prelude.{◌≡◌, ◌<◌, ℕ, List, [], ◌∷◌, ◌++◌, length, slice_get, slice_set, MatchOption, None, Some, OnOk, OnErr, IfSome, true, option_and_then, if◌then◌else◌};
ghost use Rattle.run_source.specs.State.{instance_at, numbered, last_from, began_at};
ghost use Rattle.run_source.specs.Indexes.{last_of, number_at};
ghost use Rattle.run_source.specs.Source.{new_instance};
ghost use Rattle.run_source.specs.declared.state.Instance.{Instance as TheInstance};
ghost use Rattle.run_source.specs.declared.state.Status.{Status as TheStatus};
ghost use Rattle.ir_paths.specs.declared.point.Point.{Point as ThePoint};
ghost use Rattle.run_source_tables.specs.run_step.Values.{Env};
ghost use Rattle.run_source_tables.specs.run_step.declared.world.Slot.{Slot as TheSlot};

use crate::state::{Instance, Instances, Saved, Status};
use ir_base::{FuncId, Items};
use ir_paths::Point;
use run_memory::{BlockId, Pointer, Value};
use run_source_tables::run_step_library::{Slot, Stack};
use std::alloc::{AllocError, AllocFailed, Global};
use std::mem;

/// The number at a position of a table, if there is one.
fn number_in(table: &[Option<usize>], at: usize) -> Option<usize>
    ensures { result ≡ number_at table.now at }
{
    match table.get(at) {
        None => None,
        Some(number) => *number,
    }
}

/// Makes a table long enough for a position, with nothing at those that are new.
fn reach(table: &mut Vec<Option<usize>>, at: usize) -> Result<(), AllocError>
    ensures same { (i : ℕ) → number_at table.new.items i ≡ number_at table.old.items i }
    ensures reached { OnOk result (at < length table.new.items) }
{
    while table.len() <= at {
        table.push(None)?;
    }
    Ok(())
}

/// Whether an instance began at an offset of a block.
fn began_at(instance: &Instance, block: BlockId, offset: u64) -> bool
    ensures { result ≡ began_at block offset instance.now }
{
    instance.block == block && instance.start == offset
}

fn set_status(instance: &mut Instance, status: Status)
    ensures { instance.new ≡ record instance.old { status = status } }
{
    instance.status = status;
}

/// An instance is Suspended at a point, with the values that are kept there.
fn sleep(instance: &mut Instance, suspend: Point, values: Items<Option<Value>>, saved: Saved)
    ensures { instance.new ≡ record instance.old { status = TheStatus.Suspended suspend values; last_save = Some saved } }
{
    instance.status = Status::Suspended(suspend, values);
    instance.last_save = Some(saved);
}

/// Takes the kept values out of a Suspended instance, which is Running then.
fn wake(alloc: Global, instance: &mut Instance) -> Items<Option<Value>>
    ensures taken { (suspend : ThePoint) (values : Env) → instance.old.status ≡ TheStatus.Suspended suspend values → result ≡ values }
    ensures left { instance.new ≡ record instance.old { status = TheStatus.Running } }
{
    match mem::replace(&mut instance.status, Status::Running) {
        Status::Suspended(_, values) => values,
        _ => Items::new(alloc),
    }
}

/// Takes the newest of an instance's slots away.
fn drop_slot(instance: &mut Instance)
    ensures dropped { (slot : TheSlot) (slots : List TheSlot) → instance.old.slots ≡ slot ∷ slots → instance.new ≡ record instance.old { slots = slots } }
    ensures block { instance.new.block ≡ instance.old.block }
{
    let _ = instance.slots.pop();
}

impl Instances {
    /// No instance.
    pub fn new(alloc: Global) -> Self
        ensures { result ≡ [] }
    {
        Instances {
            list: Vec::new(alloc),
            last: Vec::new(alloc),
            earlier: Vec::new(alloc),
        }
    }

    /// How many there are.
    pub fn len(&self) -> usize
        ensures { result ≡ length self.now }
    {
        self.list.len()
    }

    /// The instance with a number.
    pub fn get(&self, i: usize) -> Option<&Instance>
        ensures { MatchOption result (slice_get self.now i ≡ None) (λ x. slice_get self.now i ≡ Some x.now) }
    {
        self.list.get(i)
    }

    /// All of them, in order.
    pub fn as_slice(&self) -> &[Instance]
        ensures { result.now ≡ self.now }
    {
        self.list.as_slice()
    }

    /// The number of the last instance that began at an offset of a block: only those that began in it are looked at.
    pub fn last_at(&self, block: BlockId, offset: u64) -> Option<usize>
        ensures number { result ≡ last_from (began_at block offset) 0 self.now }
        ensures there { IfSome result (λ i. (x : TheInstance) → slice_get self.now i ≡ Some x → began_at block offset x ≡ true) }
    {
        let mut candidate = self.last_in(block);
        while let Some(i) = candidate {
            let Some(instance) = self.get(i) else {
                return None;
            };
            if began_at(instance, block, offset) {
                return Some(i);
            }
            candidate = self.before(i);
        }
        None
    }

    /// The number of the last instance that began in a block.
    pub fn last_in(&self, block: BlockId) -> Option<usize>
        ensures { result ≡ last_of block (length self.now) self.now }
    {
        number_in(self.last.as_slice(), block)
    }

    /// The number of the instance that began before one in the same block.
    pub fn before(&self, i: usize) -> Option<usize>
        ensures { (x : TheInstance) → slice_get self.now i ≡ Some x → result ≡ last_of x.block i self.now }
    {
        number_in(self.earlier.as_slice(), i)
    }

    /// The number of the instance whose frame address a value is.
    pub fn place(&self, p: Value) -> Option<usize>
        ensures { instance_at self.now p ≡ option_and_then (numbered self.now) result }
    {
        match p {
            Value::Ptr(Pointer::At(block, offset)) => self.last_at(block, offset.bits),
            _ => None,
        }
    }

    /// A coroutine begins at an offset of a block, with slots. Where there is no memory for it, nothing changes.
    pub fn begin(
        &mut self,
        coroutine: FuncId,
        block: BlockId,
        start: u64,
        slots: Stack<Slot>,
    ) -> Result<(), AllocError>
        ensures ok { OnOk result (self.new ≡ self.old ++ (record (new_instance coroutine block start) { slots = slots }) ∷ []) }
        ensures err { OnErr result (self.new ≡ self.old) }
    {
        let i = self.list.len();
        reach(&mut self.last, block)?;
        self.earlier.push(number_in(self.last.as_slice(), block))?;
        let begun = self.list.push(Instance {
            coroutine,
            block,
            start,
            slots,
            status: Status::Running,
            last_save: None,
            released: false,
            freed: false,
        });
        match begun {
            Ok(()) => {
                self.last[block] = Some(i);
                Ok(())
            }
            Err(_) => {
                let _ = self.earlier.pop();
                Err(AllocError)
            }
        }
    }

    /// An instance is Running, and what was kept in it is let go.
    pub fn run(&mut self, i: usize)
        ensures { (x : TheInstance) → slice_get self.old i ≡ Some x → self.new ≡ slice_set self.old i (record x { status = TheStatus.Running }) }
    {
        if i < self.list.len() {
            set_status(&mut self.list[i], Status::Running);
        }
    }

    /// An instance is Finished.
    pub fn finish(&mut self, i: usize)
        ensures { (x : TheInstance) → slice_get self.old i ≡ Some x → self.new ≡ slice_set self.old i (record x { status = TheStatus.Finished }) }
    {
        if i < self.list.len() {
            set_status(&mut self.list[i], Status::Finished);
        }
    }

    /// An instance is Suspended at a point, with the values that are kept there.
    pub fn suspend(&mut self, i: usize, suspend: Point, values: Items<Option<Value>>, saved: Saved)
        ensures { (x : TheInstance) → slice_get self.old i ≡ Some x → self.new ≡ slice_set self.old i (record x { status = TheStatus.Suspended suspend values; last_save = Some saved }) }
    {
        if i < self.list.len() {
            sleep(&mut self.list[i], suspend, values, saved);
        }
    }

    /// An instance is Suspended again, with the values that were taken out of it.
    pub fn put_back(&mut self, i: usize, suspend: Point, values: Items<Option<Value>>)
        ensures { (x : TheInstance) → slice_get self.old i ≡ Some x → self.new ≡ slice_set self.old i (record x { status = TheStatus.Suspended suspend values }) }
    {
        if i < self.list.len() {
            set_status(&mut self.list[i], Status::Suspended(suspend, values));
        }
    }

    /// Takes the kept values out of a Suspended instance, which is Running then.
    pub fn wake(&mut self, alloc: Global, i: usize) -> Items<Option<Value>>
        ensures taken { (x : TheInstance) (suspend : ThePoint) (values : Env) → slice_get self.old i ≡ Some x → x.status ≡ TheStatus.Suspended suspend values → result ≡ values }
        ensures left { (x : TheInstance) → slice_get self.old i ≡ Some x → self.new ≡ slice_set self.old i (record x { status = TheStatus.Running }) }
    {
        if i < self.list.len() {
            wake(alloc, &mut self.list[i])
        } else {
            Items::new(alloc)
        }
    }

    /// An instance is given up by `llvm.coro.free`.
    pub fn release(&mut self, i: usize)
        ensures { (x : TheInstance) → slice_get self.old i ≡ Some x → self.new ≡ slice_set self.old i (record x { released = true }) }
    {
        if i < self.list.len() {
            self.list[i].released = true;
        }
    }

    /// The block of an instance is freed.
    pub fn free(&mut self, i: usize)
        ensures { (x : TheInstance) → slice_get self.old i ≡ Some x → self.new ≡ slice_set self.old i (record x { freed = true }) }
    {
        if i < self.list.len() {
            self.list[i].freed = true;
        }
    }

    /// A slot more of an instance, the newest. Where there is no memory for it, nothing changes.
    pub fn keep(&mut self, i: usize, slot: Slot) -> Result<(), AllocError>
        ensures ok { OnOk result ((x : TheInstance) → slice_get self.old i ≡ Some x → self.new ≡ slice_set self.old i (record x { slots = slot ∷ x.slots })) }
        ensures err { OnErr result (self.new ≡ self.old) }
    {
        if i < self.list.len() {
            self.list[i].slots.push(slot)?;
        }
        Ok(())
    }

    /// Takes the newest slot of an instance away.
    pub fn drop_newest(&mut self, i: usize)
        ensures { (x : TheInstance) (slot : TheSlot) (slots : List TheSlot) → slice_get self.old i ≡ Some x → x.slots ≡ slot ∷ slots → self.new ≡ slice_set self.old i (record x { slots = slots }) }
    {
        if i < self.list.len() {
            drop_slot(&mut self.list[i]);
        }
    }
}
