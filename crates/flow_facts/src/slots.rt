//! The slots that are a ramp's alone ("Coroutines in LLVM", "Introduction": what is live across a suspend is kept in the
//! frame).

ghost use Rattle.std.specs.Prelude.{◌≡◌, ◌++◌, ◌∷◌, [], IfOk, OnOk, flat_map};
ghost use Rattle.flow_points.specs.ir_paths.Slots.{local_of as local_of_operand, promise_of as promise_of_function};
ghost use Rattle.flow_points.specs.ir_paths.Windows.{call_operand};
ghost use Rattle.flow_facts.specs.Slots.{AreKeeping, AreRampSlots, is_own, own_in};
ghost use Rattle.flow_points.specs.Reached.{IsGraphOf};

use crate::behind::points_behind;
use crate::calls::points_of_calls;
use crate::chains::{has_lowest_bit, led_back};
use crate::names::{exposed_names, push_touched};
use crate::windows::instr_at;
use flow_points::PointGraph;
use ir_base::{Items, ValueId};
use ir_calls::operand_of;
use ir_model::{Block, Function, Instr, Intrinsic, Operand};
use std::alloc::{AllocError, Global};

fn second_local(instr: &Instr) -> Option<ValueId>
    ensures { result ≡ local_of_operand (call_operand instr.now 1) }
{
    match instr {
        Instr::Call { args, .. } => match operand_of(args.as_slice(), 1) {
            Some(Operand::Local(name)) => Some(*name),
            _ => None,
        },
        _ => None,
    }
}

/// The alloca that coro.id names.
fn promise_of(alloc: Global, function: &Function) -> Result<Option<ValueId>, AllocError>
    ensures { IfOk result (λ promise. promise ≡ promise_of_function function.now) }
{
    let ids = points_of_calls(alloc, function, Intrinsic::CoroId)?;
    match ids.get(0) {
        None => Ok(None),
        Some(point) => match instr_at(function, *point) {
            None => Ok(None),
            Some(instr) => Ok(second_local(instr)),
        },
    }
}

/// The names that are exposed or touched behind a suspend.
fn keeping_names(
    alloc: Global,
    function: &Function,
    graph: &mut PointGraph,
) -> Result<Items<ValueId>, AllocError>
    requires { IsGraphOf function.now graph.old }
    ensures names { IfOk result (λ names. AreKeeping function.now names) }
    ensures kept { OnOk result (IsGraphOf function.now graph.new) }
{
    let behind = points_behind(alloc, function, graph)?;
    let mut names = exposed_names(alloc, function)?;
    push_touched(function, behind.as_slice(), &mut names)?;
    Ok(names)
}

/// Whether an alloca isn't the promise, and its word hasn't the lowest bit.
fn is_own(promise: Option<ValueId>, words: &[u64], name: ValueId) -> bool
    ensures { result ≡ is_own promise words.now name }
{
    promise != Some(name) && !has_lowest_bit(words, name)
}

fn push_own(
    instr: &Instr,
    promise: Option<ValueId>,
    words: &[u64],
    slots: &mut Items<ValueId>,
) -> Result<(), AllocError>
    ensures { OnOk result (slots.new ≡ slots.old ++ own_in promise words.now (instr.now ∷ [])) }
{
    if let Instr::Alloca { result: name, .. } = instr {
        if is_own(promise, words, *name) {
            slots.push(*name)?;
        }
    }
    Ok(())
}

#[tactic(auto, using(crate::proofs::Owning::own_in_cons))]
fn push_own_in(
    instrs: &[Instr],
    promise: Option<ValueId>,
    words: &[u64],
    slots: &mut Items<ValueId>,
) -> Result<(), AllocError>
    ensures { OnOk result (slots.new ≡ slots.old ++ own_in promise words.now instrs.now) }
{
    for instr in instrs {
        push_own(instr, promise, words, slots)?;
    }
    Ok(())
}

/// The allocas that aren't the promise and whose words haven't the lowest bit.
fn own_slots(
    alloc: Global,
    blocks: &[Block],
    promise: Option<ValueId>,
    words: &[u64],
) -> Result<Items<ValueId>, AllocError>
    ensures { IfOk result (λ slots. slots ≡ flat_map (λ b. own_in promise words.now b.instrs) blocks.now) }
{
    let mut slots = Items::new(alloc);
    for block in blocks {
        push_own_in(block.instrs.as_slice(), promise, words, &mut slots)?;
    }
    Ok(slots)
}

/// The slots of a function that are a ramp's alone, by its graph.
pub fn slots_by(
    alloc: Global,
    function: &Function,
    graph: &mut PointGraph,
) -> Result<Items<ValueId>, AllocError>
    requires { IsGraphOf function.now graph.old }
    ensures slots { IfOk result (λ slots. AreRampSlots function.now slots) }
    ensures kept { OnOk result (IsGraphOf function.now graph.new) }
{
    let promise = promise_of(alloc, function)?;
    let names = keeping_names(alloc, function, graph)?;
    let words = led_back(alloc, function, names.as_slice())?;
    own_slots(alloc, function.blocks.as_slice(), promise, words.as_slice())
}

/// The slots of a function that are a ramp's alone.
pub fn ramp_slots_of(alloc: Global, function: &Function) -> Result<Items<ValueId>, AllocError>
    ensures { IfOk result (λ slots. AreRampSlots function.now slots) }
{
    let mut graph = PointGraph::new(alloc, function)?;
    slots_by(alloc, function, &mut graph)
}
