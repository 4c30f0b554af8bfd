//! The start of a run.

ghost use Rattle.std.specs.Prelude.{◌≡◌, ◌≤◌, ℕ, List, IfOk, OnOk, ◌++◌, ◌∷◌, [], length, if◌then◌else◌};
ghost use Rattle.run_memory.specs.Memory.{access_bytes, encode, fresh};
ghost use Rattle.run_memory.specs.declared.block.Kind.{Kind as TheKind};
ghost use Rattle.run_memory.specs.declared.block.MemoryBlock.{MemoryBlock};
ghost use Rattle.run_step.specs.Effects.{made_block};
ghost use Rattle.run_step.specs.Step.{is_alignment as is_alignment_of, global_block, first_world as first_world_of};

use crate::memory_step::is_alignment;
use ir_base::Items;
use ir_model::GlobalItem;
use run_memory::{Access, BlockId, Kind, Memory, Value};
use run_step::{Program, World, access_of, pointer_to, to_stored};
use std::alloc::{AllocError, Global};

/// What a global's block is aligned to.
fn global_align(global: &GlobalItem) -> u64
    ensures align { result ≡ (if is_alignment_of global.now.align then global.now.align else 1) }
    ensures least { 1 ≤ result }
{
    if is_alignment(global.align) {
        global.align
    } else {
        1
    }
}

/// Stores the contents of a global's new block.
fn fill(memory: &mut Memory, block: BlockId, what: Access, value: Value)
    requires { access_bytes what ≤ 8 }
    ensures { (m : List MemoryBlock) (align : ℕ) → memory.old ≡ fresh m (access_bytes what) align TheKind.Global → block ≡ length m → 1 ≤ align → memory.new ≡ m ++ made_block (access_bytes what) align TheKind.Global (encode (access_bytes what) value) ∷ [] }
{
    let _ = memory.store(pointer_to(block), value, what, 1);
}

/// Makes a global's block, with its contents stored.
fn add_global(
    alloc: Global,
    program: &Program,
    memory: &mut Memory,
    global: &GlobalItem,
) -> Result<(), AllocError>
    ensures { OnOk result (memory.new ≡ memory.old ++ global_block program.now.«module» global.now ∷ []) }
{
    let what = access_of(&global.ty);
    let size = what.bytes() as u64;
    let block = memory.fresh(alloc, size, global_align(global), Kind::Global)?;
    let value = to_stored(&global.ty, program.initial_value(global));
    fill(memory, block, what, value);
    if global.constant {
        memory.seal(block);
    }
    Ok(())
}

/// What a run begins with: the globals' blocks, in the order of the text.
pub fn first_world(alloc: Global, program: &Program) -> Result<World, AllocError>
    ensures { IfOk result (λ world. world ≡ first_world_of program.now.«module») }
{
    let mut memory = Memory::new(alloc);
    for global in program.module.globals.as_slice() {
        add_global(alloc, program, &mut memory, global)?;
    }
    Ok(World {
        memory,
        events: Items::new(alloc),
        answers_used: 0,
        allocs: 0,
    })
}
