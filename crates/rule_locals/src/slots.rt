//! The sizes of a function's allocas by their names.

ghost use Rattle.std.specs.Prelude.{◌≡◌, ℕ, IfOk, OnOk, option_map};
ghost use Rattle.ir_locals.specs.Tables.{first_in, noted, or_first};
ghost use Rattle.rule_locals.specs.Markers.{slot_size};
ghost use Rattle.rule_locals.specs.Slots.{cut_size, cut_block};
ghost use Rattle.ir_sizes.specs.Cut.{capped};

use ir_base::ValueId;
use ir_locals::LocalTable;
use ir_model::{Block, Function, Instr};
use ir_sizes::Sizes;
use std::alloc::{AllocError, Global};

fn note_instr(
    sizes: &Sizes<'_>,
    table: &mut LocalTable<u64>,
    instr: &Instr,
) -> Result<(), AllocError>
    ensures { OnOk result ((n : ℕ) → noted table.new n ≡ or_first (noted table.old n) (cut_size sizes.now.names.now.source.now instr.now n)) }
{
    match instr {
        Instr::Alloca { result, ty, .. } => table.note(*result, sizes.size_of(ty)),
        _ => Ok(()),
    }
}

fn note_block(
    sizes: &Sizes<'_>,
    table: &mut LocalTable<u64>,
    instrs: &[Instr],
) -> Result<(), AllocError>
    ensures { OnOk result ((n : ℕ) → noted table.new n ≡ or_first (noted table.old n) (first_in (cut_size sizes.now.names.now.source.now) instrs.now n)) }
{
    for instr in instrs {
        note_instr(sizes, table, instr)?;
    }
    Ok(())
}

fn note_blocks(
    sizes: &Sizes<'_>,
    table: &mut LocalTable<u64>,
    blocks: &[Block],
) -> Result<(), AllocError>
    ensures { OnOk result ((n : ℕ) → noted table.new n ≡ or_first (noted table.old n) (first_in (cut_block sizes.now.names.now.source.now) blocks.now n)) }
{
    for block in blocks {
        note_block(sizes, table, block.instrs.as_slice())?;
    }
    Ok(())
}

/// The sizes of a function's allocas, 2^64 - 1 where one is more.
pub fn slots_of(
    alloc: Global,
    sizes: &Sizes<'_>,
    function: &Function,
) -> Result<LocalTable<u64>, AllocError>
    ensures { IfOk result (λ t. (n : ℕ) → noted t n ≡ option_map capped (slot_size sizes.now.names.now.source.now function.now n)) }
{
    let mut table = LocalTable::new(alloc, function.names.len())?;
    note_blocks(sizes, &mut table, function.blocks.as_slice())?;
    Ok(table)
}
