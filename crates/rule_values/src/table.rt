//! The kinds of a function's values by their names.

ghost use Rattle.std.specs.Prelude.{◌≡◌, ℕ, IfOk, OnOk};
ghost use Rattle.ir_locals.specs.Tables.{first_in, noted, or_first};
ghost use Rattle.rule_values.specs.Kinds.{instr_kind, phi_kind, param_kind, block_kind, value_kind};

use crate::kinds::{Kind, kind_of, result_kind};
use ir_locals::LocalTable;
use ir_model::{Block, Function, Instr, Param, Phi};
use std::alloc::{AllocError, Global};

fn note_instr(table: &mut LocalTable<Kind>, instr: &Instr) -> Result<(), AllocError>
    ensures { OnOk result ((n : ℕ) → noted table.new n ≡ or_first (noted table.old n) (instr_kind instr.now n)) }
{
    match instr {
        Instr::Binary { result, ty, .. } => table.note(*result, kind_of(ty)),
        Instr::Icmp { result, .. } => table.note(*result, Kind::Int(1)),
        Instr::Select { result, yes, .. } => table.note(*result, kind_of(&yes.ty)),
        Instr::Cast { result, to, .. } => table.note(*result, kind_of(to)),
        Instr::Alloca { result, .. } => table.note(*result, Kind::Ptr),
        Instr::Load { result, ty, .. } => table.note(*result, kind_of(ty)),
        Instr::Store { .. } => Ok(()),
        Instr::Gep { result, .. } => table.note(*result, Kind::Ptr),
        Instr::Call { result: None, .. } => Ok(()),
        Instr::Call {
            result: Some(result),
            ty,
            callee,
            ..
        } => table.note(*result, result_kind(callee, ty)),
    }
}

fn note_params(table: &mut LocalTable<Kind>, params: &[Param]) -> Result<(), AllocError>
    ensures { OnOk result ((n : ℕ) → noted table.new n ≡ or_first (noted table.old n) (first_in param_kind params.now n)) }
{
    for param in params {
        table.note(param.name, kind_of(&param.ty))?;
    }
    Ok(())
}

fn note_phis(table: &mut LocalTable<Kind>, phis: &[Phi]) -> Result<(), AllocError>
    ensures { OnOk result ((n : ℕ) → noted table.new n ≡ or_first (noted table.old n) (first_in phi_kind phis.now n)) }
{
    for phi in phis {
        table.note(phi.result, kind_of(&phi.ty))?;
    }
    Ok(())
}

fn note_instrs(table: &mut LocalTable<Kind>, instrs: &[Instr]) -> Result<(), AllocError>
    ensures { OnOk result ((n : ℕ) → noted table.new n ≡ or_first (noted table.old n) (first_in instr_kind instrs.now n)) }
{
    for instr in instrs {
        note_instr(table, instr)?;
    }
    Ok(())
}

fn note_block(table: &mut LocalTable<Kind>, block: &Block) -> Result<(), AllocError>
    ensures { OnOk result ((n : ℕ) → noted table.new n ≡ or_first (noted table.old n) (block_kind block.now n)) }
{
    note_phis(table, block.phis.as_slice())?;
    note_instrs(table, block.instrs.as_slice())?;
    Ok(())
}

fn note_blocks(table: &mut LocalTable<Kind>, blocks: &[Block]) -> Result<(), AllocError>
    ensures { OnOk result ((n : ℕ) → noted table.new n ≡ or_first (noted table.old n) (first_in block_kind blocks.now n)) }
{
    for block in blocks {
        note_block(table, block)?;
    }
    Ok(())
}

/// The kinds of a function's values.
pub fn kinds_of(alloc: Global, function: &Function) -> Result<LocalTable<Kind>, AllocError>
    ensures { IfOk result (λ t. (n : ℕ) → noted t n ≡ value_kind function.now n) }
{
    let mut table = LocalTable::new(alloc, function.names.len())?;
    note_params(&mut table, function.params.as_slice())?;
    note_blocks(&mut table, function.blocks.as_slice())?;
    Ok(table)
}
