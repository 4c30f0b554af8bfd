//! The locals that a function defines.

ghost use Rattle.std.specs.Prelude.{◌≡◌, ◌++◌, ◌∷◌, [], IfOk, OnOk, map, true, false};
ghost use Rattle.ir_parts.specs.Parts.{OfInstr, phi_parts, instr_parts, block_parts, blocks_parts};
ghost use Rattle.ir_parts.specs.Contents.{result_of as result_of_instr};
ghost use Rattle.ir_parts.specs.Locals.{local_at, locals_at, locals_in, locals_in_blocks, locals_of as locals_of_function};

use crate::rule::{block_place, function_place, instr_place, next};
use ir_model::ir_base_library::{BlockId, FuncId, Items, Place, ValueId};
use ir_model::{Block, Function, Instr, Param, Phi};
use std::alloc::{AllocError, Global};

/// A local with the place where it is defined: a parameter at its function, a label at its block, another value at its
/// instruction.
#[derive(Clone, Copy, Debug, Drop)]
pub struct Definition {
    pub place: Place,
    pub name: ValueId,
    pub is_label: bool,
}

/// The name of an instruction's result, where it has one.
pub fn result_of(instr: &Instr) -> Option<ValueId>
    ensures { result ≡ result_of_instr instr.now }
{
    match instr {
        Instr::Binary { result: id, .. } => Some(*id),
        Instr::Icmp { result: id, .. } => Some(*id),
        Instr::Select { result: id, .. } => Some(*id),
        Instr::Cast { result: id, .. } => Some(*id),
        Instr::Alloca { result: id, .. } => Some(*id),
        Instr::Load { result: id, .. } => Some(*id),
        Instr::Store { .. } => None,
        Instr::Gep { result: id, .. } => Some(*id),
        Instr::Call { result: id, .. } => *id,
    }
}

fn value_at(place: Place, name: ValueId) -> Definition
    ensures { result ≡ local_at place false name }
{
    Definition {
        place,
        name,
        is_label: false,
    }
}

fn label_at(place: Place, name: ValueId) -> Definition
    ensures { result ≡ local_at place true name }
{
    Definition {
        place,
        name,
        is_label: true,
    }
}

fn push_params(
    all: &mut Items<Definition>,
    place: Place,
    params: &[Param],
) -> Result<(), AllocError>
    ensures { OnOk result (all.new ≡ all.old ++ map (local_at place false) (map (λ p. p.name) params.now)) }
{
    for param in params {
        all.push(value_at(place, param.name))?;
    }
    Ok(())
}

fn push_phis(
    all: &mut Items<Definition>,
    func: FuncId,
    block: BlockId,
    phis: &[Phi],
) -> Result<(), AllocError>
    ensures { OnOk result (all.new ≡ all.old ++ locals_in (phi_parts func block 0 phis.now)) }
{
    let mut at = 0;
    for phi in phis {
        all.push(value_at(instr_place(func, block, at), phi.result))?;
        at = next(at)?;
    }
    Ok(())
}

fn push_result(all: &mut Items<Definition>, place: Place, instr: &Instr) -> Result<(), AllocError>
    ensures { OnOk result (all.new ≡ all.old ++ locals_at (place, OfInstr instr.now)) }
{
    if let Some(name) = result_of(instr) {
        all.push(value_at(place, name))?;
    }
    Ok(())
}

fn push_instrs(
    all: &mut Items<Definition>,
    func: FuncId,
    block: BlockId,
    first: usize,
    instrs: &[Instr],
) -> Result<(), AllocError>
    ensures { OnOk result (all.new ≡ all.old ++ locals_in (instr_parts func block first instrs.now)) }
{
    let mut at = first;
    for instr in instrs {
        push_result(all, instr_place(func, block, at), instr)?;
        at = next(at)?;
    }
    Ok(())
}

fn push_block(
    all: &mut Items<Definition>,
    func: FuncId,
    at: BlockId,
    block: &Block,
) -> Result<(), AllocError>
    ensures { OnOk result (all.new ≡ all.old ++ locals_in (block_parts func at block.now)) }
{
    all.push(label_at(block_place(func, at), block.label))?;
    let phis = block.phis.as_slice();
    push_phis(all, func, at, phis)?;
    push_instrs(all, func, at, phis.len(), block.instrs.as_slice())?;
    Ok(())
}

fn push_blocks(
    all: &mut Items<Definition>,
    func: FuncId,
    blocks: &[Block],
) -> Result<(), AllocError>
    ensures { OnOk result (all.new ≡ all.old ++ locals_in_blocks func 0 blocks.now) }
{
    let mut at = 0;
    for block in blocks {
        push_block(all, func, at, block)?;
        at = next(at)?;
    }
    Ok(())
}

/// The locals that a function defines, in order of the text.
#[tactic(auto, using(crate::proofs::LocalsIn::locals_in_blocks_is))]
pub fn locals_of(
    alloc: Global,
    func: FuncId,
    function: &Function,
) -> Result<Items<Definition>, AllocError>
    ensures { IfOk result (λ all. all ≡ locals_of_function func function.now) }
{
    let mut all = Items::new(alloc);
    push_params(&mut all, function_place(func), function.params.as_slice())?;
    push_blocks(&mut all, func, function.blocks.as_slice())?;
    Ok(all)
}
