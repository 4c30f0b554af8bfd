//! The values of a function that may cross a suspend.

ghost use Rattle.std.specs.Prelude.{◌≡◌, ◌++◌, IfOk, OnOk};
ghost use Rattle.ir_parts.specs.Contents.{result_of as result_of_instr};
ghost use Rattle.frame_crossing.specs.Values.{all_defined as all_defined_in, blocks_defined, instrs_defined, is_apart as is_apart_instr, is_token as is_token_type, is_token_result as is_token_option, params_defined, phis_defined, result_unless, unless};

use ir_base::ValueId;
use ir_calls::is_call_of;
use ir_model::{Block, Function, Instr, Intrinsic, IrType, Node, Param, Phi};
use ir_parts::result_of;
use std::alloc::{AllocError, Global};

fn is_token(ty: &IrType) -> bool
    ensures { result ≡ is_token_type ty.now }
{
    matches!(ty.node(), Node::Token)
}

fn is_token_result(ty: &Option<IrType>) -> bool
    ensures { result ≡ is_token_option ty.now }
{
    match ty {
        None => false,
        Some(ty) => is_token(ty),
    }
}

/// Whether the result is a token, or an address that is made anew wherever it is needed.
fn is_apart(instr: &Instr) -> bool
    ensures { result ≡ is_apart_instr instr.now }
{
    match instr {
        Instr::Binary { ty, .. } => is_token(ty),
        Instr::Icmp { .. } => false,
        Instr::Select { yes, .. } => is_token(&yes.ty),
        Instr::Cast { to, .. } => is_token(to),
        Instr::Alloca { .. } => true,
        Instr::Load { ty, .. } => is_token(ty),
        Instr::Store { .. } => false,
        Instr::Gep { .. } => false,
        Instr::Call { ty, .. } => {
            is_token_result(ty)
                || (is_call_of(Intrinsic::CoroBegin, instr)
                    || is_call_of(Intrinsic::CoroFrame, instr))
        }
    }
}

fn push_unless(all: &mut Vec<ValueId>, apart: bool, value: ValueId) -> Result<(), AllocError>
    ensures { OnOk result (all.new.items ≡ all.old.items ++ unless apart value) }
{
    if !apart {
        all.push(value)?;
    }
    Ok(())
}

fn push_params(all: &mut Vec<ValueId>, params: &[Param]) -> Result<(), AllocError>
    ensures { OnOk result (all.new.items ≡ all.old.items ++ params_defined params.now) }
{
    for param in params {
        push_unless(all, is_token(&param.ty), param.name)?;
    }
    Ok(())
}

fn push_phis(all: &mut Vec<ValueId>, phis: &[Phi]) -> Result<(), AllocError>
    ensures { OnOk result (all.new.items ≡ all.old.items ++ phis_defined phis.now) }
{
    for phi in phis {
        push_unless(all, is_token(&phi.ty), phi.result)?;
    }
    Ok(())
}

fn push_result(all: &mut Vec<ValueId>, instr: &Instr) -> Result<(), AllocError>
    ensures { OnOk result (all.new.items ≡ all.old.items ++ result_unless (is_apart_instr instr.now) (result_of_instr instr.now)) }
{
    match result_of(instr) {
        None => Ok(()),
        Some(value) => push_unless(all, is_apart(instr), value),
    }
}

fn push_instrs(all: &mut Vec<ValueId>, instrs: &[Instr]) -> Result<(), AllocError>
    ensures { OnOk result (all.new.items ≡ all.old.items ++ instrs_defined instrs.now) }
{
    for instr in instrs {
        push_result(all, instr)?;
    }
    Ok(())
}

fn push_block(all: &mut Vec<ValueId>, block: &Block) -> Result<(), AllocError>
    ensures { OnOk result (all.new.items ≡ all.old.items ++ (phis_defined block.now.phis ++ instrs_defined block.now.instrs)) }
{
    push_phis(all, block.phis.as_slice())?;
    push_instrs(all, block.instrs.as_slice())
}

fn push_blocks(all: &mut Vec<ValueId>, blocks: &[Block]) -> Result<(), AllocError>
    ensures { OnOk result (all.new.items ≡ all.old.items ++ blocks_defined blocks.now) }
{
    for block in blocks {
        push_block(all, block)?;
    }
    Ok(())
}

/// The values that may cross a suspend, as often as they are defined, in order of the text: all but tokens and the results of
/// allocas, of `coro.begin` and of `coro.frame`.
pub fn all_defined(alloc: Global, function: &Function) -> Result<Vec<ValueId>, AllocError>
    ensures { IfOk result (λ all. all.items ≡ all_defined_in function.now) }
{
    let mut all = Vec::new(alloc);
    push_params(&mut all, function.params.as_slice())?;
    push_blocks(&mut all, function.blocks.as_slice())?;
    Ok(all)
}
