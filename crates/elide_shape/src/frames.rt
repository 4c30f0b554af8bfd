//! Operands that instructions give in one way or another, counted, and what rets give.

ghost use Rattle.std.specs.Prelude.{◌≡◌, IfOk, List, OnOk, flat_map, replicate, length};
ghost use Rattle.rule_shape.specs.Uses.{counted_all};
ghost use Rattle.elide_shape.specs.Frames.{all_from, frame_value, is_frame_call as is_frame_call_of};
ghost use Rattle.ir_model.specs.declared.instr.Instr.{Instr as TheInstr};
ghost use Rattle.ir_model.specs.declared.operand.Operand.{Operand as TheOperand};

use ir_calls::{call_result, is_call_of};
use ir_model::{Block, Function, Instr, Intrinsic, Operand};
use rule_shape::Uses;
use std::alloc::{AllocError, Global};

/// A choice of operands for each instruction.
pub trait Choice: Sized {
    ghost chosen: { Self → TheInstr → List TheOperand };

    /// Counts those of an instruction.
    fn count(&self, counts: &mut Uses, instr: &Instr) -> Result<(), AllocError>
        ensures { OnOk result (counts.new ≡ counted_all counts.old (chosen self.now instr.now)) };
}

#[tactic(auto, using(rule_shape::proofs::Counts::counted_append))]
fn count_in<C: Choice>(choice: &C, counts: &mut Uses, instrs: &[Instr]) -> Result<(), AllocError>
    ensures { OnOk result (counts.new ≡ counted_all counts.old (flat_map (C.chosen choice.now) instrs.now)) }
{
    for instr in instrs {
        choice.count(counts, instr)?;
    }
    Ok(())
}

#[tactic(auto, using(rule_shape::proofs::Counts::counted_append))]
fn count_by<C: Choice>(choice: &C, counts: &mut Uses, blocks: &[Block]) -> Result<(), AllocError>
    ensures { OnOk result (counts.new ≡ counted_all counts.old (all_from (C.chosen choice.now) blocks.now)) }
{
    for block in blocks {
        count_in(choice, counts, block.instrs.as_slice())?;
    }
    Ok(())
}

/// For each local of a function how often the choice has it.
pub fn counts_of<C: Choice>(
    alloc: Global,
    choice: &C,
    function: &Function,
) -> Result<Uses, AllocError>
    ensures { IfOk result (λ counts. counts ≡ counted_all (replicate (length function.now.names) 0) (all_from (C.chosen choice.now) function.now.blocks)) }
{
    let mut counts = Uses::new(alloc, function.names.len())?;
    count_by(choice, &mut counts, function.blocks.as_slice())?;
    Ok(counts)
}

fn is_frame_call(instr: &Instr) -> bool
    ensures { result ≡ is_frame_call_of instr.now }
{
    is_call_of(Intrinsic::CoroBegin, instr) || is_call_of(Intrinsic::CoroFrame, instr)
}

/// The values of begin and of coro.frame.
#[derive(Clone, Copy, Drop)]
pub struct FrameValues;

impl Choice for FrameValues {
    ghost chosen = { λ t. frame_value };

    fn count(&self, counts: &mut Uses, instr: &Instr) -> Result<(), AllocError> {
        if is_frame_call(instr) {
            if let Some(id) = call_result(instr) {
                counts.add(&Operand::Local(id))?;
            }
        }
        Ok(())
    }
}
