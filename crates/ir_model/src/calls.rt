//! The results of a function's calls of an intrinsic.

ghost use Rattle.std.specs.Prelude.{◌≡◌, IsTrue, ◌↔◌};
ghost use Rattle.ir_model.specs.Names.{same_intrinsic, intrinsic_number};
ghost use Rattle.ir_model.specs.Calls.{result_of_call, first_result_in, first_result_by, first_result};

use crate::instr::Instr;
use crate::module::{Block, Function};
use crate::operand::{Callee, Intrinsic};
use ir_base::ValueId;

fn number_of(i: Intrinsic) -> u8
    ensures { result ≡ intrinsic_number i }
{
    i as u8
}

/// Whether both are the same intrinsic.
pub fn is_same_intrinsic(i: Intrinsic, j: Intrinsic) -> bool
    ensures { result ≡ same_intrinsic i j }
{
    number_of(i) == number_of(j)
}

/// The result of a call of the intrinsic, none of every other instruction.
pub fn result_of_call(intrinsic: Intrinsic, instr: &Instr) -> Option<ValueId>
    ensures { result ≡ result_of_call intrinsic instr.now }
{
    match instr {
        Instr::Call {
            result,
            must_tail: _,
            ty: _,
            callee: Callee::Intrinsic(called),
            args: _,
        } => {
            if is_same_intrinsic(intrinsic, *called) {
                *result
            } else {
                None
            }
        }
        _ => None,
    }
}

fn first_result_in(intrinsic: Intrinsic, instrs: &[Instr]) -> Option<ValueId>
    ensures { result ≡ first_result_in intrinsic instrs.now }
{
    for instr in instrs {
        if let Some(id) = result_of_call(intrinsic, instr) {
            return Some(id);
        }
    }
    None
}

fn first_result_by(intrinsic: Intrinsic, blocks: &[Block]) -> Option<ValueId>
    ensures { result ≡ first_result_by intrinsic blocks.now }
{
    for block in blocks {
        if let Some(id) = first_result_in(intrinsic, block.instrs.as_slice()) {
            return Some(id);
        }
    }
    None
}

impl Function {
    /// The result of the function's first call of the intrinsic, in order of the text, that has one.
    pub fn first_result(&self, intrinsic: Intrinsic) -> Option<ValueId>
        ensures { result ≡ first_result intrinsic self.now }
    {
        first_result_by(intrinsic, self.blocks.as_slice())
    }
}
