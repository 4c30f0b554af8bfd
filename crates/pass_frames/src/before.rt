//! The blocks before begin.

ghost use Rattle.std.specs.Prelude.{◌≡◌, ◌+◌, ◌∷◌, [], IfOk};
ghost use Rattle.pass_frames.specs.Framed.{AreBefore, begin_block, begin_from, has_begin, is_begin};

use flow_blocks::reach;
use ir_base::BlockId;
use ir_model::{Block, Callee, Function, Instr, Intrinsic};
use ir_parts::next;
use std::alloc::{AllocError, Global};

fn is_begin(instr: &Instr) -> bool
    ensures { result ≡ is_begin instr.now }
{
    matches!(
        instr,
        Instr::Call {
            callee: Callee::Intrinsic(Intrinsic::CoroBegin),
            ..
        }
    )
}

fn has_begin(instrs: &[Instr]) -> bool
    ensures { result ≡ has_begin instrs.now }
{
    for instr in instrs {
        if is_begin(instr) {
            return true;
        }
    }
    false
}

fn begin_in(blocks: &[Block]) -> Result<BlockId, AllocError>
    ensures { IfOk result (λ k. k ≡ begin_from 0 blocks.now) }
{
    let mut k = 0;
    for block in blocks {
        if has_begin(block.instrs.as_slice()) {
            return Ok(k);
        }
        k = next(k)?;
    }
    Ok(k)
}

/// The position of the first block with begin, or behind the last.
pub fn begin_block(function: &Function) -> Result<BlockId, AllocError>
    ensures { IfOk result (λ k. k ≡ begin_block function.now) }
{
    begin_in(function.blocks.as_slice())
}

/// The blocks, but for begin's own, whose front a path from the entry reaches without passing begin.
#[tactic(auto, using(crate::proofs::Reaching::none_before, crate::proofs::Reaching::all_before))]
pub fn blocks_before(
    alloc: Global,
    function: &Function,
    begin: BlockId,
) -> Result<Vec<BlockId>, AllocError>
    requires { begin ≡ begin_block function.now }
    ensures { IfOk result (λ blocks. AreBefore function.now blocks.items) }
{
    if begin == 0 {
        return Ok(Vec::new(alloc));
    }
    reach(alloc, function, 0, &[begin])
}
