//! Functions whose calls give their callees a frame.

ghost use Rattle.std.specs.Prelude.{◌≡◌, ◌++◌, ◌+◌, IfOk, OnOk, length};
ghost use Rattle.pass_elide.specs.Elided.{behind, block_frames, blocks_frames, elided_block, elided_blocks};
ghost use Rattle.pass_elide.specs.Elided.{elided_by, elided_function, elided_instrs, frames_by, instr_frames};
ghost use Rattle.pass_elide.specs.Elided.{with_front};

use crate::calls::{frame_allocas, push_elided};
use crate::given::{GivenFrame, GivenFrames};
use ir_base::{BlockId, Data, Items, ValueId};
use ir_model::{Block, Function, Instr};
use pass_fetch::with_numbered_names;
use pass_intrinsics::later;
use std::alloc::{AllocError, Global};

/// Adds an instruction of a block, and notes the frame that it gives to its callee, where it does.
fn push_turned<R: GivenFrames>(
    alloc: Global,
    finder: &R,
    all: &mut Items<Instr>,
    frames: &mut Items<GivenFrame>,
    base: ValueId,
    block: BlockId,
    at: usize,
    instr: &Instr,
) -> Result<(), AllocError>
    ensures instrs { OnOk result (all.new ≡ all.old
        ++ elided_by (length frames.old + base) (R.found finder.now block at instr.now) instr.now) }
    ensures frames { OnOk result (frames.new ≡ frames.old ++ frames_by (R.found finder.now block at instr.now)) }
{
    let frame = finder.find(block, at, instr);
    push_elided(alloc, all, frames, base, frame, instr)
}

/// The instructions of a block, the first of which stands behind so many phis.
fn elided_instrs<R: GivenFrames>(
    alloc: Global,
    finder: &R,
    frames: &mut Items<GivenFrame>,
    base: ValueId,
    block: BlockId,
    first: usize,
    instrs: &[Instr],
) -> Result<Items<Instr>, AllocError>
    ensures instrs { IfOk result (λ x. x ≡ elided_instrs
        (R.found finder.now block) first (length frames.old + base) instrs.now) }
    ensures frames { OnOk result (frames.new ≡ frames.old
        ++ instr_frames (R.found finder.now block) first instrs.now) }
{
    let mut all = Items::new(alloc);
    let mut at = first;
    for instr in instrs {
        push_turned(alloc, finder, &mut all, frames, base, block, at, instr)?;
        at = later(at, 1)?;
    }
    Ok(all)
}

fn elided_block<R: GivenFrames>(
    alloc: Global,
    finder: &R,
    frames: &mut Items<GivenFrame>,
    base: ValueId,
    at: BlockId,
    block: &Block,
) -> Result<Block, AllocError>
    ensures block { IfOk result (λ b. b ≡ elided_block (R.found finder.now) at (length frames.old + base) block.now) }
    ensures frames { OnOk result (frames.new ≡ frames.old ++ block_frames (R.found finder.now) at block.now) }
{
    let first = block.phis.len();
    let instrs = block.instrs.as_slice();
    let instrs = elided_instrs(alloc, finder, frames, base, at, first, instrs)?;
    Ok(Block {
        label: block.label,
        phis: block.phis.copied(alloc)?,
        instrs,
        term: block.term.copied(alloc)?,
    })
}

fn elided_blocks<R: GivenFrames>(
    alloc: Global,
    finder: &R,
    frames: &mut Items<GivenFrame>,
    base: ValueId,
    blocks: &[Block],
) -> Result<Items<Block>, AllocError>
    ensures blocks { IfOk result (λ x. x ≡ elided_blocks
        (R.found finder.now) 0 (length frames.old + base) blocks.now) }
    ensures frames { OnOk result (frames.new ≡ frames.old ++ blocks_frames (R.found finder.now) 0 blocks.now) }
{
    let mut all = Items::new(alloc);
    let mut at = 0;
    for block in blocks {
        let turned = elided_block(alloc, finder, frames, base, at, block)?;
        all.push(turned)?;
        at = later(at, 1)?;
    }
    Ok(all)
}

fn push_copies(alloc: Global, all: &mut Items<Instr>, instrs: &[Instr]) -> Result<(), AllocError>
    ensures { OnOk result (all.new ≡ all.old ++ instrs.now) }
{
    for instr in instrs {
        all.push(instr.copied(alloc)?)?;
    }
    Ok(())
}

/// The block behind these instructions.
fn behind(alloc: Global, front: Items<Instr>, block: &Block) -> Result<Block, AllocError>
    ensures { IfOk result (λ b. b ≡ behind front block.now) }
{
    let mut instrs = front;
    push_copies(alloc, &mut instrs, block.instrs.as_slice())?;
    Ok(Block {
        label: block.label,
        phis: block.phis.copied(alloc)?,
        instrs,
        term: block.term.copied(alloc)?,
    })
}

fn put_in_front(
    alloc: Global,
    front: Items<Instr>,
    blocks: &mut Items<Block>,
) -> Result<(), AllocError>
    ensures { OnOk result (blocks.new ≡ with_front front blocks.old) }
{
    if let Some(entry) = blocks.get(0) {
        let first = behind(alloc, front, entry)?;
        blocks.set(0, first);
    }
    Ok(())
}

/// The function with the calls turned that give their callees a frame.
pub fn elided_function<R: GivenFrames>(
    alloc: Global,
    finder: &R,
    function: &Function,
) -> Result<Function, AllocError>
    ensures { IfOk result (λ f. f ≡ elided_function (R.found finder.now) function.now) }
{
    let base = function.names.len();
    let mut frames = Items::new(alloc);
    let mut blocks = elided_blocks(alloc, finder, &mut frames, base, function.blocks.as_slice())?;
    let front = frame_allocas(alloc, base, frames.as_slice())?;
    put_in_front(alloc, front, &mut blocks)?;
    Ok(Function {
        name: function.name.copied(alloc)?,
        result: Data::copied(&function.result, alloc)?,
        params: function.params.copied(alloc)?,
        coroutine: function.coroutine,
        blocks,
        names: with_numbered_names(alloc, &function.names, b"$c.callee.", frames.len())?,
    })
}
