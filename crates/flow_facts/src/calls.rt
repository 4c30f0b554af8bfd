//! The calls of an intrinsic.

ghost use Rattle.std.specs.Prelude.{◌≡◌, ◌++◌, IfOk, OnOk, map};
ghost use Rattle.flow_points.specs.ir_paths.Windows.{is_call_of as is_call_of_intrinsic, points_from, points_where};

use flow_points::ir_paths_library::Point;
use ir_base::{BlockId, Items};
use ir_calls::is_call_of;
use ir_model::{Function, Instr, Intrinsic};
use std::alloc::{AllocError, Global};

fn push_calls(
    intrinsic: Intrinsic,
    block: BlockId,
    instrs: &[Instr],
    all: &mut Items<Point>,
) -> Result<(), AllocError>
    ensures { OnOk result (all.new ≡ all.old ++ points_from (is_call_of_intrinsic intrinsic) block 0 instrs.now) }
{
    for at in 0..instrs.len() {
        if is_call_of(intrinsic, &instrs[at]) {
            all.push(Point { block, at })?;
        }
    }
    Ok(())
}

/// The points of the calls of an intrinsic, in order of the text.
pub fn points_of_calls(
    alloc: Global,
    function: &Function,
    intrinsic: Intrinsic,
) -> Result<Items<Point>, AllocError>
    ensures { IfOk result (λ all. all ≡ points_where (is_call_of_intrinsic intrinsic) function.now) }
{
    let mut all = Items::new(alloc);
    let blocks = function.blocks.as_slice();
    for block in 0..blocks.len() {
        push_calls(intrinsic, block, blocks[block].instrs.as_slice(), &mut all)?;
    }
    Ok(all)
}
