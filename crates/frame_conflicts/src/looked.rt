//! The points at which it is looked who is alive with whom: fronts of blocks, and points behind starts.

ghost use Rattle.std.specs.Prelude.{◌≡◌, ◌++◌, IfOk, OnOk, true};
ghost use Rattle.flow_points.specs.Reached.{IsGraphOf};
ghost use Rattle.frame_conflicts.specs.Looked.{AreLooked, block_looked, looked_blocks, looked_row, point_if};

use flow_points::PointGraph;
use frame_classes::rule_shape_library::end_block;
use frame_classes::rule_windows_library::{PointSet, points_where, reached_set};
use ir_base::{BlockId, Items};
use ir_calls::{CallOf, is_call_of};
use ir_model::{Block, Function, Instr, Intrinsic};
use ir_parts::next;
use ir_paths::Point;
use std::alloc::{AllocError, Global};

fn push_if(all: &mut Items<Point>, is_looked: bool, point: Point) -> Result<(), AllocError>
    ensures { OnOk result (all.new ≡ all.old ++ point_if is_looked point) }
{
    if is_looked {
        all.push(point)?;
    }
    Ok(())
}

fn push_row(
    all: &mut Items<Point>,
    after: &PointSet,
    block: BlockId,
    instrs: &[Instr],
) -> Result<(), AllocError>
    ensures { OnOk result (all.new ≡ all.old ++ looked_row after.now block 0 true instrs.now) }
{
    let mut at = 0;
    let mut is_fresh = true;
    for instr in instrs {
        let point = Point { block, at };
        push_if(all, is_fresh && !after.has(point), point)?;
        is_fresh = is_call_of(Intrinsic::LifetimeStart, instr);
        at = next(at)?;
    }
    let point = Point { block, at };
    push_if(all, is_fresh && !after.has(point), point)
}

fn push_block(
    all: &mut Items<Point>,
    after: &PointSet,
    end: BlockId,
    at: BlockId,
    block: &Block,
) -> Result<(), AllocError>
    ensures { OnOk result (all.new ≡ all.old ++ block_looked after.now end at block.now) }
{
    if at != end {
        push_row(all, after, at, block.instrs.as_slice())?;
    }
    Ok(())
}

fn push_blocks(
    all: &mut Items<Point>,
    after: &PointSet,
    end: BlockId,
    blocks: &[Block],
) -> Result<(), AllocError>
    ensures { OnOk result (all.new ≡ all.old ++ looked_blocks after.now end 0 blocks.now) }
{
    let mut at = 0;
    for block in blocks {
        push_block(all, after, end, at, block)?;
        at = next(at)?;
    }
    Ok(())
}

/// The points at which it is looked who is alive with whom: outside the end block and all that it reaches, the fronts of blocks
/// and the points behind starts.
pub fn looked_points(
    alloc: Global,
    graph: &mut PointGraph,
    function: &Function,
) -> Result<Items<Point>, AllocError>
    requires { IsGraphOf function.now graph.old }
    ensures { IfOk result (AreLooked function.now) }
{
    let end = CallOf {
        intrinsic: Intrinsic::CoroEnd,
    };
    let found = points_where(alloc, &end, function)?;
    let ends = found.as_slice();
    let after = reached_set(alloc, graph, function, ends, &[])?;
    let mut all = Items::new(alloc);
    let last = end_block(function);
    let blocks = function.blocks.as_slice();
    push_blocks(&mut all, &after, last, blocks)?;
    Ok(all)
}
