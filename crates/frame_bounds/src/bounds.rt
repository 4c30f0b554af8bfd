//! A bound on what the frame of a coroutine takes.

ghost use Rattle.std.specs.Prelude.{◌≡◌, ◌+◌, IfSome};
ghost use Rattle.frame_bounds.specs.Bounds.{block_bound, blocks_bound, field_bound, frame_bound as frame_bound_of, instr_bound, instrs_bound, params_bound, phis_bound, result_bound, value_bound};

use frame_contents::{result_size, value_size};
use ir_base::ValueId;
use ir_model::{Block, Function, Instr, Param, Phi};
use ir_parts::result_of;
use ir_sizes::Sizes;

fn field_bound(size: u64, align: u64) -> Option<u64>
    ensures { IfSome result (λ n. n ≡ field_bound size align) }
{
    size.checked_add(align.max(1))
}

fn value_bound(size: u64) -> Option<u64>
    ensures { IfSome result (λ n. n ≡ value_bound size) }
{
    field_bound(size, size)
}

fn result_bound(name: Option<ValueId>, size: u64) -> Option<u64>
    ensures { IfSome result (λ n. n ≡ result_bound name size) }
{
    match name {
        None => Some(0),
        Some(_) => value_bound(size),
    }
}

fn plus_params(mut sum: u64, params: &[Param]) -> Option<u64>
    ensures { IfSome result (λ n. n ≡ sum + params_bound params.now) }
{
    for param in params {
        sum = sum.checked_add(value_bound(value_size(&param.ty))?)?;
    }
    Some(sum)
}

fn plus_phis(mut sum: u64, phis: &[Phi]) -> Option<u64>
    ensures { IfSome result (λ n. n ≡ sum + phis_bound phis.now) }
{
    for phi in phis {
        sum = sum.checked_add(value_bound(value_size(&phi.ty))?)?;
    }
    Some(sum)
}

fn instr_bound(sizes: &Sizes<'_>, instr: &Instr) -> Option<u64>
    ensures { IfSome result (λ n. n ≡ instr_bound sizes.now.names.now.source.now instr.now) }
{
    match instr {
        Instr::Alloca { ty, align, .. } => field_bound(sizes.size_of(ty), *align),
        _ => result_bound(result_of(instr), result_size(instr)),
    }
}

fn plus_instrs(sizes: &Sizes<'_>, mut sum: u64, instrs: &[Instr]) -> Option<u64>
    ensures { IfSome result (λ n. n ≡ sum + instrs_bound sizes.now.names.now.source.now instrs.now) }
{
    for instr in instrs {
        sum = sum.checked_add(instr_bound(sizes, instr)?)?;
    }
    Some(sum)
}

fn plus_block(sizes: &Sizes<'_>, sum: u64, block: &Block) -> Option<u64>
    ensures { IfSome result (λ n. n ≡ sum + block_bound sizes.now.names.now.source.now block.now) }
{
    let sum = plus_phis(sum, block.phis.as_slice())?;
    plus_instrs(sizes, sum, block.instrs.as_slice())
}

fn plus_blocks(sizes: &Sizes<'_>, mut sum: u64, blocks: &[Block]) -> Option<u64>
    ensures { IfSome result (λ n. n ≡ sum + blocks_bound sizes.now.names.now.source.now blocks.now) }
{
    for block in blocks {
        sum = plus_block(sizes, sum, block)?;
    }
    Some(sum)
}

/// A bound on the bytes that the frame of a coroutine takes, where it is below 2^64.
pub fn frame_bound(sizes: &Sizes<'_>, function: &Function) -> Option<u64>
    ensures { IfSome result (λ n. n ≡ frame_bound_of sizes.now.names.now.source.now function.now) }
{
    let sum = plus_params(20, function.params.as_slice())?;
    plus_blocks(sizes, sum, function.blocks.as_slice())
}
