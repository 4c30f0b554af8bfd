//! The values that are used in a block which doesn't make them before, or by a phi: no other value is needed behind a suspend.

ghost use Rattle.std.specs.Prelude.{◌≡◌, ◌++◌, IfOk, OnOk, filter, length};
ghost use Rattle.frame_crossing.specs.OneWalk.{blocks_far, far_table as table_of, is_in as is_in_table, uses_far};
ghost use Rattle.frame_crossing.specs.Words.{AreNumbered, IsPlanOf, is_far, value_if};

use crate::edge_use::EdgeUse;
use crate::numbers::{Numbers, numbers_of};
use crate::plan::Plan;
use crate::walk::{make_phis, see_instrs};
use ir_base::{Items, ValueId};
use ir_model::{Block, Function};
use ir_parts::next;
use std::alloc::{AllocError, Global};

/// What blocks use before making it.
fn see_blocks(
    made: &mut Items<usize>,
    far: &mut Items<bool>,
    blocks: &[Block],
) -> Result<(), AllocError>
    ensures { OnOk result (far.new ≡ blocks_far 1 made.old far.old blocks.now) }
{
    let mut mark = 1;
    for block in blocks {
        make_phis(made, mark, block.phis.as_slice());
        see_instrs(made, mark, far, block.instrs.as_slice(), &block.term);
        mark = next(mark)?;
    }
    Ok(())
}

/// What phis use.
fn see_uses(far: &mut Items<bool>, uses: &[EdgeUse])
    ensures { far.new ≡ uses_far far.old uses.now }
{
    for one in uses {
        far.set(one.value, true);
    }
}

/// For each of so many names whether it is used so, by one walk over the text.
fn far_table(
    alloc: Global,
    names: usize,
    blocks: &[Block],
    uses: &[EdgeUse],
) -> Result<Items<bool>, AllocError>
    ensures { IfOk result (λ far. far ≡ table_of names blocks.now uses.now) }
{
    let mut made = Items::from_vec(vec![in alloc; 0; names]?);
    let mut far = Items::from_vec(vec![in alloc; false; names]?);
    see_blocks(&mut made, &mut far, blocks)?;
    see_uses(&mut far, uses);
    Ok(far)
}

fn is_in(table: &Items<bool>, value: ValueId) -> bool
    ensures { result ≡ is_in_table table.now value }
{
    match table.get(value) {
        None => false,
        Some(is_on) => *is_on,
    }
}

fn push_if(far: &mut Vec<ValueId>, is_far: bool, value: ValueId) -> Result<(), AllocError>
    ensures { OnOk result (far.new.items ≡ far.old.items ++ value_if is_far value) }
{
    if is_far {
        far.push(value)?;
    }
    Ok(())
}

fn values_in(
    alloc: Global,
    table: &Items<bool>,
    values: &[ValueId],
) -> Result<Vec<ValueId>, AllocError>
    ensures { IfOk result (λ far. far.items ≡ filter (is_in_table table.now) values.now) }
{
    let mut far = Vec::new(alloc);
    for value in values {
        push_if(&mut far, is_in(table, *value), *value)?;
    }
    Ok(far)
}

fn far_values(
    alloc: Global,
    known: &Numbers,
    blocks: &[Block],
    uses: &[EdgeUse],
    names: usize,
) -> Result<Vec<ValueId>, AllocError>
    requires { AreNumbered names known.now.numbers known.now.values }
    ensures { IfOk result (λ far. far.items ≡ filter (is_far known.now.numbers blocks.now uses.now) known.now.values) }
{
    let table = far_table(alloc, names, blocks, uses)?;
    values_in(alloc, &table, known.values.as_slice())
}

/// Numbers those of the known values that are used in a block which doesn't make them before, or by a phi.
pub fn far_numbers(
    alloc: Global,
    function: &Function,
    plan: &Plan,
    known: &Numbers,
) -> Result<Numbers, AllocError>
    requires plan { IsPlanOf function.now plan.now }
    requires numbers { AreNumbered (length function.now.names) known.now.numbers known.now.values }
    ensures values { IfOk result (λ all. all.values ≡ filter (is_far known.now.numbers function.now.blocks plan.now.phis) known.now.values) }
    ensures numbers { IfOk result (λ all. AreNumbered (length function.now.names) all.numbers all.values) }
{
    let names = function.names.len();
    let blocks = function.blocks.as_slice();
    let far = far_values(alloc, known, blocks, plan.phis.as_slice(), names)?;
    numbers_of(alloc, names, far.as_slice())
}
