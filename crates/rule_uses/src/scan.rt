//! One walk through a function's text, which finds the uses that may be undefined.

ghost use Rattle.std.specs.Prelude.{◌≡◌, ◌+◌, ◌++◌, IfOk, None, OnOk, length, replicate, slice_get};
ghost use Rattle.rule_uses.specs.Scan.{is_at as is_at_block, is_known as is_known_value, noted, noted_block, noted_instrs, noted_phis, open_at, open_block, open_blocks, open_in, open_incoming, open_instrs, open_phis, or_false, use_unless};
ghost use Rattle.rule_uses.specs.Uses.{local_of as local_of_operand, locals_in};
ghost use Rattle.ir_parts.specs.Contents.{instr_operands};
ghost use Rattle.flow_blocks.specs.run_step.Tables.{HasPositions};

use crate::locals::{ending_locals, instr_locals, local_of};
use crate::open_use::OpenUse;
use flow_blocks::run_step_library::{position, positions_of};
use ir_base::{BlockId, FuncId, Items, Place, ValueId};
use ir_model::{Block, Function, Incoming, Instr, Phi};
use ir_parts::{instr_place, next, result_of};
use std::alloc::{AllocError, Global};

fn is_param(params: &Items<bool>, value: ValueId) -> bool
    ensures { result ≡ or_false (slice_get params.now value) }
{
    match params.get(value) {
        None => false,
        Some(mark) => *mark,
    }
}

fn is_at(last: &Items<Option<BlockId>>, value: ValueId, block: BlockId) -> bool
    ensures { result ≡ is_at_block (slice_get last.now value) block }
{
    match last.get(value) {
        Some(Some(at)) => *at == block,
        _ => false,
    }
}

fn is_known(
    params: &Items<bool>,
    last: &Items<Option<BlockId>>,
    block: BlockId,
    value: ValueId,
) -> bool
    ensures { result ≡ is_known_value params.now last.now block value }
{
    is_param(params, value) || is_at(last, value, block)
}

/// Adds a use, unless its value is known.
fn add_unless(opens: &mut Vec<OpenUse>, known: bool, found: OpenUse) -> Result<(), AllocError>
    ensures { OnOk result (opens.new.items ≡ opens.old.items ++ use_unless known found) }
{
    if !known {
        opens.push(found)?;
    }
    Ok(())
}

/// Adds the uses of these values by a part, of those that aren't known there.
fn add_uses(
    opens: &mut Vec<OpenUse>,
    params: &Items<bool>,
    last: &Items<Option<BlockId>>,
    place: Place,
    block: BlockId,
    values: &[ValueId],
) -> Result<(), AllocError>
    ensures { OnOk result (opens.new.items ≡ opens.old.items ++ open_at params.now last.now place block values.now) }
{
    for value in values {
        let found = OpenUse {
            place,
            block,
            value: *value,
            at_end: false,
        };
        add_unless(opens, is_known(params, last, block, *value), found)?;
    }
    Ok(())
}

fn add_incoming(
    opens: &mut Vec<OpenUse>,
    function: &Function,
    table: &Items<BlockId>,
    params: &Items<bool>,
    place: Place,
    one: &Incoming,
) -> Result<(), AllocError>
    requires { HasPositions function.now table.now }
    ensures { OnOk result (opens.new.items ≡ opens.old.items ++ open_in function.now params.now place one.now.from (local_of_operand one.now.value)) }
{
    match local_of(&one.value) {
        None => Ok(()),
        Some(value) => {
            let found = OpenUse {
                place,
                block: position(function, table, one.from),
                value,
                at_end: true,
            };
            add_unless(opens, is_param(params, value), found)
        }
    }
}

fn add_phi(
    opens: &mut Vec<OpenUse>,
    function: &Function,
    table: &Items<BlockId>,
    params: &Items<bool>,
    place: Place,
    incoming: &[Incoming],
) -> Result<(), AllocError>
    requires { HasPositions function.now table.now }
    ensures { OnOk result (opens.new.items ≡ opens.old.items ++ open_incoming function.now params.now place incoming.now) }
{
    for one in incoming {
        add_incoming(opens, function, table, params, place, one)?;
    }
    Ok(())
}

fn add_phis(
    opens: &mut Vec<OpenUse>,
    function: &Function,
    table: &Items<BlockId>,
    params: &Items<bool>,
    func: FuncId,
    block: BlockId,
    phis: &[Phi],
) -> Result<(), AllocError>
    requires { HasPositions function.now table.now }
    ensures { OnOk result (opens.new.items ≡ opens.old.items ++ open_phis function.now params.now func block 0 phis.now) }
{
    let mut at = 0;
    for phi in phis {
        let place = instr_place(func, block, at);
        add_phi(
            opens,
            function,
            table,
            params,
            place,
            phi.incoming.as_slice(),
        )?;
        at = next(at)?;
    }
    Ok(())
}

fn note(last: &mut Items<Option<BlockId>>, block: BlockId, value: Option<ValueId>)
    ensures { last.new ≡ noted last.old block value }
{
    if let Some(value) = value {
        last.set(value, Some(block));
    }
}

fn note_phis(last: &mut Items<Option<BlockId>>, block: BlockId, phis: &[Phi])
    ensures { last.new ≡ noted_phis last.old block phis.now }
{
    for phi in phis {
        last.set(phi.result, Some(block));
    }
}

fn add_instr(
    alloc: Global,
    opens: &mut Vec<OpenUse>,
    params: &Items<bool>,
    last: &Items<Option<BlockId>>,
    place: Place,
    block: BlockId,
    instr: &Instr,
) -> Result<(), AllocError>
    ensures { OnOk result (opens.new.items ≡ opens.old.items ++ open_at params.now last.now place block (locals_in (instr_operands instr.now))) }
{
    let values = instr_locals(alloc, instr)?;
    add_uses(opens, params, last, place, block, values.as_slice())
}

/// Adds the uses of instructions, and notes what they make.
fn add_instrs(
    alloc: Global,
    opens: &mut Vec<OpenUse>,
    params: &Items<bool>,
    last: &mut Items<Option<BlockId>>,
    func: FuncId,
    block: BlockId,
    first: usize,
    instrs: &[Instr],
) -> Result<(), AllocError>
    ensures opens { OnOk result (opens.new.items ≡ opens.old.items ++ open_instrs params.now last.old func block first instrs.now) }
    ensures last { OnOk result (last.new ≡ noted_instrs last.old block instrs.now) }
{
    let mut at = first;
    for instr in instrs {
        let place = instr_place(func, block, at);
        add_instr(alloc, opens, params, last, place, block, instr)?;
        note(last, block, result_of(instr));
        at = next(at)?;
    }
    Ok(())
}

fn behind(phis: usize, instrs: usize) -> Result<usize, AllocError>
    ensures { IfOk result (λ n. n ≡ phis + instrs) }
{
    match phis.checked_add(instrs) {
        Some(at) => Ok(at),
        None => Err(AllocError),
    }
}

/// Adds the uses of a block, and notes what it makes.
#[tactic(auto, unfolding(crate::specs::Scan::open_block))]
fn add_block(
    alloc: Global,
    opens: &mut Vec<OpenUse>,
    function: &Function,
    table: &Items<BlockId>,
    params: &Items<bool>,
    last: &mut Items<Option<BlockId>>,
    func: FuncId,
    at: BlockId,
    block: &Block,
) -> Result<(), AllocError>
    requires { HasPositions function.now table.now }
    ensures opens { OnOk result (opens.new.items ≡ opens.old.items ++ open_block function.now params.now last.old func at block.now) }
    ensures last { OnOk result (last.new ≡ noted_block last.old at block.now) }
{
    let phis = block.phis.as_slice();
    let instrs = block.instrs.as_slice();
    add_phis(opens, function, table, params, func, at, phis)?;
    note_phis(last, at, phis);
    add_instrs(alloc, opens, params, last, func, at, phis.len(), instrs)?;
    let values = ending_locals(alloc, &block.term)?;
    let place = instr_place(func, at, behind(phis.len(), instrs.len())?);
    add_uses(opens, params, last, place, at, values.as_slice())
}

/// The uses of a function whose values aren't known where they are used, in order of the text.
pub fn open_uses(
    alloc: Global,
    func: FuncId,
    function: &Function,
    params: &Items<bool>,
) -> Result<Vec<OpenUse>, AllocError>
    ensures { IfOk result (λ all. all.items ≡ open_blocks function.now params.now (replicate (length function.now.names) None) func 0 function.now.blocks) }
{
    let table = positions_of(alloc, function)?;
    let mut last = Items::from_vec(vec![in alloc; None; function.names.len()]?);
    let mut opens = Vec::new(alloc);
    for (at, block) in function.blocks.as_slice().iter().enumerate() {
        add_block(
            alloc, &mut opens, function, &table, params, &mut last, func, at, block,
        )?;
    }
    Ok(opens)
}
