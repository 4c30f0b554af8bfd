//! What phis take, on edges.

ghost use Rattle.std.specs.Prelude.{◌≡◌, ◌==◌, ◌++◌, IfOk, OnOk};
ghost use Rattle.run_step.specs.Tables.{HasPositions};
ghost use Rattle.frame_slots.specs.Words.{edge_unless, edge_words as words_of_edges, incoming_uses, phi_uses as uses_of_phis, phis_uses, use_if, use_on, uses_from};

use crate::edge::{EdgeWord, PhiUse};
use crate::words::name_word;
use ir_base::{BlockId, Items};
use ir_model::{Block, Function, Incoming, Operand, Phi};
use ir_parts::next;
use run_step::{position, positions_of};
use std::alloc::{AllocError, Global};

fn push_use(
    uses: &mut Items<PhiUse>,
    from: BlockId,
    to: BlockId,
    operand: &Operand,
) -> Result<(), AllocError>
    ensures { OnOk result (uses.new ≡ uses.old ++ use_on from to operand.now) }
{
    if let Operand::Local(value) = operand {
        uses.push(PhiUse {
            from,
            to,
            value: *value,
        })?;
    }
    Ok(())
}

fn push_if(
    uses: &mut Items<PhiUse>,
    is_block: bool,
    from: BlockId,
    to: BlockId,
    operand: &Operand,
) -> Result<(), AllocError>
    ensures { OnOk result (uses.new ≡ uses.old ++ use_if is_block from to operand.now) }
{
    if is_block {
        push_use(uses, from, to, operand)?;
    }
    Ok(())
}

fn push_incoming(
    uses: &mut Items<PhiUse>,
    function: &Function,
    table: &Items<BlockId>,
    to: BlockId,
    incoming: &[Incoming],
) -> Result<(), AllocError>
    requires { HasPositions function.now table.now }
    ensures { OnOk result (uses.new ≡ uses.old ++ incoming_uses function.now to incoming.now) }
{
    for one in incoming {
        let from = position(function, table, one.from);
        push_if(uses, from < function.blocks.len(), from, to, &one.value)?;
    }
    Ok(())
}

fn push_phis(
    uses: &mut Items<PhiUse>,
    function: &Function,
    table: &Items<BlockId>,
    to: BlockId,
    phis: &[Phi],
) -> Result<(), AllocError>
    requires { HasPositions function.now table.now }
    ensures { OnOk result (uses.new ≡ uses.old ++ phis_uses function.now to phis.now) }
{
    for phi in phis {
        push_incoming(uses, function, table, to, phi.incoming.as_slice())?;
    }
    Ok(())
}

fn push_blocks(
    uses: &mut Items<PhiUse>,
    function: &Function,
    table: &Items<BlockId>,
    blocks: &[Block],
) -> Result<(), AllocError>
    requires { HasPositions function.now table.now }
    ensures { OnOk result (uses.new ≡ uses.old ++ uses_from function.now 0 blocks.now) }
{
    let mut at = 0;
    for block in blocks {
        push_phis(uses, function, table, at, block.phis.as_slice())?;
        at = next(at)?;
    }
    Ok(())
}

/// What the phis of a function take, in order of the text.
pub fn phi_uses(alloc: Global, function: &Function) -> Result<Items<PhiUse>, AllocError>
    ensures { IfOk result (λ uses. uses ≡ uses_of_phis function.now) }
{
    let table = positions_of(alloc, function)?;
    let mut uses = Items::new(alloc);
    push_blocks(&mut uses, function, &table, function.blocks.as_slice())?;
    Ok(uses)
}

fn push_edge_word(all: &mut Items<EdgeWord>, one: &PhiUse, word: u64) -> Result<(), AllocError>
    ensures { OnOk result (all.new ≡ all.old ++ edge_unless (word == 0) one.now.from one.now.to word) }
{
    if word != 0 {
        all.push(EdgeWord {
            from: one.from,
            to: one.to,
            word,
        })?;
    }
    Ok(())
}

/// The words of what phis take, apart from empty ones.
pub fn edge_words(
    alloc: Global,
    words: &[u64],
    uses: &[PhiUse],
) -> Result<Items<EdgeWord>, AllocError>
    ensures { IfOk result (λ all. all ≡ words_of_edges words.now uses.now) }
{
    let mut all = Items::new(alloc);
    for one in uses {
        push_edge_word(&mut all, one, name_word(words, one.value))?;
    }
    Ok(all)
}
