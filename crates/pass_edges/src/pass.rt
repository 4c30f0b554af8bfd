//! The pass over a function.

ghost use Rattle.std.specs.Prelude.{◌≡◌, ◌++◌, ◌∷◌, IfOk, OnOk, length};
ghost use Rattle.pass_edges.specs.EdgeBlocks.{edge_names, split_function, with_edge_blocks};

use crate::blocks::split_blocks;
use crate::edge::Edge;
use crate::edges::{edges_of, phi_flags};
use crate::table::edge_table;
use ir_base::{Data, Items, Name};
use ir_model::{Function, numbered_name};
use std::alloc::{AllocError, Global};

/// Adds the labels of so many edges.
#[tactic(auto, using(crate::proofs::Names::edge_names_step))]
fn push_edge_names(alloc: Global, names: &mut Items<Name>, count: usize) -> Result<(), AllocError>
    ensures { OnOk result (names.new ≡ names.old ++ edge_names count) }
{
    for k in 0..count {
        names.push(numbered_name(alloc, b"$c.edge.", k)?)?;
    }
    Ok(())
}

fn split_function(
    alloc: Global,
    function: &Function,
    flags: &Items<bool>,
    edges: &[Edge],
) -> Result<Function, AllocError>
    ensures { IfOk result (λ f. f ≡ split_function function.now flags.now edges.now) }
{
    let table = edge_table(alloc, function, edges)?;
    let first = function.names.len();
    let mut names = function.names.copied(alloc)?;
    push_edge_names(alloc, &mut names, edges.len())?;
    Ok(Function {
        name: function.name.copied(alloc)?,
        result: Data::copied(&function.result, alloc)?,
        params: function.params.copied(alloc)?,
        coroutine: function.coroutine,
        blocks: split_blocks(alloc, flags, &table, first, function.blocks.as_slice())?,
        names,
    })
}

/// The function with a block on each edge to a block that has phis and on each edge of a suspend's switch but its default one
/// ("Coroutines in LLVM", "llvm.coro.suspend"). Each phi takes its operands from these blocks.
pub fn with_edge_blocks(alloc: Global, function: &Function) -> Result<Function, AllocError>
    ensures { IfOk result (λ f. f ≡ with_edge_blocks function.now) }
{
    let flags = phi_flags(alloc, function)?;
    let edges = edges_of(alloc, &flags, function)?;
    split_function(alloc, function, &flags, edges.as_slice())
}
