//! The labels of the blocks on edges.

ghost use Rattle.std.specs.Prelude.{◌≡◌, ◌++◌, IfOk, OnOk};
ghost use Rattle.pass_exits.specs.ExitBlocks.{exit_name, exit_names, mark_text};

use crate::exit::Exit;
use ir_base::{Items, Name, SuspendId};
use ir_model::numbered_name;
use itoa::Buffer;
use pass_intrinsics::later;
use std::alloc::{AllocError, Global};

/// The label of an edge without the edge's number.
fn mark_text(alloc: Global, suspend: SuspendId) -> Result<Vec<u8>, AllocError>
    ensures { IfOk result (λ v. v.items ≡ mark_text suspend) }
{
    let mut buffer = Buffer::new();
    let mut all = Vec::from_slice(alloc, b"$c.back.")?;
    all.extend_from_slice(buffer.format(suspend).as_bytes())?;
    all.extend_from_slice(b".")?;
    Ok(all)
}

/// The label of the block on an edge, by the suspend of the window that it leaves and its number among such edges.
fn exit_name(alloc: Global, suspend: SuspendId, number: usize) -> Result<Name, AllocError>
    ensures { IfOk result (λ n. n ≡ exit_name suspend number) }
{
    let text = mark_text(alloc, suspend)?;
    numbered_name(alloc, text.as_slice(), number)
}

/// Adds the labels of edges.
pub fn push_exit_names(
    alloc: Global,
    names: &mut Items<Name>,
    exits: &[Exit],
) -> Result<(), AllocError>
    ensures { OnOk result (names.new ≡ names.old ++ exit_names 0 exits.now) }
{
    let mut number = 0;
    for exit in exits {
        names.push(exit_name(alloc, exit.suspend, number)?)?;
        number = later(number, 1)?;
    }
    Ok(())
}
