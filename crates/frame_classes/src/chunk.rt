//! What is found of a chunk of at most 64 slots.

ghost use Rattle.std.specs.Prelude.{◌≤◌, IfOk, length};
ghost use Rattle.frame_classes.specs.Words.{IsChunkOf, IsPlanOf};

use crate::plan::Plan;
use crate::rows::Rows;
use frame_slots::{
    EdgeWord, Marker, address_words, edge_words, escaped_word, marker_rows, slot_words, use_rows,
};
use ir_base::{Items, ValueId};
use ir_model::Function;
use std::alloc::{AllocError, Global};

/// What is found of a chunk of at most 64 slots, each of which has a bit of the words.
#[derive(Drop)]
pub struct Chunk {
    /// For each name the slot of that name.
    pub own: Items<u64>,
    /// For each name the slots of which it is an address.
    pub addresses: Items<u64>,
    /// The slots that are used at each point.
    pub uses: Rows,
    /// The slots that phis take on edges.
    pub edges: Items<EdgeWord>,
    /// The slots that escape.
    pub escaped: u64,
    /// The slots that start at each point.
    pub starts: Rows,
}

/// What is found of a chunk of at most 64 slots.
pub fn chunk_words(
    alloc: Global,
    function: &Function,
    plan: &Plan,
    slots: &[ValueId],
) -> Result<Chunk, AllocError>
    requires count { length slots.now ≤ 64 }
    requires plan { IsPlanOf function.now plan.now }
    ensures { IfOk result (IsChunkOf function.now slots.now) }
{
    let own = slot_words(alloc, slots)?;
    let addresses = address_words(alloc, function, slots)?;
    let uses = use_rows(alloc, function, addresses.as_slice())?;
    let edges = edge_words(alloc, addresses.as_slice(), plan.phis.as_slice())?;
    let escaped = escaped_word(function, addresses.as_slice());
    let starts = marker_rows(alloc, Marker::Start, function, own.as_slice(), &plan.marks)?;
    Ok(Chunk {
        own: Items::from_vec(own),
        addresses: Items::from_vec(addresses),
        uses,
        edges,
        escaped,
        starts,
    })
}
