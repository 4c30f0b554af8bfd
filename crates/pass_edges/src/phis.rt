//! Phis, which take their operands from the blocks on edges.

ghost use Rattle.std.specs.Prelude.{◌≡◌, IfOk, map, filter_map};
ghost use Rattle.pass_edges.specs.EdgeBlocks.{incoming_on, split_phi};
ghost use Rattle.pass_edges.specs.Positions.{FindsFirst};

use crate::edge::Edge;
use crate::operands::{Positions, operand_from, positions_of};
use ir_base::{Data, Items};
use ir_model::{Incoming, Phi};
use std::alloc::{AllocError, Global};

fn incoming_on(
    alloc: Global,
    positions: &Positions,
    incoming: &[Incoming],
    edge: Edge,
) -> Result<Option<Incoming>, AllocError>
    requires { FindsFirst incoming.now positions.now }
    ensures { IfOk result (λ o. o ≡ incoming_on incoming.now edge) }
{
    match operand_from(alloc, positions, incoming, edge.from)? {
        None => Ok(None),
        Some(value) => Ok(Some(Incoming {
            value,
            from: edge.label,
        })),
    }
}

fn all_incoming(
    alloc: Global,
    edges: &[Edge],
    incoming: &[Incoming],
) -> Result<Items<Incoming>, AllocError>
    ensures { IfOk result (λ x. x ≡ filter_map (incoming_on incoming.now) edges.now) }
{
    let positions = positions_of(alloc, incoming)?;
    let mut all = Items::new(alloc);
    for edge in edges {
        if let Some(one) = incoming_on(alloc, &positions, incoming, *edge)? {
            all.push(one)?;
        }
    }
    Ok(all)
}

/// The phis of a block to which these edges lead.
pub fn split_phis(alloc: Global, edges: &[Edge], phis: &[Phi]) -> Result<Items<Phi>, AllocError>
    ensures { IfOk result (λ x. x ≡ map (split_phi edges.now) phis.now) }
{
    let mut all = Items::new(alloc);
    for phi in phis {
        all.push(Phi {
            result: phi.result,
            ty: phi.ty.copied(alloc)?,
            incoming: all_incoming(alloc, edges, phi.incoming.as_slice())?,
        })?;
    }
    Ok(all)
}
