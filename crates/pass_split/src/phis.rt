//! The phis of a part, whose labels become those of the pieces from which the edges come.

ghost use Rattle.std.specs.Prelude.{◌≡◌, IfOk, map, filter_map, slice_get};
ghost use Rattle.pass_intrinsics.specs.Shapes.{back_label};
ghost use Rattle.pass_split.specs.Pieces.{going_on, if_same, comes_from, incoming_from, pieced_incoming, pieced_phi};

use crate::origin::Origin;
use ir_base::{Data, Items, SuspendId, ValueId};
use ir_model::{Incoming, Phi};
use pass_intrinsics::{Part, Shape, SuspendPoint};
use std::alloc::{AllocError, Global};

/// The label at which a part goes on behind a suspend.
pub fn going_on(part: Part, point: &SuspendPoint) -> Option<ValueId>
    ensures { result ≡ going_on part (Some point.now) }
{
    match part {
        Part::Ramp | Part::GivenRamp => None,
        Part::Resume => Some(point.resume),
        Part::Destroy | Part::Cleanup => Some(point.destroy),
    }
}

fn going_on_at(shape: &Shape, part: Part, suspend: SuspendId) -> Option<ValueId>
    ensures { result ≡ going_on part (slice_get shape.now.suspends suspend) }
{
    match shape.suspends.get(suspend) {
        None => None,
        Some(point) => going_on(part, point),
    }
}

fn from_suspend(
    shape: &Shape,
    part: Part,
    label: ValueId,
    suspend: SuspendId,
) -> Result<Option<ValueId>, AllocError>
    ensures { IfOk result (λ o. o ≡ if_same label (going_on part (slice_get shape.now.suspends suspend)) (back_label shape.now suspend)) }
{
    match going_on_at(shape, part, suspend) {
        None => Ok(None),
        Some(target) => {
            if target == label {
                Ok(Some(shape.back_label(suspend)?))
            } else {
                Ok(None)
            }
        }
    }
}

fn comes_from(
    shape: &Shape,
    part: Part,
    label: ValueId,
    from: ValueId,
    origin: Option<Origin>,
) -> Result<Option<ValueId>, AllocError>
    ensures { IfOk result (λ o. o ≡ comes_from shape.now part label from origin) }
{
    match origin {
        None => Ok(Some(from)),
        Some(Origin::Piece(piece)) => Ok(Some(piece)),
        Some(Origin::Suspend(suspend)) => from_suspend(shape, part, label, suspend),
        Some(Origin::Nowhere) => Ok(None),
    }
}

fn origin_at(origins: &[Origin], label: ValueId) -> Option<Origin>
    ensures { result ≡ slice_get origins.now label }
{
    match origins.get(label) {
        None => None,
        Some(origin) => Some(*origin),
    }
}

fn pieced_incoming(
    alloc: Global,
    shape: &Shape,
    part: Part,
    origins: &[Origin],
    label: ValueId,
    incoming: &Incoming,
) -> Result<Option<Incoming>, AllocError>
    ensures { IfOk result (λ o. o ≡ pieced_incoming shape.now part origins.now label incoming.now) }
{
    let origin = origin_at(origins, incoming.from);
    match comes_from(shape, part, label, incoming.from, origin)? {
        None => Ok(None),
        Some(from) => Ok(Some(Incoming {
            value: incoming.value.copied(alloc)?,
            from,
        })),
    }
}

fn all_incoming(
    alloc: Global,
    shape: &Shape,
    part: Part,
    origins: &[Origin],
    label: ValueId,
    incoming: &[Incoming],
) -> Result<Items<Incoming>, AllocError>
    ensures { IfOk result (λ x. x ≡ filter_map (pieced_incoming shape.now part origins.now label) incoming.now) }
{
    let mut all = Items::new(alloc);
    for one in incoming {
        if let Some(one) = pieced_incoming(alloc, shape, part, origins, label, one)? {
            all.push(one)?;
        }
    }
    Ok(all)
}

/// The phis of a block with a label.
pub fn pieced_phis(
    alloc: Global,
    shape: &Shape,
    part: Part,
    origins: &[Origin],
    label: ValueId,
    phis: &[Phi],
) -> Result<Items<Phi>, AllocError>
    ensures { IfOk result (λ x. x ≡ map (pieced_phi shape.now part origins.now label) phis.now) }
{
    let mut all = Items::new(alloc);
    for phi in phis {
        let incoming = all_incoming(alloc, shape, part, origins, label, phi.incoming.as_slice())?;
        all.push(Phi {
            result: phi.result,
            ty: phi.ty.copied(alloc)?,
            incoming,
        })?;
    }
    Ok(all)
}
