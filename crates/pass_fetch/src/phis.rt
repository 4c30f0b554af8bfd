//! Phis whose operands are fetched anew, which happens elsewhere.

ghost use Rattle.std.specs.Prelude.{◌≡◌, IfOk, OnOk};
ghost use Rattle.pass_fetch.specs.Fetching.{fetched_operand, next_after};
ghost use Rattle.pass_fetch.specs.Blocks.{fetched_incoming, fetched_phi, fetched_phis, next_after_phi, next_after_phis};

use crate::fetch::{Fetch, later};
use crate::operands::fetch_of;
use ir_base::{Data, Items, ValueId};
use ir_model::{Incoming, Operand, Phi};
use std::alloc::{AllocError, Global};

fn fetched_operand(
    alloc: Global,
    fetches: &[Option<Fetch>],
    next: &mut ValueId,
    operand: &Operand,
) -> Result<Operand, AllocError>
    ensures value { IfOk result (λ x. x ≡ fetched_operand fetches.now next.old operand.now) }
    ensures next { OnOk result (next.new ≡ next_after fetches.now next.old operand.now) }
{
    match fetch_of(fetches, operand) {
        None => operand.copied(alloc),
        Some(_) => {
            let id = *next;
            *next = later(id)?;
            Ok(Operand::Local(id))
        }
    }
}

fn fetched_phi(
    alloc: Global,
    fetches: &[Option<Fetch>],
    next: &mut ValueId,
    phi: &Phi,
) -> Result<Phi, AllocError>
    ensures value { IfOk result (λ x. x ≡ fetched_phi fetches.now next.old phi.now) }
    ensures next { OnOk result (next.new ≡ next_after_phi fetches.now next.old phi.now) }
{
    let mut all = Items::new(alloc);
    for incoming in phi.incoming.as_slice() {
        all.push(Incoming {
            value: fetched_operand(alloc, fetches, next, &incoming.value)?,
            from: incoming.from,
        })?;
    }
    Ok(Phi {
        result: phi.result,
        ty: phi.ty.copied(alloc)?,
        incoming: all,
    })
}

/// The phis with the operands that are fetched from a name on.
pub fn fetched_phis(
    alloc: Global,
    fetches: &[Option<Fetch>],
    next: &mut ValueId,
    phis: &[Phi],
) -> Result<Items<Phi>, AllocError>
    ensures value { IfOk result (λ x. x ≡ fetched_phis fetches.now next.old phis.now) }
    ensures next { OnOk result (next.new ≡ next_after_phis fetches.now next.old phis.now) }
{
    let mut all = Items::new(alloc);
    for phi in phis {
        all.push(fetched_phi(alloc, fetches, next, phi)?)?;
    }
    Ok(all)
}
