//! How values are fetched.

ghost use Rattle.std.specs.Prelude.{◌≡◌, ◌+◌, IfOk};
ghost use Rattle.ir_model.specs.Layout.{bytes_of_width};
ghost use Rattle.ir_model.specs.Ty.{int};
ghost use Rattle.ir_model.specs.TypeView.{bits_of};
ghost use Rattle.pass_fetch.specs.Fetching.{address_behind, fetch_into, fetch_of, value_bytes};

use ir_base::{Data, Short, ValueId};
use ir_model::{Arg, Instr, IntWidth, IrType, Node, Operand};
use std::alloc::{AllocError, Global};

/// How a value is fetched anew before a use.
#[derive(Drop)]
pub enum Fetch {
    /// It is loaded, as a value of this type, from a cell, which is aligned as the type is large.
    Load { ty: IrType, cell: ValueId },
    /// It is the address so many bytes behind another.
    Address { base: ValueId, distance: u64 },
}

fn width_bytes(width: IntWidth) -> u64
    ensures { result ≡ bytes_of_width (bits_of width) }
{
    match width {
        IntWidth::I1 | IntWidth::I8 => 1,
        IntWidth::I16 => 2,
        IntWidth::I32 => 4,
        IntWidth::I64 => 8,
    }
}

fn value_bytes(ty: &IrType) -> u64
    ensures { result ≡ value_bytes ty.now }
{
    match ty.node() {
        Node::Int(width) => width_bytes(*width),
        _ => 8,
    }
}

/// The address so many bytes behind that of a name.
pub fn address_behind(
    alloc: Global,
    id: ValueId,
    base: ValueId,
    distance: u64,
) -> Result<Instr, AllocError>
    ensures { IfOk result (λ i. i ≡ address_behind id base distance) }
{
    let mut indices = Short::new(alloc);
    indices.push(Arg {
        ty: IrType::int(IntWidth::I64),
        value: Operand::Number(i128::from(distance)),
    })?;
    Ok(Instr::Gep {
        result: id,
        inbounds: false,
        ty: IrType::int(IntWidth::I8),
        base: Operand::Local(base),
        indices,
    })
}

/// The instruction that fetches into a name.
pub fn fetch_into(alloc: Global, id: ValueId, fetch: &Fetch) -> Result<Instr, AllocError>
    ensures { IfOk result (λ i. i ≡ fetch_into id fetch.now) }
{
    match fetch {
        Fetch::Load { ty, cell } => Ok(Instr::Load {
            result: id,
            ty: ty.copied(alloc)?,
            address: Operand::Local(*cell),
            align: value_bytes(ty),
        }),
        Fetch::Address { base, distance } => address_behind(alloc, id, *base, *distance),
    }
}

/// The name after a name.
pub fn later(id: ValueId) -> Result<ValueId, AllocError>
    ensures { IfOk result (λ n. n ≡ id + 1) }
{
    match id.checked_add(1) {
        Some(next) => Ok(next),
        None => Err(AllocError),
    }
}
