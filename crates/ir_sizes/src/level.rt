//! A table of the extents of named types.

ghost use Rattle.std.specs.Prelude.{◌≡◌, IfOk, None, map};
ghost use Rattle.ir_model.specs.Ty.{to_tys};
ghost use Rattle.ir_sizes.specs.Cut.{cut_in, cut_fields, cut_start, cut_whole};
ghost use Rattle.ir_sizes.specs.Levels.{known as known_in, next_table as next_table_of, full_table};

use crate::extent::{Extent, add_field, closed, no_fields, plain, repeated, width_bytes};
use ir_base::{Data, Items, Name};
use ir_model::{IrType, Node, TypeItem};
use ir_tables::Names;
use std::alloc::{AllocError, Global};

fn known(names: &Names<'_>, table: &[Option<Extent>], name: &Name) -> Option<Extent>
    ensures { result ≡ known_in names.now.source.now.types table.now name.now }
{
    match names.type_named(name) {
        None => None,
        Some(at) => match table.get(at) {
            None => None,
            Some(extent) => *extent,
        },
    }
}

/// The extent of a type, down through at most so many brackets, by the extents of the named types.
#[cycle(extent)]
fn extent_in(names: &Names<'_>, table: &[Option<Extent>], depth: u32, ty: &IrType) -> Option<Extent>
    ensures { result ≡ cut_in (known_in names.now.source.now.types table.now) depth ty.now }
{
    if depth == 0 {
        return None;
    }
    match ty.node() {
        Node::Int(width) => Some(plain(width_bytes(*width))),
        Node::Ptr => Some(plain(8)),
        Node::Token => None,
        Node::Array(count, element) => match extent_in(names, table, depth - 1, element) {
            None => None,
            Some(extent) => Some(repeated(*count, extent)),
        },
        Node::Struct(fields) => match fields_extent(names, table, depth - 1, fields) {
            None => None,
            Some(extent) => Some(closed(extent)),
        },
        Node::Named(name) => known(names, table, name),
    }
}

#[cycle(extent)]
fn fields_extent(
    names: &Names<'_>,
    table: &[Option<Extent>],
    depth: u32,
    fields: &[IrType],
) -> Option<Extent>
    ensures { result ≡ cut_fields (cut_in (known_in names.now.source.now.types table.now) depth) cut_start (to_tys fields.now) }
{
    let mut so_far = no_fields();
    for field in fields {
        match extent_in(names, table, depth, field) {
            None => return None,
            Some(extent) => so_far = add_field(so_far, extent),
        }
    }
    Some(so_far)
}

/// The extent of a type, as deep as types may be.
#[tactic(auto, unfolding(crate::specs::Cut::cut_whole))]
pub fn whole_extent(names: &Names<'_>, table: &[Option<Extent>], ty: &IrType) -> Option<Extent>
    ensures { result ≡ cut_whole (known_in names.now.source.now.types table.now) ty.now }
{
    extent_in(names, table, 64, ty)
}

/// The table that goes one name further.
fn next_table(
    alloc: Global,
    names: &Names<'_>,
    table: &[Option<Extent>],
) -> Result<Items<Option<Extent>>, AllocError>
    ensures { IfOk result (λ all. all ≡ next_table_of names.now.source.now.types table.now) }
{
    let mut all = Items::new(alloc);
    for item in names.source.types.as_slice() {
        all.push(whole_extent(names, table, &item.ty))?;
    }
    Ok(all)
}

fn no_extents(alloc: Global, types: &[TypeItem]) -> Result<Items<Option<Extent>>, AllocError>
    ensures { IfOk result (λ all. all ≡ map (λ t. None) types.now) }
{
    let mut all = Items::new(alloc);
    for _item in types {
        all.push(None)?;
    }
    Ok(all)
}

/// The extents of the named types. Where going one name further tells nothing new, nothing further does.
pub fn table_of(alloc: Global, names: &Names<'_>) -> Result<Items<Option<Extent>>, AllocError>
    ensures { IfOk result (λ all. all ≡ full_table names.now.source.now.types) }
{
    let mut table = no_extents(alloc, names.source.types.as_slice())?;
    let mut depth: u32 = 0;
    while depth < 64 {
        let next = next_table(alloc, names, table.as_slice())?;
        if next.is_same(&table) {
            return Ok(table);
        }
        table = next;
        depth += 1;
    }
    Ok(table)
}
