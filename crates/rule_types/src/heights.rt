//! The depths of the named types.

ghost use Rattle.std.specs.Prelude.{◌≡◌, IfOk, map};
ghost use Rattle.ir_model.specs.Ty.{to_tys};
ghost use Rattle.rule_types.specs.Depth.{fields_pass, parts_pass};
ghost use Rattle.rule_types.specs.Heights.{fits_by, reaches as reaches_by, height_to, full_height, height_after, heights_after};

use ir_base::{Items, Name};
use ir_model::{IrType, Node, TypeItem};
use ir_tables::Names;
use std::alloc::{AllocError, Global};

fn reaches(names: &Names<'_>, heights: &[u32], name: &Name, depth: u32) -> bool
    ensures { result ≡ reaches_by names.now.source.now.types heights.now name.now depth }
{
    match names.type_named(name) {
        None => true,
        Some(at) => match heights.get(at) {
            None => false,
            Some(height) => *height <= depth,
        },
    }
}

/// Whether the depth of a type is at most so much, by the depths of the named types.
#[cycle(fits)]
pub fn fits(names: &Names<'_>, heights: &[u32], depth: u32, ty: &IrType) -> bool
    ensures { result ≡ fits_by (reaches_by names.now.source.now.types heights.now) depth ty.now }
{
    if depth == 0 {
        return false;
    }
    match ty.node() {
        Node::Int(_) | Node::Ptr | Node::Token => true,
        Node::Array(_, element) => fits(names, heights, depth - 1, element),
        Node::Struct(fields) => fields_fit(names, heights, depth - 1, fields),
        Node::Named(name) => reaches(names, heights, name, depth),
    }
}

#[cycle(fits)]
fn fields_fit(names: &Names<'_>, heights: &[u32], depth: u32, fields: &[IrType]) -> bool
    ensures { result ≡ fields_pass (fits_by (reaches_by names.now.source.now.types heights.now) depth) (to_tys fields.now) }
{
    for field in fields {
        if !fits(names, heights, depth, field) {
            return false;
        }
    }
    true
}

/// Whether the depths of the parts of a type are at most so much.
fn parts_fit(names: &Names<'_>, heights: &[u32], depth: u32, ty: &IrType) -> bool
    ensures { result ≡ parts_pass (fits_by (reaches_by names.now.source.now.types heights.now) depth) ty.now }
{
    match ty.node() {
        Node::Array(_, element) => fits(names, heights, depth, element),
        Node::Struct(fields) => fields_fit(names, heights, depth, fields),
        _ => true,
    }
}

fn height_after(
    names: &Names<'_>,
    heights: &[u32],
    depth: u32,
    ty: &IrType,
    height: u32,
) -> Result<u32, AllocError>
    ensures { IfOk result (λ h. h ≡ height_after (reaches_by names.now.source.now.types heights.now) depth ty.now height) }
{
    if height <= 64 {
        return Ok(height);
    }
    if !parts_fit(names, heights, depth, ty) {
        return Ok(65);
    }
    match depth.checked_add(1) {
        None => Err(AllocError),
        Some(height) => Ok(height),
    }
}

/// The depths where those at most so much were known.
fn heights_after(
    alloc: Global,
    names: &Names<'_>,
    heights: &[u32],
    depth: u32,
) -> Result<Items<u32>, AllocError>
    ensures { IfOk result (λ all. all ≡ heights_after (reaches_by names.now.source.now.types heights.now) depth names.now.source.now.types heights.now) }
{
    let mut all = Items::new(alloc);
    let mut types = names.source.types.as_slice();
    let mut before = heights;
    loop {
        match types {
            [] => return Ok(all),
            [item, later @ ..] => match before {
                [] => return Ok(all),
                [height, later_heights @ ..] => {
                    all.push(height_after(names, heights, depth, &item.ty, *height)?)?;
                    types = later;
                    before = later_heights;
                }
            },
        }
    }
}

fn no_heights(alloc: Global, types: &[TypeItem]) -> Result<Items<u32>, AllocError>
    ensures { IfOk result (λ all. all ≡ map (λ t. height_to types.now 0 t.ty) types.now) }
{
    let mut all = Items::new(alloc);
    for _item in types {
        all.push(65)?;
    }
    Ok(all)
}

/// The depths of the named types, 65 standing for all above 64.
pub fn heights_of(alloc: Global, names: &Names<'_>) -> Result<Items<u32>, AllocError>
    ensures { IfOk result (λ all. all ≡ map (λ t. full_height names.now.source.now.types t.ty) names.now.source.now.types) }
{
    let mut heights = no_heights(alloc, names.source.types.as_slice())?;
    let mut depth: u32 = 0;
    while depth < 64 {
        heights = heights_after(alloc, names, heights.as_slice(), depth)?;
        depth += 1;
    }
    Ok(heights)
}
