//! Places as they are written.

ghost use Rattle.std.specs.Prelude.{◌≡◌, ◌++◌, OnOk, codes, option_map, slice_get};
ghost use Rattle.cli_report.specs.Report.{name_text, item_text, function_of, label_text, in_function, block_text, instr_text, place_text};

use crate::word::push_number;
use ir_base::{BlockId, FuncId, Item, Name, Place, ValueId};
use ir_model::{Declaration, Function, GlobalItem, Module, TypeItem};
use std::alloc::AllocError;
use text_names::print_name;

fn push_name_at(out: &mut Vec<u8>, names: &[Name], at: ValueId) -> Result<(), AllocError>
    ensures { OnOk result (out.new.items ≡ out.old.items ++ name_text (slice_get names.now at)) }
{
    match names.get(at) {
        None => Ok(()),
        Some(name) => print_name(name, out),
    }
}

fn push_type(out: &mut Vec<u8>, types: &[TypeItem], at: usize) -> Result<(), AllocError>
    ensures { OnOk result (out.new.items ≡ out.old.items ++ codes "%" ++ name_text (option_map (λ t. t.name) (slice_get types.now at))) }
{
    out.extend_from_slice(b"%")?;
    match types.get(at) {
        None => Ok(()),
        Some(item) => print_name(&item.name, out),
    }
}

fn push_global(out: &mut Vec<u8>, globals: &[GlobalItem], at: usize) -> Result<(), AllocError>
    ensures { OnOk result (out.new.items ≡ out.old.items ++ codes "@" ++ name_text (option_map (λ g. g.name) (slice_get globals.now at))) }
{
    out.extend_from_slice(b"@")?;
    match globals.get(at) {
        None => Ok(()),
        Some(global) => print_name(&global.name, out),
    }
}

fn push_declared(
    out: &mut Vec<u8>,
    declarations: &[Declaration],
    at: usize,
) -> Result<(), AllocError>
    ensures { OnOk result (out.new.items ≡ out.old.items ++ codes "@" ++ name_text (option_map (λ d. d.name) (slice_get declarations.now at))) }
{
    out.extend_from_slice(b"@")?;
    match declarations.get(at) {
        None => Ok(()),
        Some(declaration) => print_name(&declaration.name, out),
    }
}

fn push_function(out: &mut Vec<u8>, functions: &[Function], func: FuncId) -> Result<(), AllocError>
    ensures { OnOk result (out.new.items ≡ out.old.items ++ codes "@" ++ name_text (option_map (λ f. f.name) (slice_get functions.now func))) }
{
    out.extend_from_slice(b"@")?;
    match functions.get(func) {
        None => Ok(()),
        Some(function) => print_name(&function.name, out),
    }
}

fn push_item(out: &mut Vec<u8>, source: &Module, item: Item) -> Result<(), AllocError>
    ensures { OnOk result (out.new.items ≡ out.old.items ++ item_text source.now item) }
{
    match item {
        Item::Type(at) => push_type(out, source.types.as_slice(), at),
        Item::Global(at) => push_global(out, source.globals.as_slice(), at),
        Item::Declaration(at) => push_declared(out, source.declarations.as_slice(), at),
        Item::Function(func) => push_function(out, source.functions.as_slice(), func),
    }
}

fn push_label(out: &mut Vec<u8>, function: &Function, block: BlockId) -> Result<(), AllocError>
    ensures { OnOk result (out.new.items ≡ out.old.items ++ label_text function.now (slice_get function.now.blocks block)) }
{
    match function.blocks.get(block) {
        None => Ok(()),
        Some(block) => push_name_at(out, function.names.as_slice(), block.label),
    }
}

fn push_in_function(
    out: &mut Vec<u8>,
    source: &Module,
    func: FuncId,
    block: BlockId,
) -> Result<(), AllocError>
    ensures { OnOk result (out.new.items ≡ out.old.items ++ in_function (slice_get source.now.functions func) block) }
{
    match source.functions.get(func) {
        None => Ok(()),
        Some(function) => push_label(out, function, block),
    }
}

fn push_block(
    out: &mut Vec<u8>,
    source: &Module,
    item: Item,
    block: Option<BlockId>,
) -> Result<(), AllocError>
    ensures { OnOk result (out.new.items ≡ out.old.items ++ block_text (function_of source.now item) block) }
{
    match block {
        None => Ok(()),
        Some(block) => {
            out.extend_from_slice(b" %")?;
            match item {
                Item::Function(func) => push_in_function(out, source, func, block),
                _ => Ok(()),
            }
        }
    }
}

fn push_instr(out: &mut Vec<u8>, instr: Option<usize>) -> Result<(), AllocError>
    ensures { OnOk result (out.new.items ≡ out.old.items ++ instr_text instr) }
{
    match instr {
        None => Ok(()),
        Some(at) => {
            out.extend_from_slice(b" ")?;
            push_number(out, at as u64)
        }
    }
}

/// Adds the place of a type (`%T`), of a global or a function (`@x`), of a block of a function (`@f %block`), or of an
/// instruction there (`@f %block N`).
pub fn push_place(out: &mut Vec<u8>, source: &Module, place: Place) -> Result<(), AllocError>
    ensures { OnOk result (out.new.items ≡ out.old.items ++ place_text source.now place) }
{
    push_item(out, source, place.item)?;
    push_block(out, source, place.item, place.block)?;
    push_instr(out, place.instr)
}
