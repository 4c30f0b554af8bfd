//! The text of items and modules.

ghost use Rattle.std.specs.Prelude.{◌≡◌, ◌++◌, OnOk, IfOk};
ghost use Rattle.text_canonical.specs.grammar.ReadBack.{IsReadBack};
ghost use Rattle.text_canonical.specs.canonical.Items.{coroutine_text, declaration_text, declarations_text, function_text, functions_text, global_item_text, global_items_text, head_text, kind_word, module_text, more_params_text, more_types_text, param_text, params_text, type_item_text, type_items_text, types_text};

use crate::blocks::push_blocks;
use crate::instrs::push_align;
use ir_base::Name;
use ir_model::{Declaration, Function, GlobalItem, IrType, Module, Param, TypeItem};
use std::alloc::{AllocError, Global};
use text_names::print_name;
use text_operands::{push_global, push_local, push_operand, push_result, push_type};

fn push_type_item(item: &TypeItem, out: &mut Vec<u8>) -> Result<(), AllocError>
    ensures { OnOk result (out.new.items ≡ out.old.items ++ type_item_text item.now) }
{
    out.push(b'%')?;
    print_name(&item.name, out)?;
    out.extend_from_slice(b" = type ")?;
    push_type(&item.ty, out)?;
    out.push(b'\n')?;
    Ok(())
}

fn push_type_items(items: &[TypeItem], out: &mut Vec<u8>) -> Result<(), AllocError>
    ensures { OnOk result (out.new.items ≡ out.old.items ++ type_items_text items.now) }
{
    for item in items {
        push_type_item(item, out)?;
    }
    Ok(())
}

fn kind_word(constant: bool) -> &'static [u8]
    ensures { result.now ≡ kind_word constant }
{
    if constant { b"constant" } else { b"global" }
}

fn push_global_item(item: &GlobalItem, out: &mut Vec<u8>) -> Result<(), AllocError>
    ensures { OnOk result (out.new.items ≡ out.old.items ++ global_item_text item.now) }
{
    push_global(&item.name, out)?;
    out.extend_from_slice(b" = ")?;
    out.extend_from_slice(kind_word(item.constant))?;
    out.push(b' ')?;
    push_type(&item.ty, out)?;
    out.push(b' ')?;
    push_operand(&[], &item.init, out)?;
    push_align(item.align, out)?;
    out.push(b'\n')?;
    Ok(())
}

fn push_global_items(items: &[GlobalItem], out: &mut Vec<u8>) -> Result<(), AllocError>
    ensures { OnOk result (out.new.items ≡ out.old.items ++ global_items_text items.now) }
{
    for item in items {
        push_global_item(item, out)?;
    }
    Ok(())
}

fn push_more_types(types: &[IrType], out: &mut Vec<u8>) -> Result<(), AllocError>
    ensures { OnOk result (out.new.items ≡ out.old.items ++ more_types_text types.now) }
{
    for ty in types {
        out.extend_from_slice(b", ")?;
        push_type(ty, out)?;
    }
    Ok(())
}

fn push_types(types: &[IrType], out: &mut Vec<u8>) -> Result<(), AllocError>
    ensures { OnOk result (out.new.items ≡ out.old.items ++ types_text types.now) }
{
    let [first, others @ ..] = types else {
        return Ok(());
    };
    push_type(first, out)?;
    push_more_types(others, out)
}

fn push_declaration(item: &Declaration, out: &mut Vec<u8>) -> Result<(), AllocError>
    ensures { OnOk result (out.new.items ≡ out.old.items ++ declaration_text item.now) }
{
    out.extend_from_slice(b"declare ")?;
    push_result(&item.result, out)?;
    out.push(b' ')?;
    push_global(&item.name, out)?;
    out.push(b'(')?;
    push_types(item.params.as_slice(), out)?;
    out.extend_from_slice(b")\n")
}

fn push_declarations(items: &[Declaration], out: &mut Vec<u8>) -> Result<(), AllocError>
    ensures { OnOk result (out.new.items ≡ out.old.items ++ declarations_text items.now) }
{
    for item in items {
        push_declaration(item, out)?;
    }
    Ok(())
}

fn push_param(names: &[Name], param: &Param, out: &mut Vec<u8>) -> Result<(), AllocError>
    ensures { OnOk result (out.new.items ≡ out.old.items ++ param_text names.now param.now) }
{
    push_type(&param.ty, out)?;
    out.push(b' ')?;
    push_local(names, param.name, out)
}

fn push_more_params(names: &[Name], params: &[Param], out: &mut Vec<u8>) -> Result<(), AllocError>
    ensures { OnOk result (out.new.items ≡ out.old.items ++ more_params_text names.now params.now) }
{
    for param in params {
        out.extend_from_slice(b", ")?;
        push_param(names, param, out)?;
    }
    Ok(())
}

fn push_params(names: &[Name], params: &[Param], out: &mut Vec<u8>) -> Result<(), AllocError>
    ensures { OnOk result (out.new.items ≡ out.old.items ++ params_text names.now params.now) }
{
    let [first, others @ ..] = params else {
        return Ok(());
    };
    push_param(names, first, out)?;
    push_more_params(names, others, out)
}

fn push_coroutine(coroutine: bool, out: &mut Vec<u8>) -> Result<(), AllocError>
    ensures { OnOk result (out.new.items ≡ out.old.items ++ coroutine_text coroutine) }
{
    if coroutine {
        out.extend_from_slice(b" presplitcoroutine")
    } else {
        Ok(())
    }
}

/// Writes the first line of a function.
fn push_head(function: &Function, out: &mut Vec<u8>) -> Result<(), AllocError>
    ensures { OnOk result (out.new.items ≡ out.old.items ++ head_text function.now) }
{
    out.extend_from_slice(b"define ")?;
    push_result(&function.result, out)?;
    out.push(b' ')?;
    push_global(&function.name, out)?;
    out.push(b'(')?;
    push_params(function.names.as_slice(), function.params.as_slice(), out)?;
    out.push(b')')?;
    push_coroutine(function.coroutine, out)?;
    out.extend_from_slice(b" {\n")
}

fn push_function(function: &Function, out: &mut Vec<u8>) -> Result<(), AllocError>
    ensures { OnOk result (out.new.items ≡ out.old.items ++ function_text function.now) }
{
    push_head(function, out)?;
    push_blocks(function.names.as_slice(), function.blocks.as_slice(), out)?;
    out.extend_from_slice(b"}\n")
}

fn push_functions(functions: &[Function], out: &mut Vec<u8>) -> Result<(), AllocError>
    ensures { OnOk result (out.new.items ≡ out.old.items ++ functions_text functions.now) }
{
    for function in functions {
        push_function(function, out)?;
    }
    Ok(())
}

/// The canonical text of a module. A local whose position is past its function's names is written without a name.
/// Where some text stands for the module, so does this one: it is read back as the same module.
#[tactic(auto, using(text_canonical::proofs::grammar::Whole::read_back))]
pub fn print_module(alloc: Global, module: &Module) -> Result<Vec<u8>, AllocError>
    ensures text { IfOk result (λ text. text.items ≡ module_text «module».now) }
    ensures read_back { IfOk result (λ text. IsReadBack text.items «module».now) }
{
    let mut out = Vec::new(alloc);
    push_type_items(module.types.as_slice(), &mut out)?;
    push_global_items(module.globals.as_slice(), &mut out)?;
    push_declarations(module.declarations.as_slice(), &mut out)?;
    push_functions(module.functions.as_slice(), &mut out)?;
    Ok(out)
}
