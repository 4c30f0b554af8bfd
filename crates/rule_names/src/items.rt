//! Rules on the items of a module.

ghost use Rattle.std.specs.Prelude.{◌≡◌, IfOk};
ghost use Rattle.ir_base.specs.declared.outcome.Item.{Item as TheItem};
ghost use Rattle.rule_names.specs.Items.{Sentence, first_item, first_function as first_function_of, first_place as first_place_of};

use ir_base::{FuncId, Item, Place};
use ir_model::{Declaration, Function, GlobalItem, Module, TypeItem};
use ir_parts::{item_place, next};
use std::alloc::AllocError;

/// A rule on modules: whether an item at a position breaks it, and of a function the first place that does.
pub trait ModuleRule: Sized {
    ghost says: { Self → Sentence };

    /// Whether a named type breaks the rule.
    fn breaks_type(&self, at: usize, item: &TypeItem) -> Result<bool, AllocError>
        ensures { IfOk result (λ b. b ≡ (says self.now).on_type at item.now) };

    /// Whether a global breaks the rule.
    fn breaks_global(&self, at: usize, item: &GlobalItem) -> Result<bool, AllocError>
        ensures { IfOk result (λ b. b ≡ (says self.now).on_global at item.now) };

    /// Whether a declaration breaks the rule.
    fn breaks_declaration(&self, at: usize, item: &Declaration) -> Result<bool, AllocError>
        ensures { IfOk result (λ b. b ≡ (says self.now).on_declaration at item.now) };

    /// The first place of a function that breaks the rule.
    fn first_in(&self, func: FuncId, function: &Function) -> Result<Option<Place>, AllocError>
        ensures { IfOk result (λ p. p ≡ (says self.now).in_function func function.now) };
}

fn first_type<R: ModuleRule>(rule: &R, items: &[TypeItem]) -> Result<Option<Place>, AllocError>
    ensures { IfOk result (λ p. p ≡ first_item TheItem.Type (R.says rule.now).on_type 0 items.now) }
{
    let mut at = 0;
    for item in items {
        if rule.breaks_type(at, item)? {
            return Ok(Some(item_place(Item::Type(at))));
        }
        at = next(at)?;
    }
    Ok(None)
}

fn first_global<R: ModuleRule>(rule: &R, items: &[GlobalItem]) -> Result<Option<Place>, AllocError>
    ensures { IfOk result (λ p. p ≡ first_item TheItem.Global (R.says rule.now).on_global 0 items.now) }
{
    let mut at = 0;
    for item in items {
        if rule.breaks_global(at, item)? {
            return Ok(Some(item_place(Item::Global(at))));
        }
        at = next(at)?;
    }
    Ok(None)
}

fn first_declaration<R: ModuleRule>(
    rule: &R,
    items: &[Declaration],
) -> Result<Option<Place>, AllocError>
    ensures { IfOk result (λ p. p ≡ first_item TheItem.Declaration (R.says rule.now).on_declaration 0 items.now) }
{
    let mut at = 0;
    for item in items {
        if rule.breaks_declaration(at, item)? {
            return Ok(Some(item_place(Item::Declaration(at))));
        }
        at = next(at)?;
    }
    Ok(None)
}

fn first_function<R: ModuleRule>(
    rule: &R,
    functions: &[Function],
) -> Result<Option<Place>, AllocError>
    ensures { IfOk result (λ p. p ≡ first_function_of (R.says rule.now).in_function 0 functions.now) }
{
    let mut at = 0;
    for function in functions {
        if let Some(place) = rule.first_in(at, function)? {
            return Ok(Some(place));
        }
        at = next(at)?;
    }
    Ok(None)
}

/// The first place of a module that breaks the rule: over types, then globals, then declarations, then functions, each in
/// order of the text.
pub fn first_place<R: ModuleRule>(rule: &R, source: &Module) -> Result<Option<Place>, AllocError>
    ensures { IfOk result (λ p. p ≡ first_place_of (R.says rule.now) source.now) }
{
    if let Some(place) = first_type(rule, source.types.as_slice())? {
        return Ok(Some(place));
    }
    if let Some(place) = first_global(rule, source.globals.as_slice())? {
        return Ok(Some(place));
    }
    if let Some(place) = first_declaration(rule, source.declarations.as_slice())? {
        return Ok(Some(place));
    }
    first_function(rule, source.functions.as_slice())
}
