//! Second definitions.

ghost use Rattle.std.specs.Prelude.{◌≡◌, [], IfOk, length};
ghost use Rattle.rule_names.specs.Definitions.{is_position, first_twice, is_second_function, second_definitions};
ghost use Rattle.rule_names.specs.Items.{first_place as first_place_of};

use crate::items::{ModuleRule, first_place};
use crate::numbers::LocalSet;
use ir_base::{FuncId, Name, Place};
use ir_model::{Declaration, Function, GlobalItem, TypeItem};
use ir_parts::{Definition, function_place, locals_of};
use ir_tables::Names;
use std::alloc::{AllocError, Global};

/// Names that are defined twice (rule N1).
#[derive(Drop)]
pub struct SecondDefinitions<'a> {
    pub alloc: Global,
    pub names: &'a Names<'a>,
}

fn is_position(position: Option<usize>, at: usize) -> bool
    ensures { result ≡ is_position position at }
{
    match position {
        None => false,
        Some(first) => first == at,
    }
}

fn first_twice(
    alloc: Global,
    names: usize,
    definitions: &[Definition],
) -> Result<Option<Place>, AllocError>
    ensures { IfOk result (λ p. p ≡ first_twice [] definitions.now) }
{
    let mut before = LocalSet::new(alloc, names)?;
    for definition in definitions {
        if before.has(definition.name) {
            return Ok(Some(definition.place));
        }
        before.add(definition.name)?;
    }
    Ok(None)
}

impl SecondDefinitions<'_> {
    fn is_second_function(&self, func: FuncId, name: &Name) -> bool
        ensures { result ≡ is_second_function self.now.names.now.source.now func name.now }
    {
        self.names.global_named(name).is_some()
            || (self.names.declaration_named(name).is_some()
                || !is_position(self.names.function_named(name), func))
    }
}

impl ModuleRule for SecondDefinitions<'_> {
    ghost says = { λ r. second_definitions r.names.now.source.now };

    fn breaks_type(&self, at: usize, item: &TypeItem) -> Result<bool, AllocError> {
        Ok(!is_position(self.names.type_named(&item.name), at))
    }

    fn breaks_global(&self, at: usize, item: &GlobalItem) -> Result<bool, AllocError> {
        Ok(!is_position(self.names.global_named(&item.name), at))
    }

    fn breaks_declaration(&self, at: usize, item: &Declaration) -> Result<bool, AllocError> {
        let name = &item.name;
        let is_global = self.names.global_named(name).is_some();
        Ok(is_global || !is_position(self.names.declaration_named(name), at))
    }

    fn first_in(&self, func: FuncId, function: &Function) -> Result<Option<Place>, AllocError> {
        if self.is_second_function(func, &function.name) {
            return Ok(Some(function_place(func)));
        }
        let locals = locals_of(self.alloc, func, function)?;
        first_twice(self.alloc, function.names.len(), locals.as_slice())
    }
}

/// The first second definition of a name (rule N1).
pub fn first_second_definition(
    alloc: Global,
    names: &Names<'_>,
) -> Result<Option<Place>, AllocError>
    ensures { IfOk result (λ p. p ≡ first_place_of (second_definitions names.now.source.now) names.now.source.now) }
{
    first_place(&SecondDefinitions { alloc, names }, names.source)
}
