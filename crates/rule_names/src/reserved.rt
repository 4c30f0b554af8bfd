//! Reserved names.

ghost use Rattle.std.specs.Prelude.{◌≡◌, ◌++◌, ◌||◌, ◌&&◌, ℕ, List, Bool, IfOk, OnOk, codes, is_some, slice_get};
ghost use Rattle.std.specs.List.{list_all, list_any};
ghost use Rattle.indexmap.specs.IndexMap.{get};
ghost use Rattle.ir_base.specs.declared.name.Name.{Name as TheName};
ghost use Rattle.ir_model.specs.Names.{same_name, same_text};
ghost use Rattle.rule_names.specs.Reserved.{begins_with, name_begins, is_allocator, is_reserved, is_digit, is_odd, part_name, suffixes, is_part_of, is_part, is_taken, is_own, first_own, own_local, first_reserved, reserved_names};
ghost use Rattle.rule_names.specs.Items.{first_place as first_place_of};

use crate::items::{ModuleRule, first_place};
use crate::stage::{Stage, is_source};
use ir_base::{Data, FuncId, Name, Place, Text, ValueId};
use ir_model::{Callee, Declaration, Function, GlobalItem, TypeItem, callee_of};
use ir_parts::{Definition, function_place, locals_of};
use ir_tables::{NameTable, Names, find};
use itoa::Buffer;
use std::alloc::{AllocError, Global};

/// Names that a definition may not have (rule N3).
#[derive(Drop)]
pub struct ReservedNames<'a> {
    pub alloc: Global,
    pub stage: Stage,
    names: &'a Names<'a>,
    parts: NameTable,
    ghost parts_are: { (n : TheName) → is_some (get same_name parts n) ≡ is_part names.now.source.now n },
}

fn begins_with(head: &[u8], text: &[u8]) -> bool
    ensures { result ≡ begins_with head.now text.now }
{
    let mut wanted = head;
    let mut given = text;
    loop {
        match wanted {
            [] => return true,
            [x, more_wanted @ ..] => match given {
                [] => return false,
                [y, more_given @ ..] => {
                    if *x != *y {
                        return false;
                    }
                    wanted = more_wanted;
                    given = more_given;
                }
            },
        }
    }
}

fn name_begins(head: &[u8], name: &Name) -> bool
    ensures { result ≡ name_begins head.now name.now }
{
    match name {
        Name::Number(_) => false,
        Name::Text(text) => begins_with(head, text.as_bytes()),
    }
}

fn is_allocator(callee: &Callee) -> bool
    ensures { result ≡ is_allocator callee.now }
{
    matches!(callee, Callee::Allocator(_))
}

fn is_reserved(alloc: Global, name: &Name) -> Result<bool, AllocError>
    ensures { IfOk result (λ b. b ≡ is_reserved name.now) }
{
    let callee = callee_of(name.copied(alloc)?);
    Ok(is_allocator(&callee) || name_begins(b"llvm.", name))
}

fn is_digit(byte: u8) -> bool
    ensures { result ≡ is_digit byte }
{
    48 <= byte && byte <= 57
}

fn are_digits(bytes: &[u8]) -> bool
    ensures { result ≡ list_all is_digit bytes.now }
{
    for byte in bytes {
        if !is_digit(*byte) {
            return false;
        }
    }
    true
}

fn is_same_text(a: &[u8], b: &[u8]) -> bool
    ensures { result ≡ same_text a.now b.now }
{
    a == b
}

fn is_odd(name: &Name) -> bool
    ensures { result ≡ is_odd name.now }
{
    match name {
        Name::Number(_) => false,
        Name::Text(text) => is_same_text(text.as_bytes(), b"llvm") || are_digits(text.as_bytes()),
    }
}

fn part_name(alloc: Global, name: &Name, suffix: &[u8]) -> Result<Name, AllocError>
    ensures { IfOk result (λ n. n ≡ part_name name.now suffix.now) }
{
    let mut buffer = Buffer::new();
    let mut all = match name {
        Name::Number(number) => Vec::from_slice(alloc, buffer.format(*number).as_bytes())?,
        Name::Text(text) => Vec::from_slice(alloc, text.as_bytes())?,
    };
    all.extend_from_slice(suffix)?;
    Ok(Name::Text(Text::from_bytes(alloc, all.as_slice())?))
}

fn add_part(
    alloc: Global,
    parts: &mut NameTable,
    name: &Name,
    suffix: &[u8],
) -> Result<(), AllocError>
    ensures { OnOk result ((n : TheName) → is_some (get same_name parts.new n) ≡ (same_name (part_name name.now suffix.now) n || is_some (get same_name parts.old n))) }
{
    parts.insert(part_name(alloc, name, suffix)?, 0)?;
    Ok(())
}

/// Adds the names of a coroutine's parts.
fn add_parts(alloc: Global, parts: &mut NameTable, function: &Function) -> Result<(), AllocError>
    ensures { OnOk result ((n : TheName) → is_some (get same_name parts.new n) ≡ (is_part_of n function.now || is_some (get same_name parts.old n))) }
{
    if function.coroutine {
        add_part(alloc, parts, &function.name, b".noalloc")?;
        add_part(alloc, parts, &function.name, b".cleanup")?;
        add_part(alloc, parts, &function.name, b".destroy")?;
        add_part(alloc, parts, &function.name, b".resume")?;
    }
    Ok(())
}

/// The names of the parts of the coroutines.
fn parts_of(alloc: Global, functions: &[Function]) -> Result<NameTable, AllocError>
    ensures { IfOk result (λ parts. (n : TheName) → is_some (get same_name parts n) ≡ list_any (is_part_of n) functions.now) }
{
    let mut parts = NameTable::new(alloc);
    for function in functions {
        add_parts(alloc, &mut parts, function)?;
    }
    Ok(parts)
}

fn is_own(names: &[Name], local: ValueId) -> bool
    ensures { result ≡ is_own (slice_get names.now local) }
{
    match names.get(local) {
        None => false,
        Some(name) => name_begins(b"$c.", name),
    }
}

fn first_own(names: &[Name], definitions: &[Definition]) -> Option<Place>
    ensures { result ≡ first_own names.now definitions.now }
{
    for definition in definitions {
        if is_own(names, definition.name) {
            return Some(definition.place);
        }
    }
    None
}

impl<'a> ReservedNames<'a> {
    /// The rule for a module.
    pub fn new(
        alloc: Global,
        stage: Stage,
        names: &'a Names<'a>,
    ) -> Result<ReservedNames<'a>, AllocError>
        ensures stage { IfOk result (λ r. r.stage ≡ stage) }
        ensures names { IfOk result (λ r. r.names.now ≡ names.now) }
    {
        let parts = parts_of(alloc, names.source.functions.as_slice())?;
        Ok(ReservedNames {
            alloc,
            stage,
            names,
            parts,
        })
    }
}

impl ReservedNames<'_> {
    fn is_part(&self, name: &Name) -> bool
        ensures { result ≡ is_part self.now.names.now.source.now name.now }
    {
        find(&self.parts, name).is_some()
    }

    fn is_taken(&self, function: &Function) -> bool
        ensures { result ≡ is_taken self.now.names.now.source.now function.now }
    {
        self.is_part(&function.name) || (function.coroutine && is_odd(&function.name))
    }

    fn own_local(&self, func: FuncId, function: &Function) -> Result<Option<Place>, AllocError>
        ensures { IfOk result (λ p. p ≡ own_local self.now.stage func function.now) }
    {
        if !is_source(self.stage) {
            return Ok(None);
        }
        let locals = locals_of(self.alloc, func, function)?;
        Ok(first_own(function.names.as_slice(), locals.as_slice()))
    }
}

impl ModuleRule for ReservedNames<'_> {
    ghost says = { λ r. reserved_names r.stage r.names.now.source.now };

    fn breaks_type(&self, _at: usize, _item: &TypeItem) -> Result<bool, AllocError> {
        Ok(false)
    }

    fn breaks_global(&self, _at: usize, item: &GlobalItem) -> Result<bool, AllocError> {
        let is_reserved = is_reserved(self.alloc, &item.name)?;
        Ok(is_reserved || (is_source(self.stage) && self.is_part(&item.name)))
    }

    fn breaks_declaration(&self, _at: usize, item: &Declaration) -> Result<bool, AllocError> {
        Ok(is_source(self.stage) && self.is_part(&item.name))
    }

    fn first_in(&self, func: FuncId, function: &Function) -> Result<Option<Place>, AllocError> {
        let is_reserved = is_reserved(self.alloc, &function.name)?;
        if is_reserved || (is_source(self.stage) && self.is_taken(function)) {
            return Ok(Some(function_place(func)));
        }
        self.own_local(func, function)
    }
}

/// The first definition of a name that is reserved (rule N3).
pub fn first_reserved_name(
    alloc: Global,
    stage: Stage,
    names: &Names<'_>,
) -> Result<Option<Place>, AllocError>
    ensures { IfOk result (λ p. p ≡ first_place_of (reserved_names stage names.now.source.now) names.now.source.now) }
{
    let rule = ReservedNames::new(alloc, stage, names)?;
    first_place(&rule, names.source)
}
