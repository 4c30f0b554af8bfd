//! A module as a machine runs it.

ghost use Rattle.std.specs.Prelude.{◌≡◌, IfOk, Some, None, Option, slice_get, ℕ, List, ◌+◌, ◌<◌, length};
ghost use Rattle.ir_paths.specs.ir_model.Ty.{ptr};
ghost use Rattle.run_step.specs.Tables.{FindsFirst, HaveTables};

use crate::function_table::{FunctionTable, all_tables};
use crate::labels::{position, search};
use crate::markers::has_markers;
use crate::names::{NameTable, find, table_of};
use ir_paths::ir_base_library::{BlockId, FuncId, Items, Name, ValueId};
use ir_paths::ir_model_library::{Function, IrType, Module};
use run_memory::{Offset, Pointer, Value};
use std::alloc::{AllocError, Global};

/// A module with the answers to its observed calls, and the tables by which names and labels are looked up.
#[derive(Drop)]
pub struct Program {
    pub module: Module,
    pub answers: Items<i128>,
    functions: NameTable,
    globals: NameTable,
    declarations: NameTable,
    types: NameTable,
    tables: Items<FunctionTable>,
    pointer: IrType,
    ghost pointer_is: { pointer ≡ ptr },
    ghost functions_first: { FindsFirst (λ f. f.name) module.functions functions },
    ghost globals_first: { FindsFirst (λ g. g.name) module.globals globals },
    ghost declarations_first: { FindsFirst (λ d. d.name) module.declarations declarations },
    ghost types_first: { FindsFirst (λ t. t.name) module.types types },
    ghost tables_found: { HaveTables module.functions tables },
}

impl Program {
    ghost use Rattle.ir_paths.specs.ir_model.Names.{function_named, declaration_named, global_named, position_of, function_at};
    ghost use Rattle.ir_paths.specs.ir_model.Layout.{type_named};
    ghost use Rattle.std.specs.Option.{option_copied};
    ghost use Rattle.run_step.specs.Values.{address_of};
    ghost use Rattle.run_step.specs.Step.{answer, has_markers as has_markers_of};

    /// A module with its tables.
    pub fn new(alloc: Global, code: Module, answers: &[i128]) -> Result<Self, AllocError>
        ensures same_module { IfOk result (λ program. program.«module» ≡ code) }
        ensures same_answers { IfOk result (λ program. program.answers ≡ answers.now) }
    {
        let found = tables_of(alloc, &code)?;
        let answers = copied_answers(alloc, answers)?;
        Ok(Program {
            module: code,
            answers,
            functions: found.functions,
            globals: found.globals,
            declarations: found.declarations,
            types: found.types,
            tables: found.tables,
            pointer: IrType::pointer(),
        })
    }

    /// The position of the defined function with a name.
    pub fn function_named(&self, name: &Name) -> Option<FuncId>
        ensures { result ≡ function_named self.now.module name.now }
    {
        find(&self.functions, name)
    }

    /// The position of the declaration with a name.
    pub fn declaration_named(&self, name: &Name) -> Option<usize>
        ensures position { result ≡ declaration_named self.now.module name.now }
    {
        find(&self.declarations, name)
    }

    /// The position of the global with a name.
    pub fn global_named(&self, name: &Name) -> Option<usize>
        ensures { result ≡ global_named self.now.module name.now }
    {
        find(&self.globals, name)
    }

    /// The type that a name stands for.
    pub fn type_named(&self, name: &Name) -> Option<&IrType>
        ensures { option_copied result ≡ type_named self.now.module.types name.now }
    {
        match find(&self.types, name) {
            None => None,
            Some(at) => match self.module.types.get(at) {
                None => None,
                Some(item) => Some(&item.ty),
            },
        }
    }

    /// The type ptr.
    pub fn pointer(&self) -> &IrType
        ensures { result.now ≡ ptr }
    {
        &self.pointer
    }

    /// The answer at a position, 0 past the end.
    pub fn answer(&self, position: u128) -> i128
        ensures { result ≡ answer self.now.answers position }
    {
        let answers = self.answers.as_slice();
        if position < answers.len() as u128 {
            answers[position as usize]
        } else {
            0
        }
    }

    /// The position of a label's block in the function at a position.
    pub fn position(&self, func: FuncId, label: ValueId) -> BlockId
        ensures { result ≡ position_of (function_at self.now.module func) label }
    {
        match self.module.functions.get(func) {
            None => 0,
            Some(function) => match self.tables.get(func) {
                None => search(function.blocks.as_slice(), label),
                Some(table) => position(function, &table.labels, label),
            },
        }
    }

    /// Whether the alloca with a name has markers in the function at a position.
    pub fn has_markers(&self, func: FuncId, name: ValueId) -> bool
        ensures { result ≡ has_markers_of (function_at self.now.module func) name }
    {
        match self.module.functions.get(func) {
            None => false,
            Some(function) => match self.tables.get(func) {
                None => has_markers(function, name),
                Some(table) => match table.markers.get(name) {
                    None => has_markers(function, name),
                    Some(mark) => *mark,
                },
            },
        }
    }

    /// The address of what has a name.
    pub fn address_of(&self, name: &Name) -> Value
        ensures { result ≡ address_of self.now.module name.now }
    {
        if let Some(function) = self.function_named(name) {
            return Value::Ptr(Pointer::Func(function));
        }
        if let Some(global) = self.global_named(name) {
            return Value::Ptr(Pointer::At(global, Offset { bits: 0 }));
        }
        match self.declaration_named(name) {
            Some(declaration) => {
                let functions = self.module.functions.as_slice().len();
                let declarations = self.module.declarations.as_slice().len();
                prove!(declaration < declarations);
                Value::Ptr(Pointer::Func(functions + declaration))
            }
            None => Value::Poison,
        }
    }
}

/// The tables of a module.
#[derive(Drop)]
struct Tables {
    functions: NameTable,
    globals: NameTable,
    declarations: NameTable,
    types: NameTable,
    tables: Items<FunctionTable>,
}

fn tables_of(alloc: Global, code: &Module) -> Result<Tables, AllocError>
    ensures functions { IfOk result (λ t. FindsFirst (λ f. f.name) code.now.functions t.functions) }
    ensures globals { IfOk result (λ t. FindsFirst (λ g. g.name) code.now.globals t.globals) }
    ensures declarations { IfOk result (λ t. FindsFirst (λ d. d.name) code.now.declarations t.declarations) }
    ensures types { IfOk result (λ t. FindsFirst (λ i. i.name) code.now.types t.types) }
    ensures tables { IfOk result (λ t. HaveTables code.now.functions t.tables) }
{
    Ok(Tables {
        functions: functions_named(alloc, code)?,
        globals: globals_named(alloc, code)?,
        declarations: declarations_named(alloc, code)?,
        types: types_named(alloc, code)?,
        tables: all_tables(alloc, code.functions.as_slice())?,
    })
}

fn functions_named(alloc: Global, code: &Module) -> Result<NameTable, AllocError>
    ensures { IfOk result (λ t. FindsFirst (λ f. f.name) code.now.functions t) }
{
    table_of(alloc, code.functions.as_slice())
}

fn globals_named(alloc: Global, code: &Module) -> Result<NameTable, AllocError>
    ensures { IfOk result (λ t. FindsFirst (λ g. g.name) code.now.globals t) }
{
    table_of(alloc, code.globals.as_slice())
}

fn declarations_named(alloc: Global, code: &Module) -> Result<NameTable, AllocError>
    ensures { IfOk result (λ t. FindsFirst (λ d. d.name) code.now.declarations t) }
{
    table_of(alloc, code.declarations.as_slice())
}

fn types_named(alloc: Global, code: &Module) -> Result<NameTable, AllocError>
    ensures { IfOk result (λ t. FindsFirst (λ i. i.name) code.now.types t) }
{
    table_of(alloc, code.types.as_slice())
}

fn copied_answers(alloc: Global, answers: &[i128]) -> Result<Items<i128>, AllocError>
    ensures { IfOk result (λ all. all ≡ answers.now) }
{
    Ok(Items::from_vec(answers.to_vec(alloc)?))
}
