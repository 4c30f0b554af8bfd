//! A module whose items are found by their names.

ghost use Rattle.std.specs.Prelude.{◌≡◌, IfOk};
ghost use Rattle.ir_model.specs.Names.{first_where, same_name, function_named, declaration_named, global_named};
ghost use Rattle.ir_tables.specs.Tables.{FindsFirst};

use crate::table::{NameTable, find, table_of};
use ir_model::Module;
use ir_model::ir_base_library::{FuncId, Name};
use std::alloc::{AllocError, Global};

/// A module with tables of the names of its items. Of two items of one kind and name the first counts.
#[derive(Drop)]
pub struct Names<'a> {
    pub source: &'a Module,
    functions: NameTable,
    globals: NameTable,
    declarations: NameTable,
    types: NameTable,
    ghost functions_first: { FindsFirst (λ f. f.name) source.now.functions functions },
    ghost globals_first: { FindsFirst (λ g. g.name) source.now.globals globals },
    ghost declarations_first: { FindsFirst (λ d. d.name) source.now.declarations declarations },
    ghost types_first: { FindsFirst (λ t. t.name) source.now.types types },
}

impl<'a> Names<'a> {
    /// A module with its tables.
    pub fn new(alloc: Global, source: &'a Module) -> Result<Names<'a>, AllocError>
        ensures { IfOk result (λ names. names.source.now ≡ source.now) }
    {
        let functions = table_of(alloc, source.functions.as_slice())?;
        let globals = table_of(alloc, source.globals.as_slice())?;
        let declarations = table_of(alloc, source.declarations.as_slice())?;
        let types = table_of(alloc, source.types.as_slice())?;
        Ok(Names {
            source,
            functions,
            globals,
            declarations,
            types,
        })
    }

    /// The position of the defined function with a name.
    pub fn function_named(&self, name: &Name) -> Option<FuncId>
        ensures { result ≡ function_named self.now.source.now name.now }
    {
        find(&self.functions, name)
    }

    /// The position of the declaration with a name.
    pub fn declaration_named(&self, name: &Name) -> Option<usize>
        ensures { result ≡ declaration_named self.now.source.now name.now }
    {
        find(&self.declarations, name)
    }

    /// The position of the global with a name.
    pub fn global_named(&self, name: &Name) -> Option<usize>
        ensures { result ≡ global_named self.now.source.now name.now }
    {
        find(&self.globals, name)
    }

    /// The position of the named type with a name.
    pub fn type_named(&self, name: &Name) -> Option<usize>
        ensures { result ≡ first_where (λ t. same_name t.name name.now) self.now.source.now.types }
    {
        find(&self.types, name)
    }
}
