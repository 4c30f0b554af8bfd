//! Tables of names.

ghost use Rattle.std.specs.Prelude.{◌≡◌, IfOk, OnOk};
ghost use Rattle.ir_model.specs.ir_base.declared.name.Name.{Name as TheName};
ghost use Rattle.ir_tables.specs.Tables.{FindsFirst, or_at};
ghost use Rattle.ir_model.specs.Names.{same_name};
ghost use Rattle.indexmap.specs.IndexMap.{get};

use indexmap::IndexMap;
use ir_model::ir_base_library::{Data, Name};
use ir_model::{Declaration, Function, GlobalItem, TypeItem};
use std::alloc::{AllocError, Global};

/// A position for each name.
pub type NameTable = IndexMap<Name, usize>;

/// What has a name.
pub trait Named: Sized {
    ghost called: { Self → TheName };

    /// Its name.
    fn name(&self) -> &Name
        ensures { result.now ≡ called self.now };
}

impl Named for Function {
    ghost called = { λ f. f.name };

    fn name(&self) -> &Name {
        &self.name
    }
}

impl Named for GlobalItem {
    ghost called = { λ g. g.name };

    fn name(&self) -> &Name {
        &self.name
    }
}

impl Named for Declaration {
    ghost called = { λ d. d.name };

    fn name(&self) -> &Name {
        &self.name
    }
}

impl Named for TypeItem {
    ghost called = { λ t. t.name };

    fn name(&self) -> &Name {
        &self.name
    }
}

/// Puts a position beside a name that has none.
fn note(alloc: Global, table: &mut NameTable, name: &Name, at: usize) -> Result<(), AllocError>
    ensures { OnOk result ((n : TheName) → get same_name table.new n ≡ or_at (get same_name table.old n) (same_name name.now n) at) }
{
    match find(table, name) {
        Some(_) => Ok(()),
        None => {
            table.insert(name.copied(alloc)?, at)?;
            Ok(())
        }
    }
}

/// The first position of each name among the items.
pub fn table_of<T: Named>(alloc: Global, items: &[T]) -> Result<NameTable, AllocError>
    ensures { IfOk result (λ table. FindsFirst T.called items.now table) }
{
    let mut table = IndexMap::new(alloc);
    for at in 0..items.len() {
        note(alloc, &mut table, items[at].name(), at)?;
    }
    Ok(table)
}

/// The first position of a name among the items of a table.
pub fn find(table: &NameTable, name: &Name) -> Option<usize>
    ensures { result ≡ get same_name table.now name.now }
{
    table.get(name).copied()
}
