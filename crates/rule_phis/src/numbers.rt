//! Tables of numbers.

ghost use Rattle.std.specs.Prelude.{◌≡◌, ◌==◌, ℕ, IfOk, OnOk};
ghost use Rattle.indexmap.specs.IndexMap.{get};
ghost use Rattle.ir_tables.specs.Tables.{or_at};
ghost use Rattle.rule_phis.specs.Mentions.{FindsNumbers};

use indexmap::IndexMap;
use ir_model::Incoming;
use std::alloc::{AllocError, Global};

/// A position for each number.
pub type NumberTable = IndexMap<usize, usize>;

/// What has a number.
pub trait Numbered: Sized {
    ghost numbered: { Self → ℕ };

    /// Its number.
    fn number(&self) -> usize
        ensures { result ≡ numbered self.now };
}

impl Numbered for usize {
    ghost numbered = { λ n. n };

    fn number(&self) -> usize {
        *self
    }
}

impl Numbered for Incoming {
    ghost numbered = { λ i. i.from };

    fn number(&self) -> usize {
        self.from
    }
}

/// Puts a position beside a number that has none.
fn note(table: &mut NumberTable, number: usize, at: usize) -> Result<(), AllocError>
    ensures { OnOk result ((n : ℕ) → get ◌==◌ table.new n ≡ or_at (get ◌==◌ table.old n) (number == n) at) }
{
    match find(table, number) {
        Some(_) => Ok(()),
        None => {
            table.insert(number, at)?;
            Ok(())
        }
    }
}

/// The first position of each number among the items.
pub fn numbers_of<T: Numbered>(alloc: Global, items: &[T]) -> Result<NumberTable, AllocError>
    ensures { IfOk result (λ table. FindsNumbers T.numbered items.now table) }
{
    let mut table = IndexMap::new(alloc);
    for at in 0..items.len() {
        note(&mut table, items[at].number(), at)?;
    }
    Ok(table)
}

/// The first position of a number among the items of a table.
pub fn find(table: &NumberTable, number: usize) -> Option<usize>
    ensures { result ≡ get ◌==◌ table.now number }
{
    table.get(&number).copied()
}
