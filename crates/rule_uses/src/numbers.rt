//! Numbers of the values that are asked for.

ghost use Rattle.std.specs.Prelude.{◌≡◌, ◌⊎◌, IfOk, OnOk};
ghost use Rattle.rule_uses.specs.Questions.{AreNumbered, GetsNumber, HasNumber};

use crate::open_use::OpenUse;
use ir_base::{Items, ValueId};
use std::alloc::{AllocError, Global};

/// A number for each value that is asked for, and the values by their numbers.
#[derive(Drop)]
pub struct Numbers {
    pub numbers: Items<Option<usize>>,
    pub values: Items<ValueId>,
}

/// Gives the value the next number, if it has none. There is no room for a value that has no name.
fn give_number(all: &mut Numbers, value: ValueId) -> Result<(), AllocError>
    ensures { OnOk result (HasNumber all.old.numbers all.new.numbers all.old.values all.new.values value ⊎ GetsNumber all.old.numbers all.new.numbers all.old.values all.new.values value) }
{
    match all.numbers.get(value) {
        None => Err(AllocError),
        Some(Some(_)) => Ok(()),
        Some(None) => {
            let number = all.values.len();
            all.values.push(value)?;
            all.numbers.set(value, Some(number));
            Ok(())
        }
    }
}

/// Numbers the values of these uses, in a function with so many names.
pub fn numbers_of(alloc: Global, names: usize, opens: &[OpenUse]) -> Result<Numbers, AllocError>
    ensures { IfOk result (λ all. AreNumbered names opens.now all.numbers all.values) }
{
    let mut all = Numbers {
        numbers: Items::from_vec(vec![in alloc; None; names]?),
        values: Items::new(alloc),
    };
    for found in opens {
        give_number(&mut all, found.value)?;
    }
    Ok(all)
}
