//! Numbers of values.

ghost use Rattle.std.specs.Prelude.{◌≡◌, ◌⊎◌, [], IfOk, OnOk, length};
ghost use Rattle.rule_uses.specs.Questions.{GetsNumber, HasNumber};
ghost use Rattle.frame_crossing.specs.Values.{distinct};
ghost use Rattle.frame_crossing.specs.Words.{AreNumbered};

use ir_base::{Items, ValueId};
use std::alloc::{AllocError, Global};

/// A number for each of these values, and the values by their numbers.
#[derive(Drop)]
pub struct Numbers {
    pub numbers: Items<Option<usize>>,
    pub values: Items<ValueId>,
}

/// Gives the value the next number, if it has none. There is no room for a value that has no name.
fn give_number(all: &mut Numbers, value: ValueId) -> Result<(), AllocError>
    ensures { OnOk result (HasNumber all.old.numbers all.new.numbers all.old.values all.new.values value ⊎ GetsNumber all.old.numbers all.new.numbers all.old.values all.new.values value) }
{
    match all.numbers.get(value) {
        None => Err(AllocError),
        Some(Some(_)) => Ok(()),
        Some(None) => {
            let number = all.values.len();
            all.values.push(value)?;
            all.numbers.set(value, Some(number));
            Ok(())
        }
    }
}

/// Numbers values in the order in which they first come, in a function with so many names.
pub fn numbers_of(alloc: Global, names: usize, defined: &[ValueId]) -> Result<Numbers, AllocError>
    ensures values { IfOk result (λ all. all.values ≡ distinct [] defined.now) }
    ensures numbers { IfOk result (λ all. AreNumbered names all.numbers all.values) }
{
    let mut all = Numbers {
        numbers: Items::from_vec(vec![in alloc; None; names]?),
        values: Items::new(alloc),
    };
    for value in defined {
        give_number(&mut all, *value)?;
    }
    Ok(all)
}
