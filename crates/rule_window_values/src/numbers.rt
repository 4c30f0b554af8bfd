//! Numbers of the values that are asked for.

ghost use Rattle.std.specs.Prelude.{◌≡◌, ◌⊎◌, IfOk, OnOk};
ghost use Rattle.rule_uses.specs.Questions.{GetsNumber, HasNumber, IsNumbering};
ghost use Rattle.rule_window_values.specs.Spans.{AddsNumbers, AreNumbered};

use crate::spans::Span;
use ir_base::{Items, ValueId};
use std::alloc::{AllocError, Global};

/// A number for each value that is asked for, and the values by their numbers.
#[derive(Drop)]
pub struct Numbers {
    pub numbers: Items<Option<usize>>,
    pub values: Items<ValueId>,
}

/// Gives the value the next number, if it has none. There is no room for a value that has no name.
fn give_number(all: &mut Numbers, value: ValueId) -> Result<(), AllocError>
    ensures { OnOk result (HasNumber all.old.numbers all.new.numbers all.old.values all.new.values value ⊎ GetsNumber all.old.numbers all.new.numbers all.old.values all.new.values value) }
{
    match all.numbers.get(value) {
        None => Err(AllocError),
        Some(Some(_)) => Ok(()),
        Some(None) => {
            let number = all.values.len();
            all.values.push(value)?;
            all.numbers.set(value, Some(number));
            Ok(())
        }
    }
}

/// Numbers these values, in a function with so many names.
fn add_numbers(all: &mut Numbers, names: usize, values: &[ValueId]) -> Result<(), AllocError>
    requires { IsNumbering names all.old.numbers all.old.values }
    ensures { OnOk result (AddsNumbers names all.old.numbers all.new.numbers all.old.values all.new.values values.now) }
{
    for value in values {
        give_number(all, *value)?;
    }
    Ok(())
}

/// Numbers the values of these spans, in a function with so many names.
pub fn numbers_of(alloc: Global, names: usize, spans: &[Span]) -> Result<Numbers, AllocError>
    ensures { IfOk result (λ all. AreNumbered names spans.now all.numbers all.values) }
{
    let mut all = Numbers {
        numbers: Items::from_vec(vec![in alloc; None; names]?),
        values: Items::new(alloc),
    };
    for span in spans {
        add_numbers(&mut all, names, span.values.as_slice())?;
    }
    Ok(all)
}
