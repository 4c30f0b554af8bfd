//! Names as they stand in symbols.

ghost use Rattle.std.specs.Prelude.{◌≡◌, IfOk, option_map, Option};

use ir_base::Name;
use std::alloc::{AllocError, Global};
use std::marker::Model;

/// A name, or none where what is written is no name: one without bytes or with a zero byte, or digits of 2^32 or more that
/// aren't quoted. Most symbols hold no name, so a name stands outside them.
#[derive(Drop)]
pub struct Ident {
    name: Option<Box<Name>>,
}

impl Model for Ident {
    ghost use Rattle.std.specs.Prelude.{Option, option_map};
    ghost use Rattle.ir_base.specs.declared.name.Name.{Name};

    ghost Value = { Option Name };

    ghost view = { λ a. option_map (λ b. b.value) a.name };
}

impl Ident {
    pub fn new(alloc: Global, name: Option<Name>) -> Result<Self, AllocError>
        ensures { IfOk result (λ i. i ≡ name) }
    {
        match name {
            None => Ok(Ident { name: None }),
            Some(name) => Ok(Ident {
                name: Some(Box::new(alloc, name)?),
            }),
        }
    }

    pub fn name(&self) -> Option<&Name>
        ensures { option_map (λ n. n.now) result ≡ self.now }
    {
        match &self.name {
            None => None,
            Some(name) => Some(name),
        }
    }
}
