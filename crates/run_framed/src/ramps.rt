//! The ramps that are given the address of their frame.

ghost use Rattle.std.specs.Prelude.{◌≡◌, ◌∷◌, ◌++◌, [], IfOk, OnOk};
ghost use Rattle.ir_model.specs.Names.{noalloc_of, spelling};
ghost use Rattle.run_framed.specs.Tables.{ramps_from};

use ir_base::{FuncId, Items, Name, Text};
use ir_model::Function;
use ir_tables::Named;
use itoa::Buffer;
use std::alloc::{AllocError, Global};

/// A coroutine, by the name under which its ramp is given the address of its frame.
#[derive(Drop)]
pub struct GivenRamp {
    pub name: Name,
    pub func: FuncId,
}

impl Named for GivenRamp {
    ghost called = { λ x. x.name };

    fn name(&self) -> &Name {
        &self.name
    }
}

fn spelled(alloc: Global, name: &Name) -> Result<Vec<u8>, AllocError>
    ensures { IfOk result (λ v. v.items ≡ spelling name.now) }
{
    match name {
        Name::Number(number) => {
            let mut buffer = Buffer::new();
            Vec::from_slice(alloc, buffer.format(*number).as_bytes())
        }
        Name::Text(text) => Vec::from_slice(alloc, text.as_bytes()),
    }
}

fn noalloc_name(alloc: Global, name: &Name) -> Result<Name, AllocError>
    ensures { IfOk result (λ n. n ≡ noalloc_of name.now) }
{
    let mut all = spelled(alloc, name)?;
    all.extend_from_slice(b".noalloc")?;
    Ok(Name::Text(Text::from_bytes(alloc, all.as_slice())?))
}

/// Notes a function that is a coroutine.
fn note_ramp(
    alloc: Global,
    all: &mut Items<GivenRamp>,
    function: &Function,
    func: FuncId,
) -> Result<(), AllocError>
    ensures { OnOk result (all.new ≡ all.old ++ ramps_from func (function.now ∷ [])) }
{
    if function.coroutine {
        let name = noalloc_name(alloc, &function.name)?;
        all.push(GivenRamp { name, func })?;
    }
    Ok(())
}

/// The coroutines, by those names.
pub fn given_ramps(alloc: Global, functions: &[Function]) -> Result<Items<GivenRamp>, AllocError>
    ensures { IfOk result (λ all. all ≡ ramps_from 0 functions.now) }
{
    let mut all = Items::new(alloc);
    for func in 0..functions.len() {
        note_ramp(alloc, &mut all, &functions[func], func)?;
    }
    Ok(all)
}
