//! The places of a function's instructions that pass a test.

ghost use Rattle.std.specs.Prelude.{◌≡◌, ◌++◌, IfOk, OnOk};
ghost use Rattle.rule_shape.specs.Places.{place_of_passing, places_in, places_by, places_where as places_where_of, is_the as is_the_number, same_number, is_spot as is_spot_of};

use ir_base::{BlockId, FuncId, Items, Place};
use ir_model::{Block, Function, Instr};
use rule_windows::ir_calls_library::InstrTest;
use rule_windows::ir_parts_library::{instr_place, next};
use std::alloc::{AllocError, Global};

fn push_place<T: InstrTest>(
    test: &T,
    all: &mut Items<Place>,
    instr: &Instr,
    place: Place,
) -> Result<(), AllocError>
    ensures { OnOk result (all.new ≡ all.old ++ place_of_passing (T.instr_passes test.now) instr.now place) }
{
    if test.passes(instr) {
        all.push(place)?;
    }
    Ok(())
}

fn push_in<T: InstrTest>(
    test: &T,
    all: &mut Items<Place>,
    func: FuncId,
    block: BlockId,
    first: usize,
    instrs: &[Instr],
) -> Result<(), AllocError>
    ensures { OnOk result (all.new ≡ all.old ++ places_in (T.instr_passes test.now) func block first instrs.now) }
{
    let mut at = first;
    for instr in instrs {
        push_place(test, all, instr, instr_place(func, block, at))?;
        at = next(at)?;
    }
    Ok(())
}

fn push_by<T: InstrTest>(
    test: &T,
    all: &mut Items<Place>,
    func: FuncId,
    blocks: &[Block],
) -> Result<(), AllocError>
    ensures { OnOk result (all.new ≡ all.old ++ places_by (T.instr_passes test.now) func 0 blocks.now) }
{
    let mut at = 0;
    for block in blocks {
        push_in(
            test,
            all,
            func,
            at,
            block.phis.len(),
            block.instrs.as_slice(),
        )?;
        at = next(at)?;
    }
    Ok(())
}

/// The places of the function's instructions that pass the test, in order of the text.
pub fn places_where<T: InstrTest>(
    alloc: Global,
    test: &T,
    func: FuncId,
    function: &Function,
) -> Result<Items<Place>, AllocError>
    ensures { IfOk result (λ all. all ≡ places_where_of (T.instr_passes test.now) func function.now) }
{
    let mut all = Items::new(alloc);
    push_by(test, &mut all, func, function.blocks.as_slice())?;
    Ok(all)
}

/// Whether there is this number.
pub fn is_the(number: Option<usize>, wanted: usize) -> bool
    ensures { result ≡ is_the_number number wanted }
{
    match number {
        None => false,
        Some(number) => number == wanted,
    }
}

fn is_same_number(a: Option<usize>, b: Option<usize>) -> bool
    ensures { result ≡ same_number a b }
{
    match (a, b) {
        (None, None) => true,
        (Some(a), Some(b)) => a == b,
        _ => false,
    }
}

/// Whether there is a place, and it is this one of the same function.
pub fn is_spot(spot: Option<Place>, place: Place) -> bool
    ensures { result ≡ is_spot_of spot place }
{
    match spot {
        None => false,
        Some(spot) => {
            is_same_number(spot.block, place.block) && is_same_number(spot.instr, place.instr)
        }
    }
}
