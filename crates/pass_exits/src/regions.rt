//! Windows, as they are looked up.

ghost use Rattle.std.specs.Prelude.{◌≡◌, IfOk, MatchOption, None, Some, option_and_then};
ghost use Rattle.ir_paths.specs.Windows.{call_result as result_of_call, instr_at as instr_at_point};
ghost use Rattle.pass_intrinsics.specs.Shapes.{saves_of as saves_in, suspends_of as suspends_in};
ghost use Rattle.pass_exits.specs.Exits.{number_in, number_of};
ghost use Rattle.pass_exits.specs.Regions.{AreRegionsOf, IsRegionOf, first_mark, mark_at, region_mark};

use crate::fronts::{Fronts, fronts_of};
use ir_base::{BlockId, Items, SuspendId, ValueId};
use ir_calls::call_result;
use ir_model::{Function, Instr};
use ir_paths::{Point, Window};
use std::alloc::{AllocError, Global};

/// A window: the blocks whose first points stand in it, its suspend, and the number of that in order of the text.
#[derive(Drop)]
pub struct Region {
    pub fronts: Fronts,
    pub suspend: Point,
    pub number: Option<SuspendId>,
}

/// The instruction at a point, where there is one.
fn instr_at(function: &Function, point: Point) -> Option<&Instr>
    ensures { MatchOption result (instr_at_point function.now point ≡ None) (λ i. instr_at_point function.now point ≡ Some i.now) }
{
    match function.blocks.get(point.block) {
        None => None,
        Some(block) => block.instrs.get(point.at),
    }
}

/// The token of a save.
fn token_at(function: &Function, save: Point) -> Option<ValueId>
    ensures { result ≡ option_and_then result_of_call (instr_at_point function.now save) }
{
    match instr_at(function, save) {
        None => None,
        Some(instr) => call_result(instr),
    }
}

/// The number of the suspend that takes a token.
fn number_in(numbers: &[Option<SuspendId>], token: Option<ValueId>) -> Option<SuspendId>
    ensures { result ≡ number_in numbers.now token }
{
    match token {
        None => None,
        Some(token) => match numbers.get(token) {
            None => None,
            Some(number) => *number,
        },
    }
}

/// The number of a save's suspend.
fn number_of(function: &Function, numbers: &[Option<SuspendId>], save: Point) -> Option<SuspendId>
    requires { numbers.now ≡ saves_in function.now (suspends_in function.now) }
    ensures { result ≡ number_of function.now save }
{
    number_in(numbers, token_at(function, save))
}

fn region_of(
    alloc: Global,
    function: &Function,
    numbers: &[Option<SuspendId>],
    window: &Window,
) -> Result<Region, AllocError>
    requires { numbers.now ≡ saves_in function.now (suspends_in function.now) }
    ensures { IfOk result (IsRegionOf function.now window.now) }
{
    Ok(Region {
        fronts: fronts_of(alloc, window.inside.as_slice())?,
        suspend: window.suspend,
        number: number_of(function, numbers, window.save),
    })
}

/// The regions of windows.
pub fn regions_of(
    alloc: Global,
    function: &Function,
    numbers: &[Option<SuspendId>],
    windows: &[Window],
) -> Result<Items<Region>, AllocError>
    requires { numbers.now ≡ saves_in function.now (suspends_in function.now) }
    ensures { IfOk result (AreRegionsOf function.now windows.now) }
{
    let mut all = Items::new(alloc);
    for window in windows {
        all.push(region_of(alloc, function, numbers, window)?)?;
    }
    Ok(all)
}

/// The number of a region's suspend, where an edge from the region to a block leaves it.
fn region_mark(region: &Region, block: BlockId) -> Option<SuspendId>
    ensures { result ≡ region_mark region.now block }
{
    let front = Point { block, at: 0 };
    if region.fronts.contains(&block) || front == region.suspend {
        None
    } else {
        region.number
    }
}

fn mark_at(regions: &Items<Region>, number: usize, block: BlockId) -> Option<SuspendId>
    ensures { result ≡ mark_at regions.now number block }
{
    match regions.get(number) {
        None => None,
        Some(region) => region_mark(region, block),
    }
}

/// The number of the suspend of the first of some regions that an edge from all of them to a block leaves.
pub fn first_mark(regions: &Items<Region>, row: &[usize], block: BlockId) -> Option<SuspendId>
    ensures { result ≡ first_mark regions.now row.now block }
{
    for number in row {
        let mark = mark_at(regions, *number, block);
        if mark.is_some() {
            return mark;
        }
    }
    None
}
