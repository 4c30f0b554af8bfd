//! The windows of a function's saves.

ghost use Rattle.std.specs.Prelude.{◌≡◌, ◌==◌, All, IfOk, OnOk, MatchOption, None, Some, map, option_and_then};
ghost use Rattle.flow_points.specs.ir_paths.Facts.{IsWindow};
ghost use Rattle.flow_points.specs.ir_paths.Windows.{call_result as result_of_call, instr_at as instr_at_point, saves_of, suspend_of as suspend_of_save};
ghost use Rattle.flow_facts.specs.Tokens.{FindsSuspends};
ghost use Rattle.flow_points.specs.Reached.{IsGraphOf};

use crate::calls::points_of_calls;
use crate::tokens::{Tokens, tokens_of};
use flow_points::PointGraph;
use flow_points::ir_paths_library::{Point, Window};
use ir_base::{Items, ValueId};
use ir_calls::call_result;
use ir_model::{Function, Instr, Intrinsic};
use std::alloc::{AllocError, Global};

/// The instruction at a point, where there is one.
pub fn instr_at(function: &Function, point: Point) -> Option<&Instr>
    ensures { MatchOption result (instr_at_point function.now point ≡ None) (λ i. instr_at_point function.now point ≡ Some i.now) }
{
    match function.blocks.get(point.block) {
        None => None,
        Some(block) => block.instrs.get(point.at),
    }
}

/// The token of a save.
fn token_at(function: &Function, save: Point) -> Option<ValueId>
    ensures { result ≡ option_and_then result_of_call (instr_at_point function.now save) }
{
    match instr_at(function, save) {
        None => None,
        Some(instr) => call_result(instr),
    }
}

/// The suspend that takes the token of a save.
fn suspend_of(function: &Function, tokens: &Tokens, save: Point) -> Option<Point>
    requires { FindsSuspends function.now tokens.now }
    ensures { result ≡ suspend_of_save function.now save }
{
    match token_at(function, save) {
        None => None,
        Some(token) => tokens.get(&token).copied(),
    }
}

/// The window of a save with its suspend.
fn window_of(
    alloc: Global,
    function: &Function,
    graph: &mut PointGraph,
    save: Point,
    suspend: Point,
) -> Result<Window, AllocError>
    requires { IsGraphOf function.now graph.old }
    ensures save { IfOk result (λ w. w.save ≡ save) }
    ensures suspend { IfOk result (λ w. w.suspend ≡ suspend) }
    ensures window { IfOk result (IsWindow function.now) }
    ensures kept { OnOk result (IsGraphOf function.now graph.new) }
{
    let inside = graph.window(alloc, function, save, suspend)?;
    Ok(Window {
        save,
        suspend,
        inside,
    })
}

/// The windows of a function's saves, in order of the text.
pub fn windows_of(
    alloc: Global,
    function: &Function,
    graph: &mut PointGraph,
) -> Result<Items<Window>, AllocError>
    requires { IsGraphOf function.now graph.old }
    ensures saves { IfOk result (λ all. map (λ w. (w.save, w.suspend)) all ≡ saves_of function.now) }
    ensures windows { IfOk result (All (IsWindow function.now)) }
    ensures kept { OnOk result (IsGraphOf function.now graph.new) }
{
    let tokens = tokens_of(alloc, function)?;
    let saves = points_of_calls(alloc, function, Intrinsic::CoroSave)?;
    let mut all = Items::new(alloc);
    for save in saves.as_slice() {
        match suspend_of(function, &tokens, *save) {
            None => (),
            Some(suspend) => {
                let window = window_of(alloc, function, graph, *save, suspend)?;
                all.push(window)?;
            }
        }
    }
    Ok(all)
}
