//! The windows of saves (rule K6).

ghost use Rattle.std.specs.Prelude.{◌≡◌, ◌↔◌, IfOk, OnOk, IsTrue, filter};
ghost use Rattle.std.specs.List.{list_any};
ghost use Rattle.flow_points.specs.ir_paths.Paths.{has_point as has_the_point};
ghost use Rattle.flow_points.specs.Reached.{IsGraphOf};
ghost use Rattle.rule_windows.specs.First.{IsFirst};
ghost use Rattle.rule_windows.specs.Points.{place_of as place_of_point};
ghost use Rattle.rule_windows.specs.Tokens.{AreTokensOf};
ghost use Rattle.rule_windows.specs.Windows.{comes_back, has_way_back, ends_window, ends_window_at, is_final_at, is_call_between, is_off, suspends_of, AreOnTheWay, BreaksWindow, HasCall, HasLeavingEdge, IsFirstWindow, IsOnly, IsWrong, StandsAt};

use crate::labels::{destroy_label, resume_label};
use crate::points::{has_point, instr_at, is_same_point, place_of, points_where};
use crate::sets::{PointSet, set_of};
use crate::tokens::{Tokens, tokens_of};
use flow_points::PointGraph;
use flow_points::ir_paths_library::Point;
use ir_base::{FuncId, Items, Place};
use ir_calls::{CallOf, call_result, is_call_of, is_final};
use ir_parts::ir_model_library::{Function, Instr, Intrinsic};
use std::alloc::{AllocError, Global};

// ---- what the suspend's own edges lead to

fn comes_back(back: &[Point], save: Point, suspend: Point, first: Point) -> bool
    ensures { result ≡ comes_back back.now save suspend first }
{
    is_same_point(first, suspend) || (!is_same_point(first, save) && has_point(back, first))
}

fn has_way_back(
    graph: &PointGraph,
    function: &Function,
    save: Point,
    suspend: Point,
    back: &[Point],
) -> bool
    requires { IsGraphOf function.now graph.now }
    ensures { result ≡ has_way_back function.now back.now save suspend }
{
    let resumed = graph.entry(function, resume_label(function, suspend));
    let destroyed = graph.entry(function, destroy_label(function, suspend));
    comes_back(back, save, suspend, resumed) || comes_back(back, save, suspend, destroyed)
}

// ---- what stands in the window

fn ends_window(instr: &Instr) -> bool
    ensures { result ≡ ends_window instr.now }
{
    is_call_of(Intrinsic::CoroSave, instr)
        || (is_call_of(Intrinsic::CoroSuspend, instr)
            || (is_call_of(Intrinsic::CoroBegin, instr)
                || (is_call_of(Intrinsic::CoroFree, instr)
                    || is_call_of(Intrinsic::CoroEnd, instr))))
}

fn ends_window_at(function: &Function, point: Point) -> bool
    ensures { result ≡ ends_window_at function.now point }
{
    match instr_at(function, point) {
        None => false,
        Some(instr) => ends_window(instr),
    }
}

fn is_final_at(function: &Function, point: Point) -> bool
    ensures { result ≡ is_final_at function.now point }
{
    match instr_at(function, point) {
        None => false,
        Some(instr) => is_final(instr),
    }
}

fn is_call_between(function: &Function, save: Point, suspend: Point, point: Point) -> bool
    ensures { result ≡ is_call_between function.now save suspend point }
{
    !is_same_point(point, save)
        && (!is_same_point(point, suspend) && ends_window_at(function, point))
}

fn calls_between(
    alloc: Global,
    function: &Function,
    save: Point,
    suspend: Point,
    back: &[Point],
) -> Result<Items<Point>, AllocError>
    ensures { IfOk result (λ all. all ≡ filter (is_call_between function.now save suspend) back.now) }
{
    let mut all = Items::new(alloc);
    for point in back {
        if is_call_between(function, save, suspend, *point) {
            all.push(*point)?;
        }
    }
    Ok(all)
}

#[tactic(auto, using(crate::proofs::Between::has_call_is))]
fn has_call(
    alloc: Global,
    graph: &mut PointGraph,
    function: &Function,
    save: Point,
    suspend: Point,
    back: &[Point],
) -> Result<bool, AllocError>
    requires graph { IsGraphOf function.now graph.old }
    requires back { AreOnTheWay function.now save suspend back.now }
    ensures call { IfOk result (λ b. IsTrue b ↔ HasCall function.now save suspend) }
    ensures kept { OnOk result (IsGraphOf function.now graph.new) }
{
    let calls = calls_between(alloc, function, save, suspend, back)?;
    let found = graph.leading_to(alloc, function, calls.as_slice(), &[save, suspend])?;
    Ok(has_point(found.as_slice(), save))
}

// ---- edges that leave the window

fn is_off(back: &PointSet, save: Point, suspend: Point, point: Point) -> bool
    ensures { result ≡ is_off back.now save suspend point }
{
    !is_same_point(point, suspend) && (is_same_point(point, save) || !back.has(point))
}

fn any_is_off(points: &[Point], back: &PointSet, save: Point, suspend: Point) -> bool
    ensures { result ≡ list_any (is_off back.now save suspend) points.now }
{
    for point in points {
        if is_off(back, save, suspend, *point) {
            return true;
        }
    }
    false
}

#[tactic(auto, using(crate::proofs::Between::has_leaving_edge_is))]
fn has_leaving_edge(
    alloc: Global,
    graph: &mut PointGraph,
    function: &Function,
    save: Point,
    suspend: Point,
    back: &[Point],
) -> Result<bool, AllocError>
    requires graph { IsGraphOf function.now graph.old }
    requires back { AreOnTheWay function.now save suspend back.now }
    requires path { IsTrue (has_the_point back.now save) }
    requires stands { StandsAt function.now save }
    ensures leaving { IfOk result (λ b. IsTrue b ↔ HasLeavingEdge function.now save suspend) }
    ensures kept { OnOk result (IsGraphOf function.now graph.new) }
{
    let reached = graph.reached_from(alloc, function, &[save], &[save, suspend])?;
    let set = set_of(alloc, function, back)?;
    Ok(any_is_off(reached.as_slice(), &set, save, suspend))
}

// ---- a save

#[tactic(auto, using(crate::proofs::Between::on_the_way))]
fn on_the_way(
    alloc: Global,
    graph: &mut PointGraph,
    function: &Function,
    save: Point,
    suspend: Point,
) -> Result<Items<Point>, AllocError>
    requires { IsGraphOf function.now graph.old }
    ensures back { IfOk result (λ back. AreOnTheWay function.now save suspend back) }
    ensures kept { OnOk result (IsGraphOf function.now graph.new) }
{
    graph.leading_to(alloc, function, &[suspend], &[save, suspend])
}

#[tactic(auto, using(crate::proofs::Between::wrong_no_path, crate::proofs::Between::wrong_back, crate::proofs::Between::wrong_call, crate::proofs::Between::not_wrong, crate::proofs::Between::wrong_leaving))]
fn is_wrong(
    alloc: Global,
    graph: &mut PointGraph,
    function: &Function,
    save: Point,
    suspend: Point,
) -> Result<bool, AllocError>
    requires graph { IsGraphOf function.now graph.old }
    requires stands { StandsAt function.now save }
    ensures wrong { IfOk result (λ b. IsTrue b ↔ IsWrong function.now save suspend) }
    ensures kept { OnOk result (IsGraphOf function.now graph.new) }
{
    let back = on_the_way(alloc, graph, function, save, suspend)?;
    if !has_point(back.as_slice(), save) {
        return Ok(true);
    }
    if has_way_back(graph, function, save, suspend, back.as_slice()) {
        return Ok(true);
    }
    if has_call(alloc, graph, function, save, suspend, back.as_slice())? {
        return Ok(true);
    }
    if !is_final_at(function, suspend) {
        return Ok(false);
    }
    let leaves = has_leaving_edge(alloc, graph, function, save, suspend, back.as_slice())?;
    Ok(leaves)
}

fn only(points: &[Point]) -> Option<Point>
    ensures { IsOnly points.now result }
{
    match points {
        [point] => Some(*point),
        _ => None,
    }
}

#[tactic(auto, using(crate::proofs::Between::no_token, crate::proofs::Between::some_token))]
fn only_suspend(
    tokens: &Tokens,
    function: &Function,
    save: Point,
) -> Result<Option<Point>, AllocError>
    requires { AreTokensOf function.now tokens.now }
    ensures { IfOk result (IsOnly (suspends_of function.now save)) }
{
    match instr_at(function, save) {
        None => Ok(None),
        Some(instr) => match call_result(instr) {
            None => Ok(None),
            Some(token) => Ok(only(tokens.suspends_of(token)?)),
        },
    }
}

#[tactic(auto, using(crate::proofs::Between::breaks_none, crate::proofs::Between::breaks_some, crate::proofs::Between::stands_by))]
fn breaks_window(
    alloc: Global,
    graph: &mut PointGraph,
    tokens: &Tokens,
    function: &Function,
    save: Point,
) -> Result<bool, AllocError>
    requires graph { IsGraphOf function.now graph.old }
    requires tokens { AreTokensOf function.now tokens.now }
    ensures breaks { IfOk result (λ b. IsTrue b ↔ BreaksWindow function.now save) }
    ensures kept { OnOk result (IsGraphOf function.now graph.new) }
{
    match only_suspend(tokens, function, save)? {
        None => Ok(true),
        Some(suspend) => {
            let wrong = is_wrong(alloc, graph, function, save, suspend)?;
            Ok(wrong)
        }
    }
}

#[tactic(auto, using(crate::proofs::Between::first_step, crate::proofs::Between::first_found, crate::proofs::Between::first_none))]
fn first_in(
    alloc: Global,
    graph: &mut PointGraph,
    tokens: &Tokens,
    func: FuncId,
    function: &Function,
    saves: &[Point],
) -> Result<Option<Place>, AllocError>
    requires graph { IsGraphOf function.now graph.old }
    requires tokens { AreTokensOf function.now tokens.now }
    ensures { IfOk result (λ p. IsFirst (BreaksWindow function.now) (place_of_point func function.now) saves.now p) }
{
    for save in saves {
        if breaks_window(alloc, graph, tokens, function, *save)? {
            return Ok(Some(place_of(func, function, *save)?));
        }
    }
    Ok(None)
}

/// The first save that breaks rule K6: it hasn't exactly one suspend, or no path leads from it to that; a path leads from the
/// suspend's own resume or destroy edge back to it without passing the save; another save, a suspend, begin, free or end
/// stands in its window; its suspend is final and its window has a leaving edge.
#[tactic(auto, using(crate::proofs::Between::no_first_window, crate::proofs::Between::first_window_is))]
pub fn first_wrong_window(
    alloc: Global,
    func: FuncId,
    function: &Function,
) -> Result<Option<Place>, AllocError>
    ensures { IfOk result (λ p. IsFirstWindow func function.now p) }
{
    if !function.coroutine {
        return Ok(None);
    }
    let mut graph = PointGraph::new(alloc, function)?;
    let tokens = tokens_of(alloc, function)?;
    let save = CallOf {
        intrinsic: Intrinsic::CoroSave,
    };
    let saves = points_where(alloc, &save, function)?;
    let place = first_in(alloc, &mut graph, &tokens, func, function, saves.as_slice())?;
    Ok(place)
}
