//! The points in windows and after the end.

ghost use Rattle.std.specs.Prelude.{◌≡◌, ◌||◌, IfOk, OnOk, slice_get};
ghost use Rattle.ir_paths.specs.Paths.{has_point};
ghost use Rattle.ir_paths.specs.Windows.{suspend_of as suspend_of_save};
ghost use Rattle.ir_paths.specs.declared.point.Point.{Point as ThePoint};
ghost use Rattle.flow_points.specs.Reached.{IsGraphOf};
ghost use Rattle.flow_points.specs.Rows.{is_marked};
ghost use Rattle.rule_slots.specs.Closed.{HasWindow, HaveWindows, IsClosed};
ghost use Rattle.rule_windows.specs.Sets.{AreThose};
ghost use Rattle.rule_windows.specs.Tokens.{AreTokensOf};

use flow_points::PointGraph;
use ir_calls::{CallOf, call_result};
use ir_model::{Function, Intrinsic};
use ir_paths::Point;
use rule_windows::{PointSet, Tokens, instr_at, points_where, reached_set, tokens_of};
use std::alloc::{AllocError, Global};

fn first_of(points: &[Point]) -> Option<Point>
    ensures { result ≡ slice_get points.now 0 }
{
    points.first().copied()
}

/// The suspend of a save.
#[tactic(auto, using(crate::proofs::Windows::no_save, crate::proofs::Windows::no_result, crate::proofs::Windows::by_token))]
fn suspend_of(
    tokens: &Tokens,
    function: &Function,
    save: Point,
) -> Result<Option<Point>, AllocError>
    requires { AreTokensOf function.now tokens.now }
    ensures { IfOk result (λ s. s ≡ suspend_of_save function.now save) }
{
    match instr_at(function, save) {
        None => Ok(None),
        Some(instr) => match call_result(instr) {
            None => Ok(None),
            Some(token) => Ok(first_of(tokens.suspends_of(token)?)),
        },
    }
}

fn add_all(set: &mut PointSet, points: &[Point]) -> Result<(), AllocError>
    ensures { OnOk result ((p : ThePoint) → is_marked set.new p ≡ (is_marked set.old p || has_point points.now p)) }
{
    for point in points {
        set.add(*point)?;
    }
    Ok(())
}

/// Adds the points in the window of a save.
#[tactic(auto, using(crate::proofs::Windows::no_window, crate::proofs::Windows::with_window))]
fn add_window(
    alloc: Global,
    graph: &mut PointGraph,
    tokens: &Tokens,
    function: &Function,
    save: Point,
    set: &mut PointSet,
) -> Result<(), AllocError>
    requires graph { IsGraphOf function.now graph.old }
    requires tokens { AreTokensOf function.now tokens.now }
    ensures window { OnOk result (HasWindow function.now save set.old set.new) }
    ensures kept { OnOk result (IsGraphOf function.now graph.new) }
{
    match suspend_of(tokens, function, save)? {
        None => Ok(()),
        Some(suspend) => {
            let inside = graph.window(alloc, function, save, suspend)?;
            add_all(set, inside.as_slice())
        }
    }
}

#[tactic(auto, using(crate::proofs::Windows::windows_step, crate::proofs::Windows::windows_last))]
fn add_windows(
    alloc: Global,
    graph: &mut PointGraph,
    function: &Function,
    saves: &[Point],
    set: &mut PointSet,
) -> Result<(), AllocError>
    requires { IsGraphOf function.now graph.old }
    ensures windows { OnOk result (HaveWindows function.now saves.now set.old set.new) }
    ensures kept { OnOk result (IsGraphOf function.now graph.new) }
{
    let tokens = tokens_of(alloc, function)?;
    for save in saves {
        add_window(alloc, graph, &tokens, function, *save, set)?;
    }
    Ok(())
}

/// The points after the end and those in windows.
#[tactic(auto, using(crate::proofs::Windows::closed_is))]
pub fn closed_points(
    alloc: Global,
    graph: &mut PointGraph,
    function: &Function,
) -> Result<PointSet, AllocError>
    requires { IsGraphOf function.now graph.old }
    ensures closed { IfOk result (AreThose (IsClosed function.now)) }
    ensures kept { OnOk result (IsGraphOf function.now graph.new) }
{
    let end = CallOf {
        intrinsic: Intrinsic::CoroEnd,
    };
    let save = CallOf {
        intrinsic: Intrinsic::CoroSave,
    };
    let ends = points_where(alloc, &end, function)?;
    let saves = points_where(alloc, &save, function)?;
    let mut set = reached_set(alloc, graph, function, ends.as_slice(), &[])?;
    add_windows(alloc, graph, function, saves.as_slice(), &mut set)?;
    Ok(set)
}
