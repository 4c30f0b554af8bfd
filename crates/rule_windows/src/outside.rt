//! What stands before begin or after the end (rule K5).

ghost use Rattle.std.specs.Prelude.{◌≡◌, [], IfOk, OnOk};
ghost use Rattle.flow_points.specs.Reached.{IsGraphOf};
ghost use Rattle.rule_windows.specs.Points.{begins as begins_of};
ghost use Rattle.rule_windows.specs.Sets.{AreThose, IsWithoutBegin};
ghost use Rattle.rule_windows.specs.Outside.{ends_with_it, needs_begin, is_return, stands_outside, IsOutsideOf, IsFirstOutside};

use crate::points::{has_point, point_of, points_where};
use crate::sets::{PointSet, reached_set};
use flow_points::PointGraph;
use flow_points::ir_paths_library::Point;
use ir_base::{FuncId, Place};
use ir_calls::{CallOf, is_call_of};
use ir_parts::ir_model_library::{Block, Function, Instr, Intrinsic, Phi, Terminator};
use ir_parts::{FunctionRule, first_part};
use std::alloc::{AllocError, Global};

/// What a function's begin and end lead to: the points behind begin without the end between, those after the end, and those
/// to which a path leads without begin.
#[derive(Drop)]
pub struct Outside<'a> {
    pub function: &'a Function,
    pub out: PointSet,
    pub after: PointSet,
    pub before: PointSet,
}

fn ends_with_it(instr: &Instr) -> bool
    ensures { result ≡ ends_with_it instr.now }
{
    is_call_of(Intrinsic::CoroBegin, instr)
        || (is_call_of(Intrinsic::CoroSave, instr)
            || (is_call_of(Intrinsic::CoroSuspend, instr)
                || (is_call_of(Intrinsic::CoroFree, instr)
                    || is_call_of(Intrinsic::CoroEnd, instr))))
}

fn needs_begin(instr: &Instr) -> bool
    ensures { result ≡ needs_begin instr.now }
{
    is_call_of(Intrinsic::CoroSave, instr)
        || (is_call_of(Intrinsic::CoroSuspend, instr)
            || (is_call_of(Intrinsic::CoroFree, instr)
                || (is_call_of(Intrinsic::CoroFrame, instr)
                    || is_call_of(Intrinsic::CoroEnd, instr))))
}

fn is_return(term: &Terminator) -> bool
    ensures { result ≡ is_return term.now }
{
    matches!(term, Terminator::Ret(_))
}

impl FunctionRule for Outside<'_> {
    ghost breaks = { λ r. stands_outside r.function.now r.out r.after r.before };

    fn breaks_signature(&self, _place: Place, _function: &Function) -> Result<bool, AllocError> {
        Ok(false)
    }

    fn breaks_block(&self, _place: Place, _block: &Block) -> Result<bool, AllocError> {
        Ok(false)
    }

    fn breaks_phi(&self, _place: Place, _phi: &Phi) -> Result<bool, AllocError> {
        Ok(false)
    }

    fn breaks_instr(&self, place: Place, instr: &Instr) -> Result<bool, AllocError> {
        let point = point_of(self.function, place);
        Ok(
            (ends_with_it(instr) && self.after.has(point))
                || (needs_begin(instr) && self.before.has(point)),
        )
    }

    fn breaks_ending(&self, place: Place, term: &Terminator) -> Result<bool, AllocError> {
        Ok(is_return(term) && self.out.has(point_of(self.function, place)))
    }
}

/// The points to which a path from the entry leads without begin.
#[tactic(auto, using(crate::proofs::Firsts::without_begin_none, crate::proofs::Firsts::without_begin_some))]
pub fn without_begin(
    alloc: Global,
    graph: &mut PointGraph,
    function: &Function,
    begins: &[Point],
) -> Result<PointSet, AllocError>
    requires graph { IsGraphOf function.now graph.old }
    requires begins { begins.now ≡ begins_of function.now }
    ensures set { IfOk result (AreThose (IsWithoutBegin function.now)) }
    ensures kept { OnOk result (IsGraphOf function.now graph.new) }
{
    let entry = Point { block: 0, at: 0 };
    if has_point(begins, entry) {
        return PointSet::new(alloc, function);
    }
    let mut set = reached_set(alloc, graph, function, &[entry], begins)?;
    set.add(entry)?;
    Ok(set)
}

fn outside_of<'a>(alloc: Global, function: &'a Function) -> Result<Outside<'a>, AllocError>
    ensures { IfOk result (IsOutsideOf function.now) }
{
    let mut graph = PointGraph::new(alloc, function)?;
    let begin = CallOf {
        intrinsic: Intrinsic::CoroBegin,
    };
    let end = CallOf {
        intrinsic: Intrinsic::CoroEnd,
    };
    let begins = points_where(alloc, &begin, function)?;
    let ends = points_where(alloc, &end, function)?;
    let out = reached_set(
        alloc,
        &mut graph,
        function,
        begins.as_slice(),
        ends.as_slice(),
    )?;
    let after = reached_set(alloc, &mut graph, function, ends.as_slice(), &[])?;
    let before = without_begin(alloc, &mut graph, function, begins.as_slice())?;
    Ok(Outside {
        function,
        out,
        after,
        before,
    })
}

/// The first place at which rule K5 is broken: a ret after begin without the end between; a begin, save, suspend, free or end
/// after the end; a save, suspend, free, frame or end that some path from the entry reaches without begin.
#[tactic(auto, using(crate::proofs::Firsts::no_first_outside, crate::proofs::Firsts::first_outside_is))]
pub fn first_outside(
    alloc: Global,
    func: FuncId,
    function: &Function,
) -> Result<Option<Place>, AllocError>
    ensures { IfOk result (λ p. IsFirstOutside func function.now p) }
{
    if !function.coroutine {
        return Ok(None);
    }
    let rule = outside_of(alloc, function)?;
    let place = first_part(&rule, func, function)?;
    Ok(place)
}
