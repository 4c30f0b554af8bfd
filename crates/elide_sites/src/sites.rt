//! The calls whose frames lie in the caller.

ghost use Rattle.std.specs.Prelude.{◌≡◌, ◌++◌, ◌∷◌, ◌+◌, ◌↔◌, if◌then◌else◌, [], IfOk, OnOk, IsTrue, Some, length, not, replicate};
ghost use Rattle.std.specs.List.{list_any};
ghost use Rattle.std.specs.Option.{option_copied};
ghost use Rattle.rule_shape.specs.Places.{places_where as places_of};
ghost use Rattle.rule_shape.specs.Uses.{counted_all, operands_of};
ghost use Rattle.elide_shape.specs.Calls.{value_at as value_of_call};
ghost use Rattle.elide_sites.specs.Chosen.{AreChosen};
ghost use Rattle.elide_sites.specs.Elidable.{AreFlags, IsElidable};
ghost use Rattle.elide_shape.specs.Frames.{all_from};
ghost use Rattle.elide_sites.specs.Handles.{handles as handles_in, is_handle as is_handle_of};
ghost use Rattle.elide_sites.specs.Rows.{AreDestroysOf};
ghost use Rattle.elide_sites.specs.Sites.{AreSites, AreSitesOf, CallsElidable, IsDestroyed, IsHandled, IsPassed, IsSite, IsSiteAt, callee_in, destroys_of as destroys_in, ends_use as ends_use_at, is_ahead as is_ahead_of, is_named_call as is_named_call_of, is_ret_at as is_ret_at_point, plain_calls as plain_calls_of};
ghost use Rattle.ir_model.specs.Names.{function_at};
ghost use Rattle.ir_paths.specs.Windows.{instr_at as instr_at_point};
ghost use Rattle.flow_points.specs.Reached.{IsGraphOf};

use crate::elidable::flags_of;
use crate::handles::Handles;
use crate::rows::{Destroys, destroys_of};
use elide_shape::{counts_of, value_at};
use flow_points::PointGraph;
use ir_base::{FuncId, Items, Place, ValueId};
use ir_calls::InstrTest;
use ir_model::{Callee, Function, Instr, Module, Terminator};
use ir_paths::Point;
use ir_tables::Names;
use rule_shape::{Uses, places_where, uses_in};
use rule_windows::{instr_at, point_of};
use std::alloc::{AllocError, Global};

/// The test for calls of named functions.
#[derive(Clone, Copy, Drop)]
struct NamedCall;

impl InstrTest for NamedCall {
    ghost instr_passes = { λ t. is_named_call_of };

    fn passes(&self, instr: &Instr) -> bool {
        matches!(
            instr,
            Instr::Call {
                callee: Callee::Named(_),
                ..
            }
        )
    }
}

/// A function that may call elidable ones, with the uses of its values, and those of them that the handle of a site may have.
#[derive(Drop)]
struct Caller<'a> {
    function: &'a Function,
    uses: Uses,
    handles: Uses,
    ghost uses_are: { uses ≡ counted_all (replicate (length function.now.names) 0) (operands_of function.now) },
    ghost handles_are: { handles ≡ counted_all (replicate (length function.now.names) 0) (all_from handles_in function.now.blocks) },
}

fn caller_of<'a>(alloc: Global, function: &'a Function) -> Result<Caller<'a>, AllocError>
    ensures { IfOk result (λ caller. caller.function.now ≡ function.now) }
{
    let uses = uses_in(alloc, function)?;
    let handles = counts_of(alloc, &Handles, function)?;
    Ok(Caller {
        function,
        uses,
        handles,
    })
}

impl Caller<'_> {
    #[tactic(auto, using(rule_shape::proofs::Counts::count_of))]
    fn is_handle_value(&self, value: ValueId) -> Result<bool, AllocError>
        ensures { IfOk result (λ b. b ≡ is_handle_of self.now.function.now (Some value)) }
    {
        Ok(self.uses.of(value)? == self.handles.of(value)?)
    }

    /// Whether the value is used in the five ways only.
    fn is_handle(&self, value: Option<ValueId>) -> Result<bool, AllocError>
        ensures { IfOk result (λ b. b ≡ is_handle_of self.now.function.now value) }
    {
        match value {
            None => Ok(true),
            Some(value) => self.is_handle_value(value),
        }
    }
}

// ---- paths

fn is_ret_at(function: &Function, point: Point) -> bool
    ensures { result ≡ is_ret_at_point function.now point }
{
    match function.blocks.get(point.block) {
        None => false,
        Some(block) => {
            point.at == block.instrs.len() && matches!(&block.term, Terminator::Ret(_))
        }
    }
}

/// Whether the point is a ret, or the call again.
fn ends_use(function: &Function, call: Point, point: Point) -> bool
    ensures { result ≡ ends_use_at function.now call point }
{
    (point.block == call.block && point.at == call.at) || is_ret_at(function, point)
}

fn end_use(function: &Function, call: Point, points: &[Point]) -> bool
    ensures { result ≡ list_any (ends_use_at function.now call) points.now }
{
    for point in points {
        if ends_use(function, call, *point) {
            return true;
        }
    }
    false
}

fn is_ahead(count: usize, call: Point, point: Point) -> bool
    ensures { result ≡ is_ahead_of count call point }
{
    point.block == call.block && (call.at < point.at && point.at < count)
}

fn any_ahead(count: usize, call: Point, points: &[Point]) -> bool
    ensures { result ≡ list_any (is_ahead_of count call) points.now }
{
    for point in points {
        if is_ahead(count, call, *point) {
            return true;
        }
    }
    false
}

/// Whether one of these points stands behind the call in its block.
fn is_passed(function: &Function, points: &[Point], call: Point) -> bool
    ensures { IsTrue result → IsPassed function.now points.now call }
{
    match function.blocks.get(call.block) {
        None => false,
        Some(block) => any_ahead(block.instrs.len(), call, points),
    }
}

/// Whether each path from the call to a ret or to the call again passes one of these calls of coro.destroy.
#[tactic(auto, using(crate::proofs::Ending::destroyed_is, crate::proofs::Ahead::passed_is))]
fn is_destroyed(
    alloc: Global,
    graph: &mut PointGraph,
    function: &Function,
    destroys: &[Point],
    call: Point,
) -> Result<bool, AllocError>
    requires graph { IsGraphOf function.now graph.old }
    requires destroys { destroys.now ≡ destroys_in function.now (value_of_call function.now call) }
    ensures is { IfOk result (λ b. IsTrue b ↔ IsDestroyed function.now call) }
    ensures kept { OnOk result (IsGraphOf function.now graph.new) }
{
    // Most often a destroy stands behind the call in its own block, and no search is needed.
    if is_passed(function, destroys, call) {
        return Ok(true);
    }
    let found = graph.reached_from(alloc, function, &[call], destroys)?;
    Ok(!end_use(function, call, found.as_slice()))
}

// ---- one call

fn callee_of(names: &Names, instr: Option<&Instr>) -> Option<FuncId>
    ensures { result ≡ callee_in names.now.source.now (option_copied instr.entry) }
{
    match instr {
        Some(
            Instr::Call {
                callee: Callee::Named(name),
                ..
            },
        ) => names.function_named(name),
        _ => None,
    }
}

fn is_flagged(module: &Module, flags: &Items<bool>, callee: FuncId) -> bool
    requires { AreFlags «module».now flags.now }
    ensures { IsTrue result ↔ IsElidable (function_at «module».now callee) }
{
    match flags.get(callee) {
        None => false,
        Some(flag) => *flag,
    }
}

/// Whether the function that is called is elidable.
fn calls_elidable(
    module: &Module,
    names: &Names,
    flags: &Items<bool>,
    function: &Function,
    call: Point,
) -> bool
    requires names { names.now.source.now ≡ «module».now }
    requires flags { AreFlags «module».now flags.now }
    ensures { IsTrue result ↔ CallsElidable «module».now function.now call }
{
    match callee_of(names, instr_at(function, call)) {
        None => false,
        Some(callee) => is_flagged(module, flags, callee),
    }
}

/// Whether the result of a call is used in the five ways only, and destroyed on each path.
fn is_handled(
    alloc: Global,
    graph: &mut PointGraph,
    caller: &Caller,
    destroys: &Destroys,
    call: Point,
) -> Result<bool, AllocError>
    requires graph { IsGraphOf caller.now.function.now graph.old }
    requires destroys { AreDestroysOf caller.now.function.now destroys.now }
    ensures is { IfOk result (λ b. IsTrue b ↔ IsHandled caller.now.function.now call) }
    ensures kept { OnOk result (IsGraphOf caller.now.function.now graph.new) }
{
    let value = value_at(caller.function, call);
    if caller.is_handle(value)? {
        let points = destroys.of(caller.function, value)?;
        is_destroyed(alloc, graph, caller.function, points, call)
    } else {
        Ok(false)
    }
}

/// Whether a call of an elidable function is a site.
#[tactic(auto, using(crate::proofs::SiteLists::site_called, crate::proofs::SiteLists::not_called))]
fn is_site_at(
    alloc: Global,
    module: &Module,
    names: &Names,
    flags: &Items<bool>,
    graph: &mut PointGraph,
    caller: &Caller,
    destroys: &Destroys,
    call: Point,
) -> Result<bool, AllocError>
    requires names { names.now.source.now ≡ «module».now }
    requires flags { AreFlags «module».now flags.now }
    requires graph { IsGraphOf caller.now.function.now graph.old }
    requires destroys { AreDestroysOf caller.now.function.now destroys.now }
    ensures is { IfOk result (λ b. IsTrue b ↔ IsSiteAt «module».now caller.now.function.now call) }
    ensures kept { OnOk result (IsGraphOf caller.now.function.now graph.new) }
{
    if calls_elidable(module, names, flags, caller.function, call) {
        is_handled(alloc, graph, caller, destroys, call)
    } else {
        Ok(false)
    }
}

fn push_if(is_site: bool, place: Place, all: &mut Items<Place>) -> Result<(), AllocError>
    ensures { OnOk result (all.new ≡ all.old ++ (if is_site then place ∷ [] else [])) }
{
    if is_site {
        all.push(place)?;
    }
    Ok(())
}

/// Those of the calls of a function that are sites.
fn chosen(
    alloc: Global,
    module: &Module,
    names: &Names,
    flags: &Items<bool>,
    function: &Function,
    calls: &[Place],
) -> Result<Items<Place>, AllocError>
    requires names { names.now.source.now ≡ «module».now }
    requires flags { AreFlags «module».now flags.now }
    ensures { IfOk result (λ all. AreChosen (IsSite «module».now function.now) calls.now all) }
{
    let mut graph = PointGraph::new(alloc, function)?;
    let caller = caller_of(alloc, function)?;
    let destroys = destroys_of(alloc, function)?;
    let mut all = Items::new(alloc);
    for place in calls {
        let call = point_of(function, *place);
        let is_site = is_site_at(
            alloc, module, names, flags, &mut graph, &caller, &destroys, call,
        )?;
        push_if(is_site, *place, &mut all)?;
    }
    Ok(all)
}

/// The calls of named functions, where the function is no coroutine.
fn plain_calls(alloc: Global, func: FuncId, function: &Function) -> Result<Items<Place>, AllocError>
    ensures { IfOk result (λ all. all ≡ plain_calls_of func function.now) }
{
    if function.coroutine {
        Ok(Items::new(alloc))
    } else {
        places_where(alloc, &NamedCall, func, function)
    }
}

fn push_all(places: &[Place], all: &mut Items<Place>) -> Result<(), AllocError>
    ensures { OnOk result (all.new ≡ all.old ++ places.now) }
{
    for place in places {
        all.push(*place)?;
    }
    Ok(())
}

/// The calls, in functions that are no coroutines, whose frames are put into the caller, in order of place: of the result of a
/// call of an elidable coroutine that is only resumed, destroyed, compared with null, or asked whether it is done or for its
/// promise, and destroyed on each path to a ret or to the call again ("Coroutines in LLVM", "llvm.coro.alloc").
pub fn elidable_sites(alloc: Global, module: &Module) -> Result<Items<Place>, AllocError>
    ensures { IfOk result (AreSites «module».now) }
{
    let flags = flags_of(alloc, module)?;
    let names = Names::new(alloc, module)?;
    let functions = module.functions.as_slice();
    let mut all = Items::new(alloc);
    for func in 0..functions.len() {
        let function = &functions[func];
        let calls = plain_calls(alloc, func, function)?;
        let here = chosen(alloc, module, &names, &flags, function, calls.as_slice())?;
        push_all(here.as_slice(), &mut all)?;
    }
    Ok(all)
}
