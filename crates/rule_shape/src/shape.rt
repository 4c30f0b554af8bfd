//! The shape of a coroutine.

ghost use Rattle.std.specs.Prelude.{◌≡◌, IfOk, IsTrue};
ghost use Rattle.ir_model.specs.Names.{function_at};
ghost use Rattle.rule_shape.specs.Shape.{shape_in, EndsInShape, GoesByPaths, HasToken, IsAnswer, IsAnswerOf};

use crate::one_of_each::first_wrong_call;
use crate::promise::{first_wrong_promise, promise_slot};
use crate::suspends::{first_second_final, first_suspend_too_many, suspends_of};
use crate::switches::{end_block, first_wrong_switch};
use ir_base::{BlockId, FuncId, Items, Place, Rule, SlotId, ValueId};
use ir_model::{Function, Intrinsic, Module};
use rule_windows::ir_calls_library::value_of_first;
use rule_windows::{first_outside, first_wrong_window};
use std::alloc::{AllocError, Global};

/// The id, begin, end, suspends and promise of a coroutine ("Coroutines in LLVM", "Coroutine Structure Intrinsics").
#[derive(Drop)]
pub struct Shape {
    pub id: ValueId,
    pub begin: Option<ValueId>,
    pub end_block: BlockId,
    pub suspends: Items<Place>,
    pub promise: Option<SlotId>,
}

/// The shape of a coroutine, or the first rule of those of its shape that it breaks, with the place.
#[derive(Drop)]
pub enum Answer {
    Shape(Shape),
    Refused(Rule, Place),
}

impl Shape {
    /// The token of `coro.id`.
    pub fn id(&self) -> ValueId
        ensures { result ≡ self.now.id }
    {
        self.id
    }

    /// The value of `coro.begin`, the frame's address, where it has a name.
    pub fn begin(&self) -> Option<ValueId>
        ensures { result ≡ self.now.begin }
    {
        self.begin
    }

    /// The block of `coro.end`.
    pub fn end_block(&self) -> BlockId
        ensures { result ≡ self.now.end_block }
    {
        self.end_block
    }

    /// The suspends, in order of the text.
    pub fn suspends(&self) -> &[Place]
        ensures { result.now ≡ self.now.suspends }
    {
        self.suspends.as_slice()
    }

    /// The alloca that `coro.id` names as the promise.
    pub fn promise(&self) -> Option<SlotId>
        ensures { result ≡ self.now.promise }
    {
        self.promise
    }
}

fn shape_in(alloc: Global, func: FuncId, function: &Function) -> Result<Shape, AllocError>
    ensures { IfOk result (λ s. s ≡ shape_in func function.now) }
{
    Ok(Shape {
        id: value_of_first(Intrinsic::CoroId, function).unwrap_or(0),
        begin: value_of_first(Intrinsic::CoroBegin, function),
        end_block: end_block(function),
        suspends: suspends_of(alloc, func, function)?,
        promise: promise_slot(alloc, function)?,
    })
}

/// The answer by K10 and K11, and then the shape.
#[tactic(auto, using(crate::proofs::Tokens::after_some, crate::proofs::Tokens::after_none))]
fn ending(alloc: Global, func: FuncId, function: &Function) -> Result<Answer, AllocError>
    ensures { IfOk result (EndsInShape func function.now) }
{
    if let Some(place) = first_wrong_promise(alloc, func, function)? {
        return Ok(Answer::Refused(Rule::K10, place));
    }
    if let Some(place) = first_suspend_too_many(alloc, func, function)? {
        return Ok(Answer::Refused(Rule::K11, place));
    }
    Ok(Answer::Shape(shape_in(alloc, func, function)?))
}

/// The answer by K5 and K6, and then by those.
#[tactic(auto, using(crate::proofs::Tokens::paths_outside, crate::proofs::Tokens::paths_window, crate::proofs::Tokens::paths_ending))]
fn by_paths(alloc: Global, func: FuncId, function: &Function) -> Result<Answer, AllocError>
    ensures { IfOk result (GoesByPaths func function.now) }
{
    if let Some(place) = first_outside(alloc, func, function)? {
        return Ok(Answer::Refused(Rule::K5, place));
    }
    if let Some(place) = first_wrong_window(alloc, func, function)? {
        return Ok(Answer::Refused(Rule::K6, place));
    }
    let answer = ending(alloc, func, function)?;
    Ok(answer)
}

#[tactic(auto, using(crate::proofs::Tokens::after_some, crate::proofs::Tokens::after_none))]
fn answer_in(alloc: Global, func: FuncId, function: &Function) -> Result<Answer, AllocError>
    ensures { IfOk result (IsAnswer func function.now) }
{
    if let Some(place) = first_wrong_call(alloc, func, function)? {
        return Ok(Answer::Refused(Rule::K2, place));
    }
    if let Some(place) = first_wrong_switch(alloc, func, function)? {
        return Ok(Answer::Refused(Rule::K3, place));
    }
    if let Some(place) = first_second_final(alloc, func, function)? {
        return Ok(Answer::Refused(Rule::K4, place));
    }
    let answer = by_paths(alloc, func, function)?;
    Ok(answer)
}

/// The shape of a coroutine of the module, or the first rule of K2, K3, K4, K5, K6, K10 and K11 that it breaks, with the
/// place.
#[tactic(auto, using(crate::proofs::Tokens::token_is))]
pub fn shape_of(alloc: Global, source: &Module, func: FuncId) -> Result<Answer, AllocError>
    requires { IsTrue (function_at source.now func).coroutine }
    ensures answer { IfOk result (IsAnswerOf source.now func) }
    ensures token { IfOk result (λ a. HasToken (function_at source.now func) a) }
{
    match source.functions.get(func) {
        None => unreachable!(),
        Some(function) => {
            let answer = answer_in(alloc, func, function)?;
            Ok(answer)
        }
    }
}
