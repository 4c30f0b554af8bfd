//! One id, begin and end, and what they and alloc, free and save name (rule K2).

ghost use Rattle.std.specs.Prelude.{◌≡◌, IfOk};
ghost use Rattle.rule_shape.specs.OneOfEach.{is_missing, second_call, calls_of, is_second, has_token, has_frame_at, has_no_other_frame, is_first_in_block, is_right, is_right_instr, breaks_calls, wrong_call};

use crate::places::{is_spot, is_the, places_where};
use ir_base::{FuncId, Place, ValueId};
use ir_model::{Arg, Block, Callee, Function, Instr, Intrinsic, Phi, Terminator};
use rule_windows::ir_calls_library::{
    CallOf, first_call, is_null, is_value, operand_of, value_of_first,
};
use rule_windows::ir_parts_library::{FunctionRule, first_part};
use std::alloc::{AllocError, Global};

/// What a coroutine has of id, begin and end: whether one is missing, where there is a second, and the values of the first.
#[derive(Clone, Copy, Debug, Drop)]
pub struct Calls {
    pub is_missing: bool,
    pub second_id: Option<Place>,
    pub second_begin: Option<Place>,
    pub second_end: Option<Place>,
    pub token: Option<ValueId>,
    pub frame: Option<ValueId>,
}

fn is_missing(intrinsic: Intrinsic, function: &Function) -> bool
    ensures { result ≡ is_missing intrinsic function.now }
{
    first_call(intrinsic, function).is_none()
}

fn second_call(
    alloc: Global,
    intrinsic: Intrinsic,
    func: FuncId,
    function: &Function,
) -> Result<Option<Place>, AllocError>
    ensures { IfOk result (λ p. p ≡ second_call intrinsic func function.now) }
{
    let all = places_where(alloc, &CallOf { intrinsic }, func, function)?;
    Ok(all.get(1).copied())
}

fn calls_of(alloc: Global, func: FuncId, function: &Function) -> Result<Calls, AllocError>
    ensures { IfOk result (λ c. c ≡ calls_of func function.now) }
{
    Ok(Calls {
        is_missing: is_missing(Intrinsic::CoroId, function)
            || (is_missing(Intrinsic::CoroBegin, function)
                || is_missing(Intrinsic::CoroEnd, function)),
        second_id: second_call(alloc, Intrinsic::CoroId, func, function)?,
        second_begin: second_call(alloc, Intrinsic::CoroBegin, func, function)?,
        second_end: second_call(alloc, Intrinsic::CoroEnd, func, function)?,
        token: value_of_first(Intrinsic::CoroId, function),
        frame: value_of_first(Intrinsic::CoroBegin, function),
    })
}

fn is_first_in_block(place: Place) -> bool
    ensures { result ≡ is_first_in_block place }
{
    is_the(place.instr, 0)
}

impl Calls {
    fn is_second(&self, place: Place) -> bool
        ensures { result ≡ is_second self.now place }
    {
        is_spot(self.second_id, place)
            || (is_spot(self.second_begin, place) || is_spot(self.second_end, place))
    }

    fn has_token(&self, args: &[Arg]) -> bool
        ensures { result ≡ has_token self.now args.now }
    {
        match operand_of(args, 0) {
            None => false,
            Some(operand) => is_value(self.token, operand),
        }
    }

    fn has_frame_at(&self, at: usize, args: &[Arg]) -> bool
        ensures { result ≡ has_frame_at self.now at args.now }
    {
        match operand_of(args, at) {
            None => false,
            Some(operand) => is_value(self.frame, operand),
        }
    }

    fn has_no_other_frame(&self, args: &[Arg]) -> bool
        ensures { result ≡ has_no_other_frame self.now args.now }
    {
        match operand_of(args, 0) {
            None => false,
            Some(operand) => is_null(operand) || self.has_frame_at(0, args),
        }
    }

    fn is_right(&self, place: Place, intrinsic: Intrinsic, args: &[Arg]) -> bool
        ensures { result ≡ is_right self.now place intrinsic args.now }
    {
        match intrinsic {
            Intrinsic::CoroAlloc => self.has_token(args),
            Intrinsic::CoroBegin => self.has_token(args),
            Intrinsic::CoroFree => self.has_token(args) && self.has_frame_at(1, args),
            Intrinsic::CoroSave => self.has_no_other_frame(args),
            Intrinsic::CoroEnd => is_first_in_block(place) && self.has_no_other_frame(args),
            _ => true,
        }
    }

    fn is_right_instr(&self, place: Place, instr: &Instr) -> bool
        ensures { result ≡ is_right_instr self.now place instr.now }
    {
        match instr {
            Instr::Call {
                callee: Callee::Intrinsic(intrinsic),
                args,
                ..
            } => self.is_right(place, *intrinsic, args.as_slice()),
            _ => true,
        }
    }
}

impl FunctionRule for Calls {
    ghost breaks = { breaks_calls };

    fn breaks_signature(&self, _place: Place, _function: &Function) -> Result<bool, AllocError> {
        Ok(self.is_missing)
    }

    fn breaks_block(&self, _place: Place, _block: &Block) -> Result<bool, AllocError> {
        Ok(false)
    }

    fn breaks_phi(&self, _place: Place, _phi: &Phi) -> Result<bool, AllocError> {
        Ok(false)
    }

    fn breaks_instr(&self, place: Place, instr: &Instr) -> Result<bool, AllocError> {
        Ok(self.is_second(place) || !self.is_right_instr(place, instr))
    }

    fn breaks_ending(&self, _place: Place, _term: &Terminator) -> Result<bool, AllocError> {
        Ok(false)
    }
}

/// The first place at which rule K2 is broken: not exactly one id, begin and end; the end not first in its block; begin, alloc
/// or free with another token than id's; free's pointer isn't begin's value; save's or end's is neither null nor that.
pub fn first_wrong_call(
    alloc: Global,
    func: FuncId,
    function: &Function,
) -> Result<Option<Place>, AllocError>
    ensures { IfOk result (λ p. p ≡ wrong_call func function.now) }
{
    if !function.coroutine {
        return Ok(None);
    }
    let calls = calls_of(alloc, func, function)?;
    first_part(&calls, func, function)
}
