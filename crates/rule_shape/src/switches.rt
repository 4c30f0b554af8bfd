//! The switch of a suspend (rule K3).

ghost use Rattle.std.specs.Prelude.{◌≡◌, ◌+◌, IfOk, MatchOption, None, Some, length, replicate, nat_le, option_and_then, slice_get};
ghost use Rattle.std.specs.List.{list_any};
ghost use Rattle.ir_model.specs.declared.operand.Intrinsic.{Intrinsic as TheIntrinsic};
ghost use Rattle.rule_windows.specs.ir_paths.Windows.{is_call_of as is_call, end_block as end_block_of};
ghost use Rattle.rule_shape.specs.Uses.{counted_all, operands_of, uses_of};
ghost use Rattle.rule_shape.specs.Switches.{end_label, end_from, are_both, is_switch_on, is_last, is_switched_in, is_switched, breaks_switch, wrong_switch};

use crate::places::is_the;
use crate::uses::{Uses, uses_in};
use ir_base::{BlockId, FuncId, Place, ValueId};
use ir_model::{Block, Case, Function, Instr, Intrinsic, Phi, Terminator};
use rule_windows::ir_calls_library::{call_result, is_call_of, is_number, is_value};
use rule_windows::ir_parts_library::{FunctionRule, first_part};
use std::alloc::{AllocError, Global};

/// The uses of a function's locals and the label of its end's block, by which the switches of its suspends are looked at.
#[derive(Drop)]
struct Switches<'a> {
    function: &'a Function,
    end: Option<ValueId>,
    uses: Uses,
    ghost end_is: { end ≡ end_label function.now },
    ghost uses_are: { uses ≡ counted_all (replicate (length function.now.names) 0) (operands_of function.now) },
}

fn has_end(instrs: &[Instr]) -> bool
    ensures { result ≡ list_any (is_call TheIntrinsic.CoroEnd) instrs.now }
{
    for instr in instrs {
        if is_call_of(Intrinsic::CoroEnd, instr) {
            return true;
        }
    }
    false
}

#[tactic(auto, using(crate::proofs::Ends::end_from_is))]
fn end_in(blocks: &[Block]) -> BlockId
    ensures { result ≡ end_from blocks.now }
{
    for (at, block) in blocks.iter().enumerate() {
        if has_end(block.instrs.as_slice()) {
            return at;
        }
    }
    blocks.len()
}

/// The position of the end's block, or that behind the last block where there is no end.
#[tactic(auto, using(crate::proofs::Ends::end_from_is))]
pub fn end_block(function: &Function) -> BlockId
    ensures { result ≡ end_block_of function.now }
{
    end_in(function.blocks.as_slice())
}

fn end_label(function: &Function) -> Option<ValueId>
    ensures { result ≡ end_label function.now }
{
    match function.blocks.get(end_block(function)) {
        None => None,
        Some(block) => Some(block.label),
    }
}

fn are_both(cases: &[Case]) -> bool
    ensures { result ≡ are_both cases.now }
{
    match cases {
        [a, b] => {
            (is_number(0, &a.arg.value) && is_number(1, &b.arg.value))
                || (is_number(1, &a.arg.value) && is_number(0, &b.arg.value))
        }
        _ => false,
    }
}

fn is_switch_on(value: ValueId, end: Option<ValueId>, term: &Terminator) -> bool
    ensures { result ≡ is_switch_on value end term.now }
{
    match term {
        Terminator::Switch {
            arg,
            default,
            cases,
        } => {
            is_value(Some(value), &arg.value)
                && (are_both(cases.as_slice()) && is_the(end, *default))
        }
        _ => false,
    }
}

fn is_last(block: &Block, at: Option<usize>) -> Result<bool, AllocError>
    ensures { IfOk result (λ b. b ≡ is_last block.now at) }
{
    match at {
        None => Ok(false),
        Some(at) => {
            let behind = sum(block.phis.len(), block.instrs.len())?;
            Ok(sum(at, 1)? == behind)
        }
    }
}

fn sum(a: usize, b: usize) -> Result<usize, AllocError>
    ensures { IfOk result (λ n. n ≡ a + b) }
{
    match a.checked_add(b) {
        None => Err(AllocError),
        Some(sum) => Ok(sum),
    }
}

fn block_at(function: &Function, block: Option<BlockId>) -> Option<&Block>
    ensures { MatchOption result (option_and_then (slice_get function.now.blocks) block ≡ None) (λ b. option_and_then (slice_get function.now.blocks) block ≡ Some b.now) }
{
    match block {
        None => None,
        Some(at) => function.blocks.get(at),
    }
}

impl Switches<'_> {
    #[tactic(auto, using(crate::proofs::Counts::count_of))]
    fn is_used_once(&self, value: ValueId) -> Result<bool, AllocError>
        ensures { IfOk result (λ b. b ≡ nat_le (uses_of self.now.function.now value) 1) }
    {
        Ok(self.uses.of(value)? <= 1)
    }

    fn is_switched_in(
        &self,
        value: ValueId,
        place: Place,
        block: &Block,
    ) -> Result<bool, AllocError>
        ensures { IfOk result (λ b. b ≡ is_switched_in self.now.function.now value place (Some block.now)) }
    {
        if !is_last(block, place.instr)? {
            return Ok(false);
        }
        Ok(is_switch_on(value, self.end, &block.term) && self.is_used_once(value)?)
    }

    fn is_switched(&self, place: Place, value: Option<ValueId>) -> Result<bool, AllocError>
        ensures { IfOk result (λ b. b ≡ is_switched self.now.function.now place value) }
    {
        match value {
            None => Ok(false),
            Some(value) => match block_at(self.function, place.block) {
                None => Ok(false),
                Some(block) => self.is_switched_in(value, place, block),
            },
        }
    }
}

impl FunctionRule for Switches<'_> {
    ghost breaks = { λ s. breaks_switch s.function.now };

    fn breaks_signature(&self, _place: Place, _function: &Function) -> Result<bool, AllocError> {
        Ok(false)
    }

    fn breaks_block(&self, _place: Place, _block: &Block) -> Result<bool, AllocError> {
        Ok(false)
    }

    fn breaks_phi(&self, _place: Place, _phi: &Phi) -> Result<bool, AllocError> {
        Ok(false)
    }

    fn breaks_instr(&self, place: Place, instr: &Instr) -> Result<bool, AllocError> {
        Ok(
            is_call_of(Intrinsic::CoroSuspend, instr)
                && !self.is_switched(place, call_result(instr))?,
        )
    }

    fn breaks_ending(&self, _place: Place, _term: &Terminator) -> Result<bool, AllocError> {
        Ok(false)
    }
}

/// The first suspend that breaks rule K3: it isn't followed at once by a switch on it with exactly 0 and 1, its result is used
/// elsewhere, or the switch's default isn't the end's block.
pub fn first_wrong_switch(
    alloc: Global,
    func: FuncId,
    function: &Function,
) -> Result<Option<Place>, AllocError>
    ensures { IfOk result (λ p. p ≡ wrong_switch func function.now) }
{
    if !function.coroutine {
        return Ok(None);
    }
    let switches = Switches {
        function,
        end: end_label(function),
        uses: uses_in(alloc, function)?,
    };
    let place = first_part(&switches, func, function)?;
    Ok(place)
}
