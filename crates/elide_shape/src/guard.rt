//! How an elidable coroutine asks whether its frame is to be allocated.

ghost use Rattle.std.specs.Prelude.{◌≡◌, IfOk, MatchOption, None, Some, count_by, find, slice_get};
ghost use Rattle.std.specs.Prelude.{◌==◌, ◌∷◌};
ghost use Rattle.std.specs.Option.{option_copied};
ghost use Rattle.ir_calls.specs.Calls.{is_null as is_null_operand};
ghost use Rattle.rule_shape.specs.Uses.{phi_operands, uses_of};
ghost use Rattle.elide_shape.specs.Edges.{ways_in as ways_in_block};
ghost use Rattle.elide_shape.specs.Phis.{is_given};
ghost use Rattle.elide_shape.specs.Guard.{allocated_in as allocated_by, are_blocks as are_blocks_of, begins_with as begins_with_value, guards_at as guards_at_point, guards_by as guards_by_points, is_guard as is_guard_of, is_guard_to as is_guard_by, is_guarded as is_guarded_function, is_memory_phi as is_memory_phi_of, is_used_once as is_used_once_in, joins as joins_by, joins_value, takes_second, value_if_sized};
ghost use Rattle.ir_model.specs.Names.{is_local};
ghost use Rattle.ir_model.specs.declared.operand.Intrinsic.{Intrinsic as TheIntrinsic};
ghost use Rattle.ir_paths.specs.Windows.{is_call_of as is_call};

use crate::calls::{Dealing, is_sized, only_call, takes, value_at};
use crate::edges::ways_on;
use crate::facts::Facts;
use ir_base::{BlockId, ValueId};
use ir_calls::{CallOf, call_result, is_call_of, is_null, is_value};
use ir_model::{Block, Function, Incoming, Instr, Intrinsic, Operand, Phi};
use ir_paths::Point;
use rule_windows::points_where;
use std::alloc::{AllocError, Global};

/// How many of the operands are the value.
fn count_of(value: ValueId, incoming: &[Incoming]) -> usize
    ensures { result ≡ count_by (λ i. is_local value i.value) incoming.now }
{
    incoming
        .iter()
        .filter(|one| is_value(Some(value), &one.value))
        .count()
}

fn first_begin(instrs: &[Instr]) -> Option<&Instr>
    ensures { MatchOption result (find (is_call TheIntrinsic.CoroBegin) instrs.now ≡ None) (λ i. find (is_call TheIntrinsic.CoroBegin) instrs.now ≡ Some i.now) }
{
    for instr in instrs {
        if is_call_of(Intrinsic::CoroBegin, instr) {
            return Some(instr);
        }
    }
    None
}

fn takes_begin(value: ValueId, instrs: &[Instr]) -> bool
    ensures { result ≡ takes_second value (find (is_call TheIntrinsic.CoroBegin) instrs.now) }
{
    match first_begin(instrs) {
        None => false,
        Some(instr) => takes(value, instr, 1),
    }
}

fn is_null_given(operand: Option<&Operand>) -> bool
    ensures { result ≡ is_given is_null_operand (option_copied operand.entry) }
{
    match operand {
        None => false,
        Some(operand) => is_null(operand),
    }
}

fn is_value_given(value: ValueId, operand: Option<&Operand>) -> bool
    ensures { result ≡ is_given (is_local value) (option_copied operand.entry) }
{
    match operand {
        None => false,
        Some(operand) => is_value(Some(value), operand),
    }
}

impl Facts<'_> {
    fn value_if_sized(&self, instr: Option<&Instr>) -> Option<ValueId>
        ensures { result ≡ value_if_sized self.now.function.now (option_copied instr.entry) }
    {
        match instr {
            None => None,
            Some(instr) => {
                if is_sized(self.function, instr) {
                    call_result(instr)
                } else {
                    None
                }
            }
        }
    }

    /// The value of the one allocator call of a block that holds besides it only calls of coro.size and ends `br label` to the
    /// other.
    fn allocated_in(&self, begin: BlockId, block: &Block) -> Option<ValueId>
        ensures { result ≡ allocated_by self.now.function.now begin block.now }
    {
        if self.jumps_to(begin, &block.term) {
            self.value_if_sized(only_call(Dealing::Allocates, block))
        } else {
            None
        }
    }

    #[tactic(auto, using(crate::proofs::Counting::phi_count))]
    fn is_used_by(&self, value: ValueId, phi: &Phi) -> Result<bool, AllocError>
        ensures { IfOk result (λ b. b ≡ (uses_of self.now.function.now value == count_by (is_local value) (phi_operands phi.now))) }
    {
        Ok(self.uses_of(value)? == count_of(value, phi.incoming.as_slice()))
    }

    fn is_memory_phi(
        &self,
        a: BlockId,
        d: BlockId,
        memory: ValueId,
        phi: &Phi,
    ) -> Result<bool, AllocError>
        ensures { IfOk result (λ b. b ≡ is_memory_phi_of self.now.function.now a d memory phi.now) }
    {
        Ok(
            is_null_given(self.given(a, phi))
                && (is_value_given(memory, self.given(d, phi)) && self.is_used_by(memory, phi)?),
        )
    }

    fn begins_with(&self, value: ValueId, block: &Block) -> Result<bool, AllocError>
        ensures { IfOk result (λ b. b ≡ begins_with_value self.now.function.now value block.now) }
    {
        Ok(takes_begin(value, block.instrs.as_slice()) && self.uses_of(value)? == 1)
    }

    fn joins_at(
        &self,
        a: BlockId,
        d: BlockId,
        memory: ValueId,
        block: &Block,
        first: &Phi,
        rest: &[Phi],
    ) -> Result<bool, AllocError>
        ensures { IfOk result (λ b. b ≡ joins_by self.now.function.now a d memory block.now (first.now ∷ rest.now)) }
    {
        Ok(
            self.is_memory_phi(a, d, memory, first)?
                && (self.give_same(a, d, rest)? && self.begins_with(first.result, block)?),
        )
    }

    fn joins(
        &self,
        a: BlockId,
        d: BlockId,
        memory: ValueId,
        block: &Block,
    ) -> Result<bool, AllocError>
        ensures { IfOk result (λ b. b ≡ joins_by self.now.function.now a d memory block.now block.now.phis) }
    {
        match block.phis.as_slice() {
            [] => Ok(false),
            [first, rest @ ..] => self.joins_at(a, d, memory, block, first, rest),
        }
    }

    fn are_blocks(
        &self,
        a: BlockId,
        d: BlockId,
        b: BlockId,
        dynamic: Option<&Block>,
        begin: Option<&Block>,
    ) -> Result<bool, AllocError>
        ensures { IfOk result (λ is. is ≡ are_blocks_of self.now.function.now a d b (option_copied dynamic.entry) (option_copied begin.entry)) }
    {
        match (dynamic, begin) {
            (Some(x), Some(y)) => match self.allocated_in(b, x) {
                None => Ok(false),
                Some(memory) => self.joins(a, d, memory, y),
            },
            _ => Ok(false),
        }
    }

    fn is_guard(&self, a: BlockId, d: BlockId, b: BlockId) -> Result<bool, AllocError>
        ensures { IfOk result (λ is. is ≡ is_guard_of self.now.function.now a d b) }
    {
        let blocks = self.function.blocks.as_slice();
        Ok(
            self.edges_into(d)? == 1
                && (self.edges_into(b)? == 2
                    && self.are_blocks(a, d, b, blocks.get(d), blocks.get(b))?),
        )
    }

    fn is_used_once(&self, value: Option<ValueId>) -> Result<bool, AllocError>
        ensures { IfOk result (λ b. b ≡ is_used_once_in self.now.function.now value) }
    {
        match value {
            None => Ok(false),
            Some(value) => Ok(self.uses_of(value)? == 1),
        }
    }

    fn is_guard_to(&self, a: BlockId, ways: Option<(ValueId, ValueId)>) -> Result<bool, AllocError>
        ensures { IfOk result (λ b. b ≡ is_guard_by self.now.function.now a ways) }
    {
        match ways {
            None => Ok(false),
            Some(ways) => self.is_guard(a, self.position(ways.0), self.position(ways.1)),
        }
    }

    fn ways_in(&self, value: Option<ValueId>, block: BlockId) -> Option<(ValueId, ValueId)>
        ensures { result ≡ ways_in_block value (slice_get self.now.function.now.blocks block) }
    {
        match self.function.blocks.get(block) {
            None => None,
            Some(block) => ways_on(value, &block.term),
        }
    }

    fn guards_at(&self, point: Point) -> Result<bool, AllocError>
        ensures { IfOk result (λ b. b ≡ guards_at_point self.now.function.now point) }
    {
        let value = value_at(self.function, point);
        Ok(
            self.is_used_once(value)?
                && self.is_guard_to(point.block, self.ways_in(value, point.block))?,
        )
    }

    fn guards_by(&self, points: &[Point]) -> Result<bool, AllocError>
        ensures { IfOk result (λ b. b ≡ guards_by_points self.now.function.now points.now) }
    {
        match points {
            [point] => self.guards_at(*point),
            _ => Ok(false),
        }
    }

    /// Whether the coroutine has one coro.alloc, which guards the allocation of its frame ("Coroutines in LLVM",
    /// "llvm.coro.alloc").
    pub fn is_guarded(&self, alloc: Global) -> Result<bool, AllocError>
        ensures { IfOk result (λ b. b ≡ is_guarded_function self.now.function.now) }
    {
        let test = CallOf {
            intrinsic: Intrinsic::CoroAlloc,
        };
        let points = points_where(alloc, &test, self.function)?;
        self.guards_by(points.as_slice())
    }
}
