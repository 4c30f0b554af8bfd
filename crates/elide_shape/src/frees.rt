//! What stands right after a coro.free.

ghost use Rattle.std.specs.Prelude.{◌≡◌, IfOk, Some, slice_get};
ghost use Rattle.std.specs.List.{list_all};
ghost use Rattle.std.specs.Option.{option_copied};
ghost use Rattle.elide_shape.specs.Frees.{are_released as are_all_released, are_sides as are_sides_of, are_sides_at as are_sides_by, is_null_test as is_null_test_of, is_release_block as is_release_block_of, is_released as is_released_at, is_released_by as is_released_from, is_released_in as is_released_in_block, is_released_next as is_released_at_once, is_tested_next as is_tested_at_once, not_null_first as not_null_first_of, releases as releases_value, sides_if as sides_where, sides_of as sides_of_test, turned as turned_ways};
ghost use Rattle.elide_shape.specs.Phis.{gives_same, phis_of};

use crate::calls::{Dealing, deals_with, only_call, takes, value_at};
use crate::edges::ways_on;
use crate::facts::Facts;
use ir_base::{BlockId, Pred, ValueId};
use ir_calls::{CallOf, is_null, is_value};
use ir_model::{Block, Instr, Intrinsic, Operand, Terminator};
use ir_parts::next;
use ir_paths::Point;
use rule_windows::points_where;
use std::alloc::{AllocError, Global};

/// Whether the instruction is a deallocator call of the value.
fn releases(value: ValueId, instr: Option<&Instr>) -> bool
    ensures { result ≡ releases_value value (option_copied instr.entry) }
{
    match instr {
        None => false,
        Some(instr) => deals_with(Dealing::Frees, instr) && takes(value, instr, 0),
    }
}

fn is_null_test(value: ValueId, left: &Operand, right: &Operand) -> bool
    ensures { result ≡ is_null_test_of value left.now right.now }
{
    (is_value(Some(value), left) && is_null(right))
        || (is_null(left) && is_value(Some(value), right))
}

/// Of the two ways of a test with null first the one where the value isn't null.
fn not_null_first(pred: Pred, ways: Option<(ValueId, ValueId)>) -> Option<(ValueId, ValueId)>
    ensures { result ≡ not_null_first_of pred ways }
{
    match pred {
        Pred::Ne => ways,
        Pred::Eq => match ways {
            None => None,
            Some((yes, no)) => Some((no, yes)),
        },
        _ => None,
    }
}

impl Facts<'_> {
    fn sides_if(
        &self,
        test: ValueId,
        pred: Pred,
        is_test: bool,
        term: &Terminator,
    ) -> Result<Option<(ValueId, ValueId)>, AllocError>
        ensures { IfOk result (λ ways. ways ≡ sides_where self.now.function.now test pred is_test term.now) }
    {
        if is_test && self.uses_of(test)? == 1 {
            Ok(not_null_first(pred, ways_on(Some(test), term)))
        } else {
            Ok(None)
        }
    }

    /// Where the branch leads on a test of the value with null: first where it isn't null.
    fn sides_of(
        &self,
        value: ValueId,
        instr: Option<&Instr>,
        term: &Terminator,
    ) -> Result<Option<(ValueId, ValueId)>, AllocError>
        ensures { IfOk result (λ ways. ways ≡ sides_of_test self.now.function.now value (option_copied instr.entry) term.now) }
    {
        match instr {
            Some(
                Instr::Icmp {
                    result: test,
                    pred,
                    ty: _,
                    left,
                    right,
                },
            ) => self.sides_if(*test, *pred, is_null_test(value, left, right), term),
            _ => Ok(None),
        }
    }

    fn is_release_block(&self, value: ValueId, null_side: BlockId, block: Option<&Block>) -> bool
        ensures { result ≡ is_release_block_of self.now.function.now value null_side (option_copied block.entry) }
    {
        match block {
            None => false,
            Some(block) => {
                self.jumps_to(null_side, &block.term)
                    && releases(value, only_call(Dealing::Frees, block))
            }
        }
    }

    fn phis_give_same(
        &self,
        from: BlockId,
        side: BlockId,
        block: Option<&Block>,
    ) -> Result<bool, AllocError>
        ensures { IfOk result (λ same. same ≡ list_all (gives_same self.now.function.now from side) (phis_of (option_copied block.entry))) }
    {
        match block {
            None => Ok(true),
            Some(block) => self.give_same(from, side, block.phis.as_slice()),
        }
    }

    fn are_sides(
        &self,
        from: BlockId,
        value: ValueId,
        side: BlockId,
        null_side: BlockId,
    ) -> Result<bool, AllocError>
        ensures { IfOk result (λ b. b ≡ are_sides_of self.now.function.now from value side null_side) }
    {
        let blocks = self.function.blocks.as_slice();
        Ok(
            self.edges_into(side)? == 1
                && (self.is_release_block(value, null_side, blocks.get(side))
                    && self.phis_give_same(from, side, blocks.get(null_side))?),
        )
    }

    fn are_sides_at(
        &self,
        from: BlockId,
        value: ValueId,
        ways: Option<(ValueId, ValueId)>,
    ) -> Result<bool, AllocError>
        ensures { IfOk result (λ b. b ≡ are_sides_by self.now.function.now from value ways) }
    {
        match ways {
            None => Ok(false),
            Some((side, null_side)) => {
                self.are_sides(from, value, self.position(side), self.position(null_side))
            }
        }
    }

    fn is_released_next(&self, value: ValueId, instr: Option<&Instr>) -> Result<bool, AllocError>
        ensures { IfOk result (λ b. b ≡ is_released_at_once self.now.function.now value (option_copied instr.entry)) }
    {
        Ok(releases(value, instr) && self.uses_of(value)? == 1)
    }

    fn is_tested_next(
        &self,
        from: BlockId,
        value: ValueId,
        block: &Block,
        at: usize,
    ) -> Result<bool, AllocError>
        ensures { IfOk result (λ b. b ≡ is_tested_at_once self.now.function.now from value block.now at) }
    {
        if self.uses_of(value)? != 2 || next(at)? != block.instrs.len() {
            return Ok(false);
        }
        let ways = self.sides_of(value, block.instrs.get(at), &block.term)?;
        self.are_sides_at(from, value, ways)
    }

    fn is_released_in(
        &self,
        from: BlockId,
        value: ValueId,
        block: Option<&Block>,
        at: usize,
    ) -> Result<bool, AllocError>
        ensures { IfOk result (λ b. b ≡ is_released_in_block self.now.function.now from value (option_copied block.entry) at) }
    {
        match block {
            None => Ok(false),
            Some(block) => Ok(
                self.is_released_next(value, block.instrs.get(at))?
                    || self.is_tested_next(from, value, block, at)?,
            ),
        }
    }

    /// Whether the value of the coro.free at a point is handed to a deallocator right after it.
    fn is_released(&self, point: Point) -> Result<bool, AllocError>
        ensures { IfOk result (λ b. b ≡ is_released_at self.now.function.now point) }
    {
        match value_at(self.function, point) {
            None => Ok(false),
            Some(value) => {
                let block = self.function.blocks.get(point.block);
                self.is_released_in(point.block, value, block, next(point.at)?)
            }
        }
    }

    fn are_released_at(&self, points: &[Point]) -> Result<bool, AllocError>
        ensures { IfOk result (λ b. b ≡ list_all (is_released_at self.now.function.now) points.now) }
    {
        for point in points {
            if !self.is_released(*point)? {
                return Ok(false);
            }
        }
        Ok(true)
    }

    /// Whether the value of each coro.free is handed to a deallocator right after it ("Coroutines in LLVM", "llvm.coro.free").
    pub fn are_released(&self, alloc: Global) -> Result<bool, AllocError>
        ensures { IfOk result (λ b. b ≡ are_all_released self.now.function.now) }
    {
        let test = CallOf {
            intrinsic: Intrinsic::CoroFree,
        };
        let points = points_where(alloc, &test, self.function)?;
        self.are_released_at(points.as_slice())
    }
}
