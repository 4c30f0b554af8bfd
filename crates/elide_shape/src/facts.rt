//! What is found of a coroutine once: where its labels stand, how often its locals are used, the edges into its blocks, and
//! which of its values are the frame's address.

ghost use Rattle.std.specs.Prelude.{◌≡◌, ◌==◌, ◌+◌, ℕ, IfOk, MatchOption, None, Some, length, map, replicate, slice_get, count_by, find};
ghost use Rattle.std.specs.List.{list_all};
ghost use Rattle.std.specs.Option.{option_copied};
ghost use Rattle.rule_shape.specs.Uses.{counted_all, operands_of, phi_operands, uses_of};
ghost use Rattle.rule_phis.specs.Operands.{same_operand};
ghost use Rattle.elide_shape.specs.Edges.{edges_into, edges_of as edges_of_function, jumps_to as jumps_to_block};
ghost use Rattle.elide_shape.specs.Frames.{all_from, frame_value, is_frame as is_frame_of, returns_frame as returns_frame_of, rets_give_frame};
ghost use Rattle.elide_shape.specs.Phis.{given as given_by, same_given, same_value, gives_same as gives_same_by};
ghost use Rattle.ir_model.specs.Names.{is_local, position_of};
ghost use Rattle.ir_model.specs.declared.operand.Operand.{Operand as TheOperand};
ghost use Rattle.run_step.specs.Tables.{HasPositions};

use crate::edges::{Edge, edges_of, entries_of, jumps_to};
use crate::frames::{FrameValues, counts_of};
use ir_base::{BlockId, Data, Items, ValueId};
use ir_calls::is_value;
use ir_model::{Function, Incoming, Operand, Phi, Terminator};
use ir_parts::next;
use rule_shape::{Uses, uses_in};
use run_step::{position, positions_of};
use std::alloc::{AllocError, Global};

/// What is found of a coroutine once.
#[derive(Drop)]
pub struct Facts<'a> {
    pub function: &'a Function,
    labels: Items<BlockId>,
    uses: Uses,
    entries: Uses,
    frames: Uses,
    ghost labels_are: { HasPositions function.now labels },
    ghost uses_are: { uses ≡ counted_all (replicate (length function.now.names) 0) (operands_of function.now) },
    ghost entries_are: { entries ≡ counted_all (replicate (length function.now.blocks + 1) 0) (map (λ e. TheOperand.Local e.to) (edges_of_function function.now)) },
    ghost frames_are: { frames ≡ counted_all (replicate (length function.now.names) 0) (all_from frame_value function.now.blocks) },
}

/// What is found of a coroutine once, by the table of its labels and its edges.
pub fn facts_of<'a>(
    alloc: Global,
    function: &'a Function,
    labels: Items<BlockId>,
    edges: &[Edge],
) -> Result<Facts<'a>, AllocError>
    requires labels { HasPositions function.now labels }
    requires edges { edges.now ≡ edges_of_function function.now }
    ensures { IfOk result (λ facts. facts.function.now ≡ function.now) }
{
    let nodes = next(function.blocks.len())?;
    let uses = uses_in(alloc, function)?;
    let entries = entries_of(alloc, nodes, edges)?;
    let frames = counts_of(alloc, &FrameValues, function)?;
    Ok(Facts {
        function,
        labels,
        uses,
        entries,
        frames,
    })
}

fn is_same_operand(a: &Operand, b: &Operand) -> bool
    ensures { result ≡ same_operand a.now b.now }
{
    a.is_same(b)
}

impl Facts<'_> {
    /// The position of the block of a label.
    pub fn position(&self, label: ValueId) -> BlockId
        ensures { result ≡ position_of self.now.function.now label }
    {
        position(self.function, &self.labels, label)
    }

    /// Whether the terminator is `br label` to the block at a position.
    pub fn jumps_to(&self, block: BlockId, term: &Terminator) -> bool
        ensures { result ≡ jumps_to_block self.now.function.now block term.now }
    {
        jumps_to(self.function, &self.labels, block, term)
    }

    /// How often a value is used.
    #[tactic(auto, using(rule_shape::proofs::Counts::count_of))]
    pub fn uses_of(&self, value: ValueId) -> Result<usize, AllocError>
        ensures { IfOk result (λ n. n ≡ uses_of self.now.function.now value) }
    {
        self.uses.of(value)
    }

    /// How many edges lead to a block.
    #[tactic(auto, using(crate::proofs::Counting::entries_are))]
    pub fn edges_into(&self, block: BlockId) -> Result<usize, AllocError>
        ensures { IfOk result (λ n. n ≡ edges_into self.now.function.now block) }
    {
        self.entries.of(block)
    }

    /// Whether a value is begin's or a coro.frame's.
    #[tactic(auto, using(crate::proofs::Counting::frames_are))]
    fn is_frame_value(&self, value: ValueId) -> Result<bool, AllocError>
        ensures { IfOk result (λ b. b ≡ is_frame_of self.now.function.now (TheOperand.Local value)) }
    {
        Ok(self.frames.of(value)? != 0)
    }

    fn is_frame(&self, operand: &Operand) -> Result<bool, AllocError>
        ensures { IfOk result (λ b. b ≡ is_frame_of self.now.function.now operand.now) }
    {
        match operand {
            Operand::Local(value) => self.is_frame_value(*value),
            _ => Ok(false),
        }
    }

    fn returns_frame(&self, term: &Terminator) -> Result<bool, AllocError>
        ensures { IfOk result (λ b. b ≡ returns_frame_of self.now.function.now term.now) }
    {
        match term {
            Terminator::Ret(None) => Ok(false),
            Terminator::Ret(Some(arg)) => self.is_frame(&arg.value),
            _ => Ok(true),
        }
    }

    /// Whether each ret gives begin's value or a coro.frame's.
    pub fn rets_give_frame(&self) -> Result<bool, AllocError>
        ensures { IfOk result (λ b. b ≡ rets_give_frame self.now.function.now) }
    {
        for block in self.function.blocks.as_slice() {
            if !self.returns_frame(&block.term)? {
                return Ok(false);
            }
        }
        Ok(true)
    }

    fn incoming_from<'b>(&self, block: BlockId, incoming: &'b [Incoming]) -> Option<&'b Incoming>
        ensures { MatchOption result (find (λ i. position_of self.now.function.now i.from == block) incoming.now ≡ None) (λ x. find (λ i. position_of self.now.function.now i.from == block) incoming.now ≡ Some x.now) }
    {
        for one in incoming {
            if self.position(one.from) == block {
                return Some(one);
            }
        }
        None
    }

    /// What a phi gives where its block is entered from the block at a position.
    pub fn given<'b>(&self, block: BlockId, phi: &'b Phi) -> Option<&'b Operand>
        ensures { option_copied result ≡ given_by self.now.function.now block phi.now }
    {
        match self.incoming_from(block, phi.incoming.as_slice()) {
            None => None,
            Some(one) => Some(&one.value),
        }
    }

    /// Whether the operands are the same, or each is begin's value or a coro.frame's.
    fn is_same_value(&self, a: &Operand, b: &Operand) -> Result<bool, AllocError>
        ensures { IfOk result (λ same. same ≡ same_value self.now.function.now a.now b.now) }
    {
        Ok(is_same_operand(a, b) || (self.is_frame(a)? && self.is_frame(b)?))
    }

    fn is_same_given(&self, a: Option<&Operand>, b: Option<&Operand>) -> Result<bool, AllocError>
        ensures { IfOk result (λ same. same ≡ same_given self.now.function.now (option_copied a.entry) (option_copied b.entry)) }
    {
        match (a, b) {
            (Some(x), Some(y)) => self.is_same_value(x, y),
            _ => Ok(false),
        }
    }

    fn gives_same(&self, a: BlockId, d: BlockId, phi: &Phi) -> Result<bool, AllocError>
        ensures { IfOk result (λ same. same ≡ gives_same_by self.now.function.now a d phi.now) }
    {
        self.is_same_given(self.given(a, phi), self.given(d, phi))
    }

    /// Whether the phis have equal operands from both blocks, where begin's value and a coro.frame's are one value.
    pub fn give_same(&self, a: BlockId, d: BlockId, phis: &[Phi]) -> Result<bool, AllocError>
        ensures { IfOk result (λ same. same ≡ list_all (gives_same_by self.now.function.now a d) phis.now) }
    {
        for phi in phis {
            if !self.gives_same(a, d, phi)? {
                return Ok(false);
            }
        }
        Ok(true)
    }
}
