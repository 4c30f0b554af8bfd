//! Rules on the parts of functions.

ghost use Rattle.std.specs.Prelude.{◌≡◌, ◌+◌, ◌∷◌, [], ℕ, Bool, length, IfOk};
ghost use Rattle.ir_model.specs.ir_base.declared.outcome.Place.{Place as ThePlace};
ghost use Rattle.ir_parts.specs.Parts.{Part, Signature, Head, OfPhi, OfInstr, Ending, item_place as item_place_of, function_place as function_place_of, block_place as block_place_of, instr_place as instr_place_of, phi_parts, instr_parts, block_parts, blocks_parts, parts_of, first_part as first_part_of, first_in_blocks as first_in_blocks_of};

use ir_model::ir_base_library::{BlockId, FuncId, Item, Place};
use ir_model::{Block, Function, Instr, Phi, Terminator};
use std::alloc::AllocError;

/// A rule on functions: whether a part at a place breaks it.
pub trait FunctionRule: Sized {
    ghost breaks: { Self → ThePlace → Part → Bool };

    /// Whether the function's signature breaks the rule.
    fn breaks_signature(&self, place: Place, function: &Function) -> Result<bool, AllocError>
        ensures { IfOk result (λ b. b ≡ breaks self.now place (Signature function.now)) };

    /// Whether a block breaks the rule by itself, apart from what stands in it.
    fn breaks_block(&self, place: Place, block: &Block) -> Result<bool, AllocError>
        ensures { IfOk result (λ b. b ≡ breaks self.now place (Head block.now)) };

    /// Whether a phi breaks the rule.
    fn breaks_phi(&self, place: Place, phi: &Phi) -> Result<bool, AllocError>
        ensures { IfOk result (λ b. b ≡ breaks self.now place (OfPhi phi.now)) };

    /// Whether an instruction that is no phi and no terminator breaks the rule.
    fn breaks_instr(&self, place: Place, instr: &Instr) -> Result<bool, AllocError>
        ensures { IfOk result (λ b. b ≡ breaks self.now place (OfInstr instr.now)) };

    /// Whether a terminator breaks the rule.
    fn breaks_ending(&self, place: Place, term: &Terminator) -> Result<bool, AllocError>
        ensures { IfOk result (λ b. b ≡ breaks self.now place (Ending term.now)) };
}

/// The place of an item.
pub fn item_place(item: Item) -> Place
    ensures { result ≡ item_place_of item }
{
    Place {
        item,
        block: None,
        instr: None,
    }
}

/// The place of a function.
pub fn function_place(func: FuncId) -> Place
    ensures { result ≡ function_place_of func }
{
    item_place(Item::Function(func))
}

/// The place of a block.
pub fn block_place(func: FuncId, block: BlockId) -> Place
    ensures { result ≡ block_place_of func block }
{
    Place {
        item: Item::Function(func),
        block: Some(block),
        instr: None,
    }
}

/// The place of an instruction, counted with the phis before it.
pub fn instr_place(func: FuncId, block: BlockId, at: usize) -> Place
    ensures { result ≡ instr_place_of func block at }
{
    Place {
        item: Item::Function(func),
        block: Some(block),
        instr: Some(at),
    }
}

/// The position behind a position.
pub fn next(at: usize) -> Result<usize, AllocError>
    ensures { IfOk result (λ n. n ≡ at + 1) }
{
    match at.checked_add(1) {
        Some(next) => Ok(next),
        None => Err(AllocError),
    }
}

fn first_phi<R: FunctionRule>(
    rule: &R,
    func: FuncId,
    block: BlockId,
    phis: &[Phi],
) -> Result<Option<Place>, AllocError>
    ensures { IfOk result (λ p. p ≡ first_part_of (R.breaks rule.now) (phi_parts func block 0 phis.now)) }
{
    let mut at = 0;
    for phi in phis {
        let place = instr_place(func, block, at);
        if rule.breaks_phi(place, phi)? {
            return Ok(Some(place));
        }
        at = next(at)?;
    }
    Ok(None)
}

fn first_instr<R: FunctionRule>(
    rule: &R,
    func: FuncId,
    block: BlockId,
    first: usize,
    instrs: &[Instr],
) -> Result<Option<Place>, AllocError>
    ensures { IfOk result (λ p. p ≡ first_part_of (R.breaks rule.now) (instr_parts func block first instrs.now)) }
{
    let mut at = first;
    for instr in instrs {
        let place = instr_place(func, block, at);
        if rule.breaks_instr(place, instr)? {
            return Ok(Some(place));
        }
        at = next(at)?;
    }
    Ok(None)
}

fn behind(phis: usize, instrs: usize) -> Result<usize, AllocError>
    ensures { IfOk result (λ n. n ≡ phis + instrs) }
{
    match phis.checked_add(instrs) {
        Some(at) => Ok(at),
        None => Err(AllocError),
    }
}

fn first_ending<R: FunctionRule>(
    rule: &R,
    place: Place,
    term: &Terminator,
) -> Result<Option<Place>, AllocError>
    ensures { IfOk result (λ p. p ≡ first_part_of (R.breaks rule.now) ((place, Ending term.now) ∷ [])) }
{
    if rule.breaks_ending(place, term)? {
        Ok(Some(place))
    } else {
        Ok(None)
    }
}

#[tactic(auto, using(crate::proofs::FirstParts::first_part_append), unfolding(crate::specs::Parts::block_parts))]
fn first_in_block<R: FunctionRule>(
    rule: &R,
    func: FuncId,
    at: BlockId,
    block: &Block,
) -> Result<Option<Place>, AllocError>
    ensures { IfOk result (λ p. p ≡ first_part_of (R.breaks rule.now) (block_parts func at block.now)) }
{
    let head = block_place(func, at);
    if rule.breaks_block(head, block)? {
        return Ok(Some(head));
    }
    let phis = block.phis.as_slice();
    if let Some(place) = first_phi(rule, func, at, phis)? {
        return Ok(Some(place));
    }
    let instrs = block.instrs.as_slice();
    if let Some(place) = first_instr(rule, func, at, phis.len(), instrs)? {
        return Ok(Some(place));
    }
    let end = instr_place(func, at, behind(phis.len(), instrs.len())?);
    first_ending(rule, end, &block.term)
}

fn first_in_blocks<R: FunctionRule>(
    rule: &R,
    func: FuncId,
    blocks: &[Block],
) -> Result<Option<Place>, AllocError>
    ensures { IfOk result (λ p. p ≡ first_in_blocks_of (R.breaks rule.now) func 0 blocks.now) }
{
    let mut at = 0;
    for block in blocks {
        if let Some(place) = first_in_block(rule, func, at, block)? {
            return Ok(Some(place));
        }
        at = next(at)?;
    }
    Ok(None)
}

/// The place of the function's first part, in order of the text, that breaks the rule.
#[tactic(auto, using(crate::proofs::FirstParts::first_in_blocks_is))]
pub fn first_part<R: FunctionRule>(
    rule: &R,
    func: FuncId,
    function: &Function,
) -> Result<Option<Place>, AllocError>
    ensures { IfOk result (λ p. p ≡ first_part_of (R.breaks rule.now) (parts_of func function.now)) }
{
    let place = function_place(func);
    if rule.breaks_signature(place, function)? {
        return Ok(Some(place));
    }
    first_in_blocks(rule, func, function.blocks.as_slice())
}
