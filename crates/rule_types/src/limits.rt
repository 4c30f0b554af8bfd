//! The limits of a module.

ghost use Rattle.std.specs.Prelude.{◌≡◌, ◌++◌, ◌+◌, ◌||◌, IfOk, length, option_to_list, not};
ghost use Rattle.ir_parts.specs.Locals.{locals_of as locals_of_function};
ghost use Rattle.rule_types.specs.Limits.{is_past, same_number, same_spot, is_spot, nth_value, value_past, is_block_past, all_fit, breaks_limits, first_past, limits};
ghost use Rattle.rule_names.specs.Items.{first_place as first_place_of};

use crate::depth::Depths;
use ir_base::{BlockId, FuncId, Place};
use ir_model::{Block, Declaration, Function, GlobalItem, Instr, Phi, Terminator, TypeItem};
use ir_parts::{
    Definition, FunctionRule, TypeTest, ending_types_pass, first_part, function_place,
    instr_types_pass, locals_of, signature_types_pass, types_pass,
};
use ir_tables::Names;
use rule_names::{ModuleRule, Stage, first_place, is_source};
use std::alloc::{AllocError, Global};

/// How many functions a source has at most, declared and defined, and how many globals.
const MOST_ITEMS: usize = 65535;

/// How many blocks a function of a source has at most.
const MOST_BLOCKS: usize = 1048575;

/// How many values a function of a source has at most: parameters and results.
const MOST_VALUES: usize = 1048576;

/// More functions, globals, blocks or values than a source may have, and types that are deeper than 64 (rule L1).
#[derive(Drop)]
pub struct Limits<'a> {
    pub alloc: Global,
    pub stage: Stage,
    pub depths: Depths<'a>,
}

/// The limits of one function, with the place of its first value too many.
#[derive(Drop)]
struct FunctionLimits<'a> {
    limits: &'a Limits<'a>,
    past: Option<Place>,
}

fn is_past(stage: Stage, most: usize, at: usize) -> bool
    ensures { result ≡ is_past stage most at }
{
    is_source(stage) && most <= at
}

fn same_number(a: Option<usize>, b: Option<usize>) -> bool
    ensures { result ≡ same_number a b }
{
    match (a, b) {
        (None, None) => true,
        (Some(a), Some(b)) => a == b,
        _ => false,
    }
}

fn is_spot(spot: Option<Place>, place: Place) -> bool
    ensures { result ≡ is_spot spot place }
{
    match spot {
        None => false,
        Some(spot) => same_number(spot.block, place.block) && same_number(spot.instr, place.instr),
    }
}

fn is_block_past(stage: Stage, block: Option<BlockId>) -> bool
    ensures { result ≡ is_block_past stage block }
{
    match block {
        None => false,
        Some(block) => is_past(stage, MOST_BLOCKS, block),
    }
}

fn nth_value(most: usize, definitions: &[Definition]) -> Option<Place>
    ensures { result ≡ nth_value most definitions.now }
{
    let mut left = most;
    for definition in definitions {
        if !definition.is_label {
            if left == 0 {
                return Some(definition.place);
            }
            left -= 1;
        }
    }
    None
}

fn value_past(
    alloc: Global,
    stage: Stage,
    most: usize,
    func: FuncId,
    function: &Function,
) -> Result<Option<Place>, AllocError>
    ensures { IfOk result (λ p. p ≡ value_past stage most func function.now) }
{
    if !is_source(stage) {
        return Ok(None);
    }
    let locals = locals_of(alloc, func, function)?;
    Ok(nth_value(most, locals.as_slice()))
}

impl FunctionLimits<'_> {
    fn is_beyond(&self, place: Place) -> bool
        ensures { result ≡ (is_spot self.now.past place || is_block_past self.now.limits.now.stage place.block) }
    {
        is_spot(self.past, place) || is_block_past(self.limits.stage, place.block)
    }
}

impl FunctionRule for FunctionLimits<'_> {
    ghost breaks = { λ f. breaks_limits f.limits.now.stage f.limits.now.depths.names.now.source.now f.past };

    fn breaks_signature(&self, place: Place, function: &Function) -> Result<bool, AllocError> {
        Ok(self.is_beyond(place) || !signature_types_pass(&self.limits.depths, function))
    }

    fn breaks_block(&self, place: Place, _block: &Block) -> Result<bool, AllocError> {
        Ok(self.is_beyond(place))
    }

    fn breaks_phi(&self, place: Place, phi: &Phi) -> Result<bool, AllocError> {
        Ok(self.is_beyond(place) || !self.limits.depths.passes(&phi.ty))
    }

    fn breaks_instr(&self, place: Place, instr: &Instr) -> Result<bool, AllocError> {
        Ok(self.is_beyond(place) || !instr_types_pass(&self.limits.depths, instr))
    }

    fn breaks_ending(&self, place: Place, term: &Terminator) -> Result<bool, AllocError> {
        Ok(self.is_beyond(place) || !ending_types_pass(&self.limits.depths, term))
    }
}

impl Limits<'_> {
    fn is_function_past(&self, func: FuncId) -> Result<bool, AllocError>
        ensures { IfOk result (λ b. b ≡ is_past self.now.stage 65535 (length self.now.depths.names.now.source.now.declarations + func)) }
    {
        match self
            .depths
            .names
            .source
            .declarations
            .len()
            .checked_add(func)
        {
            None => Err(AllocError),
            Some(at) => Ok(is_past(self.stage, MOST_ITEMS, at)),
        }
    }
}

impl ModuleRule for Limits<'_> {
    ghost says = { λ l. limits l.stage l.depths.names.now.source.now };

    fn breaks_type(&self, _at: usize, item: &TypeItem) -> Result<bool, AllocError> {
        Ok(!self.depths.passes(&item.ty))
    }

    fn breaks_global(&self, at: usize, item: &GlobalItem) -> Result<bool, AllocError> {
        Ok(is_past(self.stage, MOST_ITEMS, at) || !self.depths.passes(&item.ty))
    }

    fn breaks_declaration(&self, at: usize, item: &Declaration) -> Result<bool, AllocError> {
        let types = item.params.as_slice();
        Ok(is_past(self.stage, MOST_ITEMS, at) || !types_pass(&self.depths, &item.result, types))
    }

    fn first_in(&self, func: FuncId, function: &Function) -> Result<Option<Place>, AllocError> {
        if self.is_function_past(func)? {
            return Ok(Some(function_place(func)));
        }
        let past = value_past(self.alloc, self.stage, MOST_VALUES, func, function)?;
        first_part(&FunctionLimits { limits: self, past }, func, function)
    }
}

/// The first place at which a limit is broken (rule L1).
pub fn first_past_limit(
    alloc: Global,
    stage: Stage,
    names: &Names<'_>,
) -> Result<Option<Place>, AllocError>
    ensures { IfOk result (λ p. p ≡ first_place_of (limits stage names.now.source.now) names.now.source.now) }
{
    let depths = Depths::new(alloc, names)?;
    let rule = Limits {
        alloc,
        stage,
        depths,
    };
    first_place(&rule, names.source)
}
