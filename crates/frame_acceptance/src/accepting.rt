//! Looking at a module for all rules.

ghost use Rattle.std.specs.Prelude.{◌≡◌, IfOk, Some, None};
ghost use Rattle.frame_acceptance.specs.Acceptance.{AreAllFine, ComesBefore, ComesFor, ComesOf, IsAcceptance, IsRefusedFor};
ghost use Rattle.frame_acceptance.specs.Order.{looked_at as looked_at_before};

use crate::order::{looked_at, too_large};
use frame_bounds::are_small;
use frame_bounds::frame_contents_library::{LayoutsError, layouts_of};
use frame_layout::Layouts;
use ir_model::Module;
use rule_all::{Refusal, Stage, first_refusal};
use std::alloc::{AllocError, Global};

/// What becomes of a module that is looked at for all rules.
#[derive(Drop)]
pub enum Acceptance {
    /// It breaks a rule: the first one, and its first place.
    Refused(Refusal),
    /// It breaks none: the layouts of its coroutines' frames.
    Accepted(Layouts),
}

impl Acceptance {
    ghost use Rattle.frame_acceptance.specs.Acceptance.{refusal_of};

    /// The first broken rule with its place, where one is broken.
    pub fn refusal(&self) -> Option<Refusal>
        ensures { result ≡ refusal_of self.now }
    {
        match self {
            Acceptance::Refused(refusal) => Some(*refusal),
            Acceptance::Accepted(_) => None,
        }
    }
}

/// The refusal of a module where another rule is broken than K12, and some functions are looked at before.
#[tactic(auto, using(crate::proofs::Told::large_before, crate::proofs::Told::large_later, crate::proofs::Told::none_large))]
fn with_large(
    alloc: Global,
    source: &Module,
    refusal: Refusal,
    count: usize,
) -> Result<Refusal, AllocError>
    requires { count ≡ looked_at_before refusal }
    ensures { IfOk result (ComesBefore source.now refusal) }
{
    let func = match layouts_of(alloc, source, false) {
        Ok(_) => return Ok(refusal),
        Err(LayoutsError::OutOfMemory) => return Err(AllocError),
        Err(LayoutsError::TooLarge(func)) => func,
    };
    if func < count {
        return Ok(too_large(func));
    }
    Ok(refusal)
}

/// The refusal of a module where another rule is broken than K12.
#[tactic(auto, using(crate::proofs::Told::none_before, crate::proofs::Told::small_before))]
fn refused_by(alloc: Global, source: &Module, refusal: Refusal) -> Result<Refusal, AllocError>
    ensures { IfOk result (ComesBefore source.now refusal) }
{
    let count = looked_at(refusal)?;
    if count == 0 {
        return Ok(refusal);
    }
    if are_small(alloc, source)? {
        return Ok(refusal);
    }
    with_large(alloc, source, refusal, count)
}

/// What comes of a module where no other rule is broken than K12.
#[tactic(auto, using(crate::proofs::Told::large_alone))]
fn laid_out(alloc: Global, source: &Module, share: bool) -> Result<Acceptance, AllocError>
    ensures { IfOk result (ComesOf source.now share None) }
{
    match layouts_of(alloc, source, share) {
        Ok(layouts) => Ok(Acceptance::Accepted(layouts)),
        Err(LayoutsError::TooLarge(func)) => Ok(Acceptance::Refused(too_large(func))),
        Err(LayoutsError::OutOfMemory) => Err(AllocError),
    }
}

/// What comes of a module whose first broken rule, but for K12, is told.
fn with_frames(
    alloc: Global,
    source: &Module,
    share: bool,
    refusal: Option<Refusal>,
) -> Result<Acceptance, AllocError>
    ensures { IfOk result (ComesOf source.now share refusal) }
{
    match refusal {
        Some(refusal) => {
            let told = refused_by(alloc, source, refusal)?;
            Ok(Acceptance::Refused(told))
        }
        None => laid_out(alloc, source, share),
    }
}

/// Looks at a source for all rules. It is refused for the first broken rule in the one order of refusals, at its first place;
/// K12, the greatest size of a frame, comes between the other rules of a function and its rule on markers (K13), behind all
/// rules of the whole module and of globals. A module that breaks no rule is accepted, with the layouts of its frames: plain
/// ones, or those that share bytes.
#[tactic(auto, using(crate::proofs::Told::accepted_by))]
pub fn accept(alloc: Global, source: &Module, share: bool) -> Result<Acceptance, AllocError>
    ensures { IfOk result (IsAcceptance source.now share) }
{
    let refusal = first_refusal(alloc, Stage::Source, source)?;
    with_frames(alloc, source, share, refusal)
}

/// The refusal by K12 where no other rule is broken.
#[tactic(auto, using(crate::proofs::Told::large_alone, crate::proofs::Told::all_laid))]
fn large_alone(alloc: Global, source: &Module) -> Result<Option<Refusal>, AllocError>
    ensures { IfOk result (ComesFor source.now None) }
{
    let func = match layouts_of(alloc, source, false) {
        Ok(_) => return Ok(None),
        Err(LayoutsError::OutOfMemory) => return Err(AllocError),
        Err(LayoutsError::TooLarge(func)) => func,
    };
    Ok(Some(too_large(func)))
}

/// The refusal where no other rule is broken than K12; layouts are made only where a frame may be too large.
#[tactic(auto, using(crate::proofs::Told::all_small))]
fn refused_alone(alloc: Global, source: &Module) -> Result<Option<Refusal>, AllocError>
    ensures { IfOk result (ComesFor source.now None) }
{
    if are_small(alloc, source)? {
        return Ok(None);
    }
    large_alone(alloc, source)
}

/// The refusal of a module whose first broken rule, but for K12, is told.
fn refused_with(
    alloc: Global,
    source: &Module,
    refusal: Option<Refusal>,
) -> Result<Option<Refusal>, AllocError>
    ensures { IfOk result (ComesFor source.now refusal) }
{
    match refusal {
        Some(refusal) => {
            let told = refused_by(alloc, source, refusal)?;
            Ok(Some(told))
        }
        None => refused_alone(alloc, source),
    }
}

/// What a source is refused for: the first broken rule in the one order of refusals with its first place, K12 among them, and
/// none exactly where no rule is broken. It says what `accept` says without layouts, which are made only where a frame may be too large.
#[tactic(auto, using(crate::proofs::Told::refused_as))]
pub fn refused_for(alloc: Global, source: &Module) -> Result<Option<Refusal>, AllocError>
    ensures { IfOk result (IsRefusedFor source.now) }
{
    let refusal = first_refusal(alloc, Stage::Source, source)?;
    refused_with(alloc, source, refusal)
}
