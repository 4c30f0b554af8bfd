//! The lowering of a text.

ghost use Rattle.std.specs.Prelude.{◌≡◌, IfOk, map, slice_get};
ghost use Rattle.compiler.specs.Lowering.{IsDone, IsLowering, IsLoweringBy, IsModuleLowering, frame_line, lowered_by, lowered_text, name_of};
ghost use Rattle.compiler.specs.NoCoroutine.{LeavesNoCoroutine};
ghost use Rattle.compiler.specs.NoRule.{BreaksNoRule, IsFramed};
ghost use Rattle.compiler.specs.Printed.{AllFew, HasFewNames, IsReadPlain};

use crate::passes::{framed_module, lowered_module};
use frame_acceptance::{Acceptance, accept};
use frame_layout::{Layout, Layouts};
use ir_base::{Data, FuncId, Items, Name, Options, Place, Rule};
use ir_model::{Function, Module};
use std::alloc::{AllocError, Global};
use text_canonical::grammar::text_is_bytes;
use text_parser::{Parsed, parse};
use text_printer::{FrameLine, print_frames, print_module};

/// What the lowering of an accepted module gives: its text (a frame line per coroutine, then the canonical text of the
/// lowered module), the lowered module, the source, its framed form, the layouts of its frames, and the calls whose frames lie
/// in their callers, of which there are none yet.
#[derive(Drop)]
pub struct Lowered {
    pub text: Items<u8>,
    pub module: Module,
    pub source: Module,
    pub framed: Module,
    pub layouts: Layouts,
    pub sites: Items<Place>,
}

/// What the lowering of a text comes to.
#[derive(Drop)]
pub enum Lowering {
    /// It was lowered.
    Done(Lowered),
    /// The text stands for no module; so many whole items it begins with.
    Syntax(usize),
    /// The module breaks this rule first, at this place.
    Refused(Module, Rule, Place),
}

fn name_of(alloc: Global, source: &Module, func: FuncId) -> Result<Name, AllocError>
    ensures { IfOk result (λ n. n ≡ name_of (slice_get source.now.functions func)) }
{
    match source.functions.get(func) {
        None => Ok(Name::Number(0)),
        Some(function) => function.name.copied(alloc),
    }
}

fn frame_lines(
    alloc: Global,
    source: &Module,
    layouts: &[Layout],
) -> Result<Items<FrameLine>, AllocError>
    ensures { IfOk result (λ x. x ≡ map (frame_line source.now) layouts.now) }
{
    let mut all = Items::new(alloc);
    for layout in layouts {
        all.push(FrameLine {
            name: name_of(alloc, source, layout.coroutine)?,
            size: layout.size,
            align: layout.align,
            index: layout.index,
        })?;
    }
    Ok(all)
}

fn lowered_text(
    alloc: Global,
    source: &Module,
    layouts: &Layouts,
    lowered: &Module,
) -> Result<Items<u8>, AllocError>
    ensures { IfOk result (λ text. text ≡ lowered_text source.now layouts.now lowered.now) }
{
    let lines = frame_lines(alloc, source, layouts.coroutines.as_slice())?;
    let mut text = print_frames(alloc, lines.as_slice())?;
    let body = print_module(alloc, lowered)?;
    text.extend_from_slice(&body)?;
    Ok(Items::from_vec(text))
}

/// Functions that lie in memory have fewer than 2^64 names each.
fn names_are_few(functions: &[Function])
    ensures { AllFew functions.now }
{
    for function in functions {
        let _count = function.names.len();
    }
}

/// Lowers a source whose framed form is told.
fn lower_framed(
    alloc: Global,
    source: Module,
    layouts: Layouts,
    framed: Module,
) -> Result<Lowered, AllocError>
    ensures lowered { IfOk result (λ l. l ≡ lowered_by source layouts framed) }
    ensures few { IfOk result (λ l. AllFew l.«module».functions) }
{
    let module = lowered_module(alloc, &framed, &layouts)?;
    names_are_few(module.functions.as_slice());
    let text = lowered_text(alloc, &source, &layouts, &module)?;
    Ok(Lowered {
        text,
        module,
        source,
        framed,
        layouts,
        sites: Items::new(alloc),
    })
}

/// Lowers an accepted source.
#[tactic(auto, using(crate::proofs::Told::done_by))]
fn lower_accepted(alloc: Global, source: Module, layouts: Layouts) -> Result<Lowered, AllocError>
    ensures done { IfOk result (λ l. IsDone source layouts l) }
    ensures few { IfOk result (λ l. AllFew l.«module».functions) }
{
    let framed = framed_module(alloc, &source, &layouts)?;
    lower_framed(alloc, source, layouts, framed)
}

/// What becomes of a source by its acceptance.
fn lower_by(alloc: Global, source: Module, acceptance: Acceptance) -> Result<Lowering, AllocError>
    ensures lowered { IfOk result (λ l. IsLoweringBy source acceptance l) }
    ensures few { IfOk result (λ l. HasFewNames l) }
{
    match acceptance {
        Acceptance::Refused(refusal) => {
            Ok(Lowering::Refused(source, refusal.rule, refusal.place))
        }
        Acceptance::Accepted(layouts) => {
            Ok(Lowering::Done(lower_accepted(alloc, source, layouts)?))
        }
    }
}

/// Lowers a module, in whose frames fields share bytes or don't, or tells the rule that it breaks first.
#[tactic(auto, using(crate::proofs::Told::lowered_as, crate::proofs::NoCoroutine::lowering_by_has_none))]
pub fn lower_module(alloc: Global, source: Module, share: bool) -> Result<Lowering, AllocError>
    ensures lowered { IfOk result (λ l. IsModuleLowering share source l) }
    ensures plain { IfOk result (λ l. LeavesNoCoroutine l) }
    ensures few { IfOk result (λ l. HasFewNames l) }
{
    let acceptance = accept(alloc, &source, share)?;
    lower_by(alloc, source, acceptance)
}

/// Lowers a text. What is lowered has no coroutine left, neither calls nor declares a coro intrinsic, and breaks none of the rules of
/// modules without coroutines; its framed form is a framed module. The text stands for what is lowered, with the names of each
/// function in the order of their first occurrence, and that breaks none of these rules either.
#[tactic(auto, using(crate::proofs::Told::syntax_is_told, crate::proofs::Told::module_is_told, crate::proofs::NoCoroutine::lowering_has_none, crate::proofs::NoRule::lowering_breaks_none, crate::proofs::NoRule::lowering_is_framed, crate::proofs::Printed::lowering_is_read))]
pub fn lower(alloc: Global, text: &[u8], options: Options) -> Result<Lowering, AllocError>
    ensures lowered { IfOk result (λ l. IsLowering options text.now l) }
    ensures plain { IfOk result (λ l. LeavesNoCoroutine l) }
    ensures accepted { IfOk result (λ l. BreaksNoRule l) }
    ensures framed { IfOk result (λ l. IsFramed l) }
    ensures few { IfOk result (λ l. HasFewNames l) }
    ensures printed { IfOk result (λ l. IsReadPlain l) }
{
    text_is_bytes(text);
    match parse(alloc, text)? {
        Parsed::Syntax { items } => Ok(Lowering::Syntax(items)),
        Parsed::Module(source) => lower_module(alloc, source, options.share),
    }
}
