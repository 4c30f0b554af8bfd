//! The order of the module rules.

ghost use Rattle.std.specs.Prelude.{◌≡◌, IfOk, Some};
ghost use Rattle.rule_modules.specs.Order.{module_refusal as module_refusal_of};

use ir_base::{Place, Rule};
use ir_model::Module;
use ir_tables::Names;
use rule_names::{Stage, first_reserved_name, first_second_definition, first_unknown_name};
use rule_types::{first_other_type, first_past_limit};
use std::alloc::{AllocError, Global};

/// The first broken rule, and its first place.
#[derive(Clone, Copy, Debug, PartialEq, Eq, Drop)]
pub struct Refusal {
    pub rule: Rule,
    pub place: Place,
}

fn broken(rule: Rule, place: Place) -> Option<Refusal>
    ensures { result ≡ Some (record { rule = rule; place = place }) }
{
    Some(Refusal { rule, place })
}

fn named_refusal(
    alloc: Global,
    stage: Stage,
    names: &Names<'_>,
) -> Result<Option<Refusal>, AllocError>
    ensures { IfOk result (λ r. r ≡ module_refusal_of stage names.now.source.now) }
{
    if let Some(place) = first_past_limit(alloc, stage, names)? {
        return Ok(broken(Rule::L1, place));
    }
    if let Some(place) = first_second_definition(alloc, names)? {
        return Ok(broken(Rule::N1, place));
    }
    if let Some(place) = first_unknown_name(alloc, names)? {
        return Ok(broken(Rule::N2, place));
    }
    if let Some(place) = first_reserved_name(alloc, stage, names)? {
        return Ok(broken(Rule::N3, place));
    }
    if let Some(place) = first_other_type(alloc, names)? {
        return Ok(broken(Rule::Y2, place));
    }
    Ok(None)
}

/// The first broken of the module rules, in the order L1, N1, N2, N3, Y2, each looked at over all items, with its first
/// place.
pub fn module_refusal(
    alloc: Global,
    stage: Stage,
    source: &Module,
) -> Result<Option<Refusal>, AllocError>
    ensures { IfOk result (λ r. r ≡ module_refusal_of stage source.now) }
{
    let names = Names::new(alloc, source)?;
    named_refusal(alloc, stage, &names)
}
