//! The lines of refusals.

ghost use Rattle.std.specs.Prelude.{◌≡◌, ◌++◌, IfOk, codes};
ghost use Rattle.cli_report.specs.Report.{refused_text, syntax_text, not_callable_text, bad_list_text};

use crate::place::push_place;
use crate::word::push_number;
use ir_base::{Place, Rule};
use ir_model::Module;
use std::alloc::{AllocError, Global};

/// `refused RULE at PLACE`.
pub fn refused_text(
    alloc: Global,
    source: &Module,
    rule: Rule,
    place: Place,
) -> Result<Vec<u8>, AllocError>
    ensures { IfOk result (λ v. v.items ≡ refused_text source.now rule place) }
{
    let mut out = Vec::from_slice(alloc, b"refused ")?;
    out.extend_from_slice(rule.word().as_bytes())?;
    out.extend_from_slice(b" at ")?;
    push_place(&mut out, source, place)?;
    out.extend_from_slice(b"\n")?;
    Ok(out)
}

/// `syntax after N items`.
pub fn syntax_text(alloc: Global, items: usize) -> Result<Vec<u8>, AllocError>
    ensures { IfOk result (λ v. v.items ≡ syntax_text items) }
{
    let mut out = Vec::from_slice(alloc, b"syntax after ")?;
    push_number(&mut out, items as u64)?;
    out.extend_from_slice(b" items\n")?;
    Ok(out)
}

/// `entry NAME isn't callable`, the name being as it was given.
pub fn not_callable_text(alloc: Global, entry: &[u8]) -> Result<Vec<u8>, AllocError>
    ensures { IfOk result (λ v. v.items ≡ not_callable_text entry.now) }
{
    let mut out = Vec::from_slice(alloc, b"entry ")?;
    out.extend_from_slice(entry)?;
    out.extend_from_slice(b" isn't callable\n")?;
    Ok(out)
}

/// `bad list WORD`.
pub fn bad_list_text(alloc: Global, word: &[u8]) -> Result<Vec<u8>, AllocError>
    ensures { IfOk result (λ v. v.items ≡ bad_list_text word.now) }
{
    let mut out = Vec::from_slice(alloc, b"bad list ")?;
    out.extend_from_slice(word)?;
    out.extend_from_slice(b"\n")?;
    Ok(out)
}
