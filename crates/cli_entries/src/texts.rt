//! Answers and their texts.

ghost use Rattle.std.specs.Prelude.{◌≡◌, IfOk};
ghost use Rattle.cli_entries.specs.Entries.{shown, told, refused, syntax_fault, not_callable};

use crate::verdict::{Answer, Verdict};
use cli_report::{not_callable_text, refused_text, syntax_text as text_of_fault};
use ir_base::{Items, Place, Rule};
use ir_model::Module;
use std::alloc::{AllocError, Global};

/// What was asked for.
pub fn shown(alloc: Global, verdict: Verdict, text: Items<u8>) -> Answer
    ensures { result ≡ shown verdict text }
{
    Answer {
        verdict,
        out: text,
        err: Items::new(alloc),
    }
}

/// What is told instead.
pub fn told(alloc: Global, verdict: Verdict, text: Vec<u8>) -> Answer
    ensures { result ≡ told verdict text.items }
{
    Answer {
        verdict,
        out: Items::new(alloc),
        err: Items::from_vec(text),
    }
}

/// A rule is broken.
pub fn refused(
    alloc: Global,
    source: &Module,
    rule: Rule,
    place: Place,
) -> Result<Answer, AllocError>
    ensures { IfOk result (λ a. a ≡ refused source.now rule place) }
{
    let text = refused_text(alloc, source, rule, place)?;
    Ok(told(alloc, Verdict::Refused, text))
}

/// The input stands for no module.
pub fn syntax_fault(alloc: Global, items: usize) -> Result<Answer, AllocError>
    ensures { IfOk result (λ a. a ≡ syntax_fault items) }
{
    let text = text_of_fault(alloc, items)?;
    Ok(told(alloc, Verdict::Refused, text))
}

/// The entry isn't callable.
pub fn not_callable(alloc: Global, entry: &[u8]) -> Result<Answer, AllocError>
    ensures { IfOk result (λ a. a ≡ not_callable entry.now) }
{
    let text = not_callable_text(alloc, entry)?;
    Ok(told(alloc, Verdict::NotCallable, text))
}
