//! The lines of a run.

ghost use Rattle.std.specs.Prelude.{◌≡◌, ◌++◌, OnOk, IfOk, codes, slice_get};
ghost use Rattle.cli_report.specs.Report.{declared_text, event_text, events_text, returned_text, outcome_text, run_text};

use crate::place::push_place;
use crate::word::{push_word, push_words};
use ir_base::{Event, Name, Outcome, Word};
use ir_model::Module;
use std::alloc::{AllocError, Global};
use text_names::print_name;

fn push_declared(out: &mut Vec<u8>, source: &Module, func: usize) -> Result<(), AllocError>
    ensures { OnOk result (out.new.items ≡ out.old.items ++ declared_text (slice_get source.now.declarations func)) }
{
    match source.declarations.get(func) {
        None => print_name(&Name::Number(0), out),
        Some(declaration) => print_name(&declaration.name, out),
    }
}

fn push_event(out: &mut Vec<u8>, source: &Module, event: &Event) -> Result<(), AllocError>
    ensures { OnOk result (out.new.items ≡ out.old.items ++ event_text source.now event.now) }
{
    push_declared(out, source, event.func)?;
    out.extend_from_slice(b"(")?;
    push_words(out, event.args.as_slice())?;
    out.extend_from_slice(b")\n")
}

fn push_events(out: &mut Vec<u8>, source: &Module, events: &[Event]) -> Result<(), AllocError>
    ensures { OnOk result (out.new.items ≡ out.old.items ++ events_text source.now events.now) }
{
    for event in events {
        push_event(out, source, event)?;
    }
    Ok(())
}

fn push_returned(out: &mut Vec<u8>, value: Option<Word>) -> Result<(), AllocError>
    ensures { OnOk result (out.new.items ≡ out.old.items ++ returned_text value) }
{
    match value {
        None => out.extend_from_slice(b"returned\n"),
        Some(word) => {
            out.extend_from_slice(b"returned ")?;
            push_word(out, word)?;
            out.extend_from_slice(b"\n")
        }
    }
}

/// Adds the line of an outcome.
pub fn push_outcome(out: &mut Vec<u8>, source: &Module, outcome: Outcome) -> Result<(), AllocError>
    ensures { OnOk result (out.new.items ≡ out.old.items ++ outcome_text source.now outcome) }
{
    match outcome {
        Outcome::Returned(value) => push_returned(out, value),
        Outcome::Running => out.extend_from_slice(b"running\n"),
        Outcome::Undefined(cause, place) => {
            out.extend_from_slice(b"undefined ")?;
            out.extend_from_slice(cause.word().as_bytes())?;
            out.extend_from_slice(b" at ")?;
            push_place(out, source, place)?;
            out.extend_from_slice(b"\n")
        }
    }
}

/// The lines of a run: its events in order, and its outcome.
pub fn run_text(
    alloc: Global,
    source: &Module,
    events: &[Event],
    outcome: Outcome,
) -> Result<Vec<u8>, AllocError>
    ensures { IfOk result (λ v. v.items ≡ run_text source.now events.now outcome) }
{
    let mut out = Vec::new(alloc);
    push_events(&mut out, source, events)?;
    push_outcome(&mut out, source, outcome)?;
    Ok(out)
}
