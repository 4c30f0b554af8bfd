//! The lines of a report.

ghost use Rattle.std.specs.Prelude.{◌≡◌, ◌++◌, IfOk, OnOk, codes};
ghost use Rattle.cli_compare.specs.Compared.{allocs_line, counted_text, counts_text, elided_text, events_line, pair_text, report_text, report_verdict as report_verdict_of, some_counts_text, steps_line};

use cli_report::push_outcome;
use cli_runs::cli_entries_library::Verdict;
use ir_base::Outcome;
use ir_model::Module;
use itoa::Buffer;
use run_compare::{Counts, Report};
use std::alloc::{AllocError, Global};

/// Adds words and a number behind them.
#[tactic(auto, unfolding(crate::specs::Compared::counted_text))]
fn push_count(out: &mut Vec<u8>, words: &[u8], number: u128) -> Result<(), AllocError>
    ensures { OnOk result (out.new.items ≡ out.old.items ++ counted_text words.now number) }
{
    let mut buffer = Buffer::new();
    out.extend_from_slice(words)?;
    out.extend_from_slice(buffer.format(number).as_bytes())
}

fn push_events(out: &mut Vec<u8>, counts: &Counts) -> Result<(), AllocError>
    ensures { OnOk result (out.new.items ≡ out.old.items ++ events_line counts.now) }
{
    push_count(out, b"events ", counts.events as u128)?;
    out.extend_from_slice(b"\n")
}

/// Adds words and two numbers, of the source and of what was lowered.
#[tactic(auto, unfolding(crate::specs::Compared::pair_text))]
fn push_pair(out: &mut Vec<u8>, words: &[u8], source: u128, lowered: u128) -> Result<(), AllocError>
    ensures { OnOk result (out.new.items ≡ out.old.items ++ pair_text words.now source lowered) }
{
    push_count(out, words, source)?;
    push_count(out, b" lowered ", lowered)
}

#[tactic(auto, unfolding(crate::specs::Compared::elided_text))]
fn push_elided(out: &mut Vec<u8>, elided: u128) -> Result<(), AllocError>
    ensures { OnOk result (out.new.items ≡ out.old.items ++ elided_text elided) }
{
    push_count(out, b" elided ", elided)?;
    out.extend_from_slice(b"\n")
}

fn push_steps(out: &mut Vec<u8>, counts: &Counts) -> Result<(), AllocError>
    ensures { OnOk result (out.new.items ≡ out.old.items ++ steps_line counts.now) }
{
    push_pair(
        out,
        b"steps source ",
        counts.source_steps as u128,
        counts.lowered_steps as u128,
    )?;
    out.extend_from_slice(b"\n")
}

fn push_allocs(out: &mut Vec<u8>, counts: &Counts) -> Result<(), AllocError>
    ensures { OnOk result (out.new.items ≡ out.old.items ++ allocs_line counts.now) }
{
    push_pair(
        out,
        b"allocs source ",
        counts.source_allocs,
        counts.lowered_allocs,
    )?;
    push_elided(out, counts.elided)?;
    Ok(())
}

fn push_counts(out: &mut Vec<u8>, counts: &Counts) -> Result<(), AllocError>
    ensures { OnOk result (out.new.items ≡ out.old.items ++ counts_text counts.now) }
{
    push_events(out, counts)?;
    push_steps(out, counts)?;
    push_allocs(out, counts)
}

fn push_some_counts(out: &mut Vec<u8>, counts: &Option<Counts>) -> Result<(), AllocError>
    ensures { OnOk result (out.new.items ≡ out.old.items ++ some_counts_text counts.now) }
{
    match counts {
        None => Ok(()),
        Some(counts) => push_counts(out, counts),
    }
}

/// The lines of a report.
pub fn report_text(alloc: Global, source: &Module, report: &Report) -> Result<Vec<u8>, AllocError>
    ensures { IfOk result (λ v. v.items ≡ report_text source.now report.now) }
{
    let mut out = Vec::new(alloc);
    out.extend_from_slice(b"outcome ")?;
    push_outcome(&mut out, source, report.outcome)?;
    push_some_counts(&mut out, &report.counts)?;
    Ok(out)
}

/// How an answer ends by the source's outcome.
pub fn report_verdict(outcome: Outcome) -> Verdict
    ensures { result ≡ report_verdict_of outcome }
{
    match outcome {
        Outcome::Undefined(_, _) => Verdict::Undefined,
        _ => Verdict::Done,
    }
}
