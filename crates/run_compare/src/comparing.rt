//! Two runs, one after the other.

ghost use Rattle.std.specs.Prelude.{◌≡◌, ◌↔◌, IfOk, OnOk, IsTrue};
ghost use Rattle.run_compare.specs.Report.{AreFollowed, AreNumbers, HasCome, IsLeast, IsReport, IsStop, is_returned as is_returned_outcome, is_running as is_running_outcome, is_undefined as is_undefined_outcome, plain_seen, source_seen};
ghost use Rattle.run_plain.specs.Machines.{ran as plain_ran, run_of as plain_run_of};
ghost use Rattle.run_source.specs.Machines.{ran, run_of};

use crate::reports::{Counts, Report};
use ir_base::Outcome;
use run_plain::PlainMachine;
use run_source::{Progress, SourceMachine};
use std::alloc::AllocError;

/// Whether the run goes on.
fn is_running(outcome: Outcome) -> bool
    ensures { result ≡ is_running_outcome outcome }
{
    match outcome {
        Outcome::Running => true,
        _ => false,
    }
}

/// Runs a source until it is over, or so many steps, and gives how many it made.
fn run_source(source: &mut SourceMachine, bound: u64) -> Result<u64, AllocError>
    ensures stop { IfOk result (λ n. IsStop (source_seen (run_of source.old)) bound n) }
    ensures ran { IfOk result (λ n. run_of source.new ≡ ran n (run_of source.old)) }
{
    for made in 0..bound {
        let outcome = source.run(0)?;
        if !is_running(outcome) {
            return Ok(made);
        }
        source.step()?;
    }
    Ok(bound)
}

/// Whether so many events are seen, and a return where it is asked.
fn has_come(lowered: &mut PlainMachine, events: usize, returned: bool) -> Result<bool, AllocError>
    ensures come { IfOk result (λ b. IsTrue b ↔ HasCome events returned (plain_seen (plain_run_of lowered.old) 0)) }
    ensures stays { IfOk result (λ _. plain_run_of lowered.new ≡ plain_run_of lowered.old) }
{
    let outcome = lowered.run(0)?;
    let is_over = matches!(outcome, Outcome::Returned(_));
    Ok(lowered.events().len() == events && (!returned || is_over))
}

/// Runs the lowered module until so many events are seen, and a return where it is asked. Gives how many steps it made.
/// Nobody waits for 2^64 steps: they count as want of memory.
fn follow(lowered: &mut PlainMachine, events: usize, returned: bool) -> Result<u64, AllocError>
    ensures least { IfOk result (λ n. IsLeast (λ i. HasCome events returned (plain_seen (plain_run_of lowered.old) i)) n) }
    ensures ran { IfOk result (λ n. plain_run_of lowered.new ≡ plain_ran n (plain_run_of lowered.old)) }
{
    for steps in 0..u64::MAX {
        if has_come(lowered, events, returned)? {
            return Ok(steps);
        }
        lowered.step()?;
    }
    Err(AllocError)
}

/// Whether the run has returned.
fn is_returned(outcome: Outcome) -> bool
    ensures { result ≡ is_returned_outcome outcome }
{
    match outcome {
        Outcome::Returned(_) => true,
        _ => false,
    }
}

/// Whether the run is undefined.
fn is_undefined(outcome: Outcome) -> bool
    ensures { result ≡ is_undefined_outcome outcome }
{
    match outcome {
        Outcome::Undefined(_, _) => true,
        _ => false,
    }
}

/// The numbers of a source's run, which isn't undefined, and of the lowered one where that has come so far.
fn counts(
    source: &SourceMachine,
    source_steps: u64,
    lowered: &mut PlainMachine,
    returned: bool,
) -> Result<Counts, AllocError>
    ensures { IfOk result (λ c. AreNumbers (source_seen (run_of source.now) 0) source_steps returned (plain_run_of lowered.old) c) }
{
    let events = source.events().len();
    let lowered_steps = follow(lowered, events, returned)?;
    Ok(Counts {
        events,
        source_steps,
        lowered_steps,
        source_allocs: source.allocs(),
        lowered_allocs: lowered.allocs(),
        elided: lowered.elided(),
    })
}

/// Runs the source until it is over, or so many steps, and then the lowered module up to the least step at which that has
/// the source's events, and has returned where the source has. There are no numbers where the source is undefined.
pub fn compare(
    source: &mut SourceMachine,
    lowered: &mut PlainMachine,
    bound: u64,
) -> Result<Report, AllocError>
    requires { AreFollowed (run_of source.old) (plain_run_of lowered.old) }
    ensures report { IfOk result (λ r. IsReport (source_seen (run_of source.old)) (plain_run_of lowered.old) bound r) }
    ensures given { OnOk result ((run_of source.new).given ≡ (run_of source.old).given) }
{
    let source_steps = run_source(source, bound)?;
    let outcome = source.run(0)?;
    if is_undefined(outcome) {
        return Ok(Report {
            outcome,
            counts: None,
        });
    }
    let counts = counts(source, source_steps, lowered, is_returned(outcome))?;
    Ok(Report {
        outcome,
        counts: Some(counts),
    })
}
