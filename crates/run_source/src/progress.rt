//! Many steps.

ghost use Rattle.std.specs.Prelude.{◌≡◌, OnOk, OnErr};
ghost use Rattle.run_source_tables.specs.run_step.Runs.{iterate};
ghost use Rattle.run_source.specs.Source.{step};
ghost use Rattle.run_source.specs.SourceEffects.{given_of};
ghost use Rattle.run_source.specs.Machines.{progress_of, is_over as is_over_outcome, RanSome};

use crate::state::State;
use crate::stepping::step_state;
use ir_base::{Cause, Outcome, Place, Word};
use run_source_tables::SourceProgram;
use std::alloc::{AllocError, Global};

/// How far a run is after a step.
#[derive(Clone, Copy, Debug, PartialEq, Eq, Drop)]
pub enum Progress {
    /// It goes on.
    Going,
    /// The entry returned.
    Returned(Option<Word>),
    /// It is undefined, by a cause at a place.
    Undefined(Cause, Place),
}

/// How far a run of an outcome is.
pub fn outcome_progress(outcome: Outcome) -> Progress
    ensures { result ≡ progress_of outcome }
{
    match outcome {
        Outcome::Running => Progress::Going,
        Outcome::Returned(value) => Progress::Returned(value),
        Outcome::Undefined(cause, place) => Progress::Undefined(cause, place),
    }
}

/// Whether a run of an outcome is over.
pub fn is_over(outcome: Outcome) -> bool
    ensures { result ≡ is_over_outcome outcome }
{
    match outcome {
        Outcome::Running => false,
        _ => true,
    }
}

/// So many steps.
pub fn run_state(
    alloc: Global,
    given: &SourceProgram,
    state: &mut State,
    n: u64,
) -> Result<(), AllocError>
    ensures done { OnOk result (state.new ≡ iterate (step (given_of given.now)) n state.old) }
    ensures stopped { OnErr result (RanSome (given_of given.now) n state.old state.new) }
{
    for made in 0..n {
        if is_over(state.outcome) {
            return Ok(());
        }
        step_state(alloc, given, state)?;
    }
    Ok(())
}
