//! Many steps of a framed run.

ghost use Rattle.std.specs.Prelude.{◌≡◌, OnOk, OnErr};
ghost use Rattle.run_step.specs.Runs.{iterate};
ghost use Rattle.run_framed.specs.Framed.{framed_step};
ghost use Rattle.run_framed.specs.FramedEffects.{framed_of};
ghost use Rattle.run_framed.specs.Machines.{RanSome};

use crate::program::FramedProgram;
use crate::stepping::step_framed;
use run_source::State;
use run_source::progress::is_over;
use std::alloc::{AllocError, Global};

/// So many steps.
pub fn run_framed(
    alloc: Global,
    program: &FramedProgram,
    state: &mut State,
    n: u64,
) -> Result<(), AllocError>
    ensures done { OnOk result (state.new ≡ iterate (framed_step (framed_of program.now)) n state.old) }
    ensures stopped { OnErr result (RanSome (framed_of program.now) n state.old state.new) }
{
    for made in 0..n {
        if is_over(state.outcome) {
            return Ok(());
        }
        step_framed(alloc, program, state)?;
    }
    Ok(())
}
