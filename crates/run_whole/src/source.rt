//! Runs of sources.

ghost use Rattle.std.specs.Prelude.{◌≡◌, IfOk};
ghost use Rattle.run_source.specs.Machines.{run_of};
ghost use Rattle.run_whole.specs.Source.{IsStarted, ShowsSource};

use flow_facts::all_facts;
use ir_base::{FuncId, Outcome, Word};
use ir_model::{Frame, Module};
use run_source::SourceMachine;
use std::alloc::{AllocError, Global};

/// The machine of a source, and what the run came to.
pub struct SourceView {
    pub machine: SourceMachine,
    pub outcome: Outcome,
}

impl Drop for SourceView {
    fn drop(self) {
        let SourceView {
            machine,
            outcome: _,
        } = self;
        drop(machine);
    }
}

fn machine_of_source(
    alloc: Global,
    source: Module,
    sizes: &[Frame],
    entry: FuncId,
    args: &[Word],
    answers: &[i128],
) -> Result<SourceMachine, AllocError>
    ensures { IfOk result (λ machine. IsStarted source sizes.now entry args.now answers.now (run_of machine)) }
{
    let facts = all_facts(alloc, source.functions.as_slice())?;
    SourceMachine::start(alloc, source, sizes, facts, entry, args, answers)
}

/// The machine of a source at an entry, before its first step.
pub fn start_source(
    alloc: Global,
    source: Module,
    sizes: &[Frame],
    entry: FuncId,
    args: &[Word],
    answers: &[i128],
) -> Result<SourceView, AllocError>
    ensures started { IfOk result (λ view. IsStarted source sizes.now entry args.now answers.now (run_of view.machine)) }
    ensures running { IfOk result (λ view. view.outcome ≡ Outcome.Running) }
{
    let machine = machine_of_source(alloc, source, sizes, entry, args, answers)?;
    Ok(SourceView {
        machine,
        outcome: Outcome::Running,
    })
}

/// What is seen of a source after so many steps.
pub fn run_source(
    alloc: Global,
    source: Module,
    sizes: &[Frame],
    entry: FuncId,
    args: &[Word],
    answers: &[i128],
    steps: u64,
) -> Result<SourceView, AllocError>
    ensures { IfOk result (λ view. ShowsSource source sizes.now entry args.now answers.now steps view) }
{
    let mut machine = machine_of_source(alloc, source, sizes, entry, args, answers)?;
    let outcome = machine.run(steps)?;
    Ok(SourceView { machine, outcome })
}
