//! Runs of framed modules.

ghost use Rattle.std.specs.Prelude.{◌≡◌, IfOk};
ghost use Rattle.run_framed.specs.Machines.{run_of};
ghost use Rattle.run_whole.specs.Framed.{IsStarted, ShowsFramed};

use frame_layout::Layouts;
use ir_base::{FuncId, Outcome, Word};
use ir_model::Module;
use run_framed::FramedMachine;
use run_framed_facts::all_framed_facts;
use std::alloc::{AllocError, Global};

/// The machine of a framed module, and what the run came to.
pub struct FramedView {
    pub machine: FramedMachine,
    pub outcome: Outcome,
}

impl Drop for FramedView {
    fn drop(self) {
        let FramedView {
            machine,
            outcome: _,
        } = self;
        drop(machine);
    }
}

fn machine_of_framed(
    alloc: Global,
    framed: Module,
    layouts: &Layouts,
    entry: FuncId,
    args: &[Word],
    answers: &[i128],
) -> Result<FramedMachine, AllocError>
    ensures { IfOk result (λ machine. IsStarted framed layouts.now entry args.now answers.now (run_of machine)) }
{
    let facts = all_framed_facts(alloc, framed.functions.as_slice())?;
    FramedMachine::start(alloc, framed, layouts, facts, entry, args, answers)
}

/// The machine of a framed module at an entry, before its first step. The layouts are those of its coroutines' frames.
pub fn start_framed(
    alloc: Global,
    framed: Module,
    layouts: &Layouts,
    entry: FuncId,
    args: &[Word],
    answers: &[i128],
) -> Result<FramedView, AllocError>
    ensures started { IfOk result (λ view. IsStarted framed layouts.now entry args.now answers.now (run_of view.machine)) }
    ensures running { IfOk result (λ view. view.outcome ≡ Outcome.Running) }
{
    let machine = machine_of_framed(alloc, framed, layouts, entry, args, answers)?;
    Ok(FramedView {
        machine,
        outcome: Outcome::Running,
    })
}

/// What is seen of a framed module after so many steps.
pub fn run_framed(
    alloc: Global,
    framed: Module,
    layouts: &Layouts,
    entry: FuncId,
    args: &[Word],
    answers: &[i128],
    steps: u64,
) -> Result<FramedView, AllocError>
    ensures { IfOk result (λ view. ShowsFramed framed layouts.now entry args.now answers.now steps view) }
{
    let mut machine = machine_of_framed(alloc, framed, layouts, entry, args, answers)?;
    let outcome = machine.run(steps)?;
    Ok(FramedView { machine, outcome })
}
