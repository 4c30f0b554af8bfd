//! Runs of modules without coroutines.

ghost use Rattle.std.specs.Prelude.{◌≡◌, IfOk};
ghost use Rattle.run_plain.specs.Machines.{machine_at, run_of};
ghost use Rattle.run_whole.specs.Plain.{ShowsPlain};

use ir_base::{FuncId, Outcome, Word};
use ir_model::Module;
use run_plain::PlainMachine;
use std::alloc::{AllocError, Global};

/// The machine of a module without coroutines, and what the run came to.
pub struct PlainView {
    pub machine: PlainMachine,
    pub outcome: Outcome,
}

impl Drop for PlainView {
    fn drop(self) {
        let PlainView {
            machine,
            outcome: _,
        } = self;
        drop(machine);
    }
}

/// The machine of a module without coroutines at an entry, before its first step.
pub fn start_plain(
    alloc: Global,
    code: Module,
    entry: FuncId,
    args: &[Word],
    answers: &[i128],
) -> Result<PlainView, AllocError>
    ensures started { IfOk result (λ view. run_of view.machine ≡ machine_at (record { code = code; answers = answers.now }) entry args.now 0) }
    ensures running { IfOk result (λ view. view.outcome ≡ Outcome.Running) }
{
    let machine = PlainMachine::start(alloc, code, entry, args, answers)?;
    Ok(PlainView {
        machine,
        outcome: Outcome::Running,
    })
}

/// What is seen of a module without coroutines after so many steps.
pub fn run_plain(
    alloc: Global,
    code: Module,
    entry: FuncId,
    args: &[Word],
    answers: &[i128],
    steps: u64,
) -> Result<PlainView, AllocError>
    ensures { IfOk result (λ view. ShowsPlain code entry args.now answers.now steps view) }
{
    let mut machine = PlainMachine::start(alloc, code, entry, args, answers)?;
    let outcome = machine.run(steps)?;
    Ok(PlainView { machine, outcome })
}
