//! The machine of a framed module.

use crate::program::FramedProgram;
use crate::progress::run_framed;
use crate::stepping::step_framed;
use frame_layout::Layouts;
use ir_base::{Event, FuncId, Items, Outcome, Word};
use ir_model::Module;
use ir_paths::Facts;
use run_source::progress::outcome_progress;
use run_source::starting::first_state;
use run_source::{Progress, State};
use std::alloc::{AllocError, Global};

/// A run of a framed module. A step that finds no memory leaves it as it was; after it returned or was undefined, a step
/// gives the same again.
#[derive(Drop)]
pub struct FramedMachine {
    alloc: Global,
    program: FramedProgram,
    state: State,
}

impl FramedMachine {
    ghost use Rattle.std.specs.Prelude.{◌≡◌, ◌+◌, ℕ, List, map, IfOk, OnOk, OnErr};
    ghost use Rattle.ir_base.specs.declared.outcome.Word.{Word as TheWord};
    ghost use Rattle.run_step.specs.Runs.{seen_event};
    ghost use Rattle.run_source.specs.Machines.{progress_of};
    ghost use Rattle.run_framed.specs.Framed.{FramedGiven, frame_of_layout};
    ghost use Rattle.run_framed.specs.FramedEffects.{framed_of};
    ghost use Rattle.run_framed.specs.Machines.{FramedSeenOf, RanSome, machine_at, ran, run_of};

    /// A machine at the entry, before its first step, of a module with the layouts of its coroutines' frames, and what is known
    /// of its functions' paths.
    pub fn start(
        alloc: Global,
        code: Module,
        layouts: &Layouts,
        facts: Items<Facts>,
        entry: FuncId,
        args: &[Word],
        answers: &[i128],
    ) -> Result<Self, AllocError>
        ensures { IfOk result (λ machine. run_of machine ≡ machine_at (record { given = record { code = code; sizes = map frame_of_layout layouts.now.coroutines; answers = answers.now; facts = facts }; layouts = layouts.now.coroutines }) entry args.now 0) }
    {
        let program = FramedProgram::new(alloc, code, layouts, facts, answers)?;
        let state = first_state(alloc, &program.given.program, entry, args)?;
        Ok(FramedMachine {
            alloc,
            program,
            state,
        })
    }

    /// The module that runs.
    pub fn code(&self) -> &Module
        ensures { result.now ≡ (run_of self.now).given.given.code }
    {
        &self.program.given.program.module
    }

    /// One step, and how far the run is then.
    pub fn step(&mut self) -> Result<Progress, AllocError>
        ensures done { OnOk result (run_of self.new ≡ ran 1 (run_of self.old)) }
        ensures answer { IfOk result (λ progress. progress ≡ progress_of self.new.state.outcome) }
        ensures kept { OnErr result (self.new ≡ self.old) }
    {
        step_framed(self.alloc, &self.program, &mut self.state)?;
        Ok(outcome_progress(self.state.outcome))
    }

    /// So many steps, and how far the run is then. Where there is no memory for a step the machine stands before it.
    pub fn run(&mut self, n: u64) -> Result<Outcome, AllocError>
        ensures done { OnOk result (run_of self.new ≡ ran n (run_of self.old)) }
        ensures outcome { IfOk result (λ outcome. outcome ≡ self.new.state.outcome) }
        ensures stopped { OnErr result (RanSome (framed_of self.old.program) n self.old.state self.new.state) }
        ensures seen { (g : FramedGiven) (entry : ℕ) (args : List TheWord) (k : ℕ) → run_of self.old ≡ machine_at g entry args k → IfOk result (λ outcome. outcome ≡ (FramedSeenOf g entry args (k + n)).outcome) }
    {
        run_framed(self.alloc, &self.program, &mut self.state, n)?;
        Ok(self.state.outcome)
    }

    /// The events so far, by the positions of the declared functions.
    pub fn events(&self) -> &[Event]
        ensures events { result.now ≡ self.now.state.world.events }
        ensures seen { (g : FramedGiven) (entry : ℕ) (args : List TheWord) (k : ℕ) → run_of self.now ≡ machine_at g entry args k → map (seen_event g.given.code) result.now ≡ (FramedSeenOf g entry args k).events }
    {
        self.state.world.events.as_slice()
    }

    /// How many calls of `malloc` and `_Znwm` there were.
    pub fn allocs(&self) -> u128
        ensures allocs { result ≡ self.now.state.world.allocs }
        ensures seen { (g : FramedGiven) (entry : ℕ) (args : List TheWord) (k : ℕ) → run_of self.now ≡ machine_at g entry args k → result ≡ (FramedSeenOf g entry args k).allocs }
    {
        self.state.world.allocs
    }
}
