//! The machine of a plain module.

use crate::progress::{Progress, outcome_progress, run_state};
use crate::starting::first_state;
use crate::state::PlainState;
use crate::stepping::step_state;
use ir_base::{Event, FuncId, Outcome, Word};
use ir_model::Module;
use run_step::Program;
use std::alloc::{AllocError, Global};

/// A run of a plain module. A step that finds no memory leaves it as it was; after it returned or was undefined, a step
/// gives the same again.
#[derive(Drop)]
pub struct PlainMachine {
    alloc: Global,
    program: Program,
    state: PlainState,
}

impl PlainMachine {
    ghost use Rattle.std.specs.Prelude.{◌≡◌, ◌+◌, ℕ, List, map, IfOk, OnOk, OnErr};
    ghost use Rattle.ir_base.specs.declared.outcome.Word.{Word as TheWord};
    ghost use Rattle.run_step.specs.Runs.{seen_event};
    ghost use Rattle.run_plain.specs.Plain.{PlainGiven, PlainAt};
    ghost use Rattle.run_plain.specs.PlainEffects.{given_of};
    ghost use Rattle.run_plain.specs.Machines.{machine_at, ran, run_of, progress_of, RanSome};

    /// A machine at the entry, before its first step.
    pub fn start(
        alloc: Global,
        code: Module,
        entry: FuncId,
        args: &[Word],
        answers: &[i128],
    ) -> Result<Self, AllocError>
        ensures { IfOk result (λ machine. run_of machine ≡ machine_at (record { code = code; answers = answers.now }) entry args.now 0) }
    {
        let program = Program::new(alloc, code, answers)?;
        let state = first_state(alloc, &program, entry, args)?;
        Ok(PlainMachine {
            alloc,
            program,
            state,
        })
    }

    /// The module that runs.
    pub fn code(&self) -> &Module
        ensures { result.now ≡ (run_of self.now).given.code }
    {
        &self.program.module
    }

    /// One step, and how far the run is then.
    pub fn step(&mut self) -> Result<Progress, AllocError>
        ensures done { OnOk result (run_of self.new ≡ ran 1 (run_of self.old)) }
        ensures answer { IfOk result (λ progress. progress ≡ progress_of self.new.state.outcome) }
        ensures kept { OnErr result (self.new ≡ self.old) }
    {
        step_state(self.alloc, &self.program, &mut self.state)?;
        Ok(outcome_progress(self.state.outcome))
    }

    /// So many steps, and how far the run is then. Where there is no memory for a step the machine stands before it.
    pub fn run(&mut self, n: u64) -> Result<Outcome, AllocError>
        ensures done { OnOk result (run_of self.new ≡ ran n (run_of self.old)) }
        ensures outcome { IfOk result (λ outcome. outcome ≡ self.new.state.outcome) }
        ensures stopped { OnErr result (RanSome (given_of self.old.program) n self.old.state self.new.state) }
        ensures seen { (g : PlainGiven) (entry : ℕ) (args : List TheWord) (k : ℕ) → run_of self.old ≡ machine_at g entry args k → IfOk result (λ outcome. outcome ≡ (PlainAt g.code entry args g.answers (k + n)).outcome) }
    {
        run_state(self.alloc, &self.program, &mut self.state, n)?;
        Ok(self.state.outcome)
    }

    /// The events so far, by the positions of the declared functions.
    pub fn events(&self) -> &[Event]
        ensures events { result.now ≡ self.now.state.world.events }
        ensures seen { (g : PlainGiven) (entry : ℕ) (args : List TheWord) (k : ℕ) → run_of self.now ≡ machine_at g entry args k → map (seen_event g.code) result.now ≡ (PlainAt g.code entry args g.answers k).events }
    {
        self.state.world.events.as_slice()
    }

    /// How many calls of `malloc` and `_Znwm` there were.
    pub fn allocs(&self) -> u128
        ensures allocs { result ≡ self.now.state.world.allocs }
        ensures seen { (g : PlainGiven) (entry : ℕ) (args : List TheWord) (k : ℕ) → run_of self.now ≡ machine_at g entry args k → result ≡ (PlainAt g.code entry args g.answers k).allocs }
    {
        self.state.world.allocs
    }

    /// How many calls of a function whose name ends in `.noalloc` there were.
    pub fn elided(&self) -> u128
        ensures { result ≡ self.now.state.elided }
    {
        self.state.elided
    }
}
