//! The machine of a source.

use crate::progress::{Progress, outcome_progress, run_state};
use crate::starting::first_state;
use crate::state::State;
use crate::stepping::step_state;
use ir_base::{Event, FuncId, Items, Outcome, Word};
use ir_model::{Frame, Module};
use ir_paths::Facts;
use run_source_tables::SourceProgram;
use std::alloc::{AllocError, Global};

/// A run of a source. A step that finds no memory leaves it as it was; after it returned or was undefined, a step
/// gives the same again.
#[derive(Drop)]
pub struct SourceMachine {
    alloc: Global,
    given: SourceProgram,
    state: State,
}

impl SourceMachine {
    ghost use Rattle.std.specs.Prelude.{◌≡◌, ◌+◌, ℕ, List, map, IfOk, OnOk, OnErr};
    ghost use Rattle.ir_base.specs.declared.outcome.Word.{Word as TheWord};
    ghost use Rattle.run_source_tables.specs.Given.{Given};
    ghost use Rattle.run_source_tables.specs.run_step.Runs.{seen_event};
    ghost use Rattle.run_source.specs.Source.{SourceAt, SeenOf};
    ghost use Rattle.run_source.specs.SourceEffects.{given_of};
    ghost use Rattle.run_source.specs.Machines.{machine_at, ran, run_of, progress_of, RanSome};

    /// A machine at the entry, before its first step.
    pub fn start(
        alloc: Global,
        code: Module,
        sizes: &[Frame],
        facts: Items<Facts>,
        entry: FuncId,
        args: &[Word],
        answers: &[i128],
    ) -> Result<Self, AllocError>
        ensures { IfOk result (λ machine. run_of machine ≡ machine_at (record { code = code; sizes = sizes.now; answers = answers.now; facts = facts }) entry args.now 0) }
    {
        let given = SourceProgram::new(alloc, code, sizes, facts, answers)?;
        let state = first_state(alloc, &given.program, entry, args)?;
        Ok(SourceMachine {
            alloc,
            given,
            state,
        })
    }

    /// The module that runs.
    pub fn code(&self) -> &Module
        ensures { result.now ≡ (run_of self.now).given.code }
    {
        &self.given.program.module
    }

    /// One step, and how far the run is then.
    pub fn step(&mut self) -> Result<Progress, AllocError>
        ensures done { OnOk result (run_of self.new ≡ ran 1 (run_of self.old)) }
        ensures answer { IfOk result (λ progress. progress ≡ progress_of self.new.state.outcome) }
        ensures kept { OnErr result (self.new ≡ self.old) }
    {
        step_state(self.alloc, &self.given, &mut self.state)?;
        Ok(outcome_progress(self.state.outcome))
    }

    /// So many steps, and how far the run is then. Where there is no memory for a step the machine stands before it.
    pub fn run(&mut self, n: u64) -> Result<Outcome, AllocError>
        ensures done { OnOk result (run_of self.new ≡ ran n (run_of self.old)) }
        ensures outcome { IfOk result (λ outcome. outcome ≡ self.new.state.outcome) }
        ensures stopped { OnErr result (RanSome (given_of self.old.given) n self.old.state self.new.state) }
        ensures seen { (g : Given) (entry : ℕ) (args : List TheWord) (k : ℕ) → run_of self.old ≡ machine_at g entry args k → IfOk result (λ outcome. outcome ≡ (SeenOf g entry args (k + n)).outcome) }
    {
        run_state(self.alloc, &self.given, &mut self.state, n)?;
        Ok(self.state.outcome)
    }

    /// The events so far, by the positions of the declared functions.
    pub fn events(&self) -> &[Event]
        ensures events { result.now ≡ self.now.state.world.events }
        ensures seen { (g : Given) (entry : ℕ) (args : List TheWord) (k : ℕ) → run_of self.now ≡ machine_at g entry args k → map (seen_event g.code) result.now ≡ (SeenOf g entry args k).events }
    {
        self.state.world.events.as_slice()
    }

    /// How many calls of `malloc` and `_Znwm` there were.
    pub fn allocs(&self) -> u128
        ensures allocs { result ≡ self.now.state.world.allocs }
        ensures seen { (g : Given) (entry : ℕ) (args : List TheWord) (k : ℕ) → run_of self.now ≡ machine_at g entry args k → result ≡ (SeenOf g entry args k).allocs }
    {
        self.state.world.allocs
    }
}
