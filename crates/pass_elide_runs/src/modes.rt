//! Modes of activations.

ghost use Rattle.pass_elide_proof.specs.StepCases.{LeadsTo};
ghost use Rattle.pass_elide_runs.specs.Modes.{KnowModes};
ghost use Rattle.pass_elide_proof.specs.pass_proofs.ir_base.declared.outcome.Outcome.{Outcome};
ghost use Rattle.pass_elide_proof.specs.pass_proofs.ir_base.declared.outcome.Word.{Word};
ghost use Rattle.pass_elide_proof.specs.pass_proofs.ir_model.Names.{function_at};
ghost use Rattle.pass_elide_proof.specs.pass_proofs.run_agreement.Machines.{IsFine};
ghost use Rattle.pass_elide_proof.specs.pass_proofs.run_framed.Framed.{FramedGiven, framed_state_at};
ghost use Rattle.pass_elide_proof.specs.pass_proofs.run_source.declared.state.State.{State};
ghost use Rattle.run_hooks.specs.Reached.{AllHaveSwitches, IsReachedState};
ghost use Rattle.std.specs.Prelude.{List, false, ◌≡◌, ℕ};

/// An activation of a coroutine is in a mode of coroutines, and one that was resumed has an instance. While it
/// executes its allocas it stands at one of them, and goes on from a suspend.
pub fn modes_are_known()
    ensures step { (g : FramedGiven) (s u : State) → s.outcome ≡ Outcome.Running → IsReachedState g.given s
        → KnowModes g.given.code s → LeadsTo g s u → KnowModes g.given.code u }
    ensures runs { (g : FramedGiven) (entry : ℕ) (args : List Word) (n : ℕ) → AllHaveSwitches g.given.code
        → (function_at g.given.code entry).coroutine ≡ false → IsFine (framed_state_at g entry args n).outcome
        → KnowModes g.given.code (framed_state_at g entry args n) }
{}
