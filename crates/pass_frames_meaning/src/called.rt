//! In both runs activations below are right behind their calls, and the callee tells which name its result gets.

ghost use Rattle.std.specs.Prelude.{◌≡◌, ℕ, List, None};
ghost use Rattle.pass_frames_proof.specs.ir_base.declared.outcome.Word.{Word};
ghost use Rattle.pass_frames_meaning.specs.Called.{IsCalledState, KeepsCalled};
ghost use Rattle.pass_frames_proof.specs.pass_renewed_proof.Renewed.{RenewedGiven, renewed_step};
ghost use Rattle.pass_frames_proof.specs.run_framed.Framed.{FramedGiven, framed_state_at, given_call};
ghost use Rattle.pass_renewed_meaning.specs.run_hooks.Away.{IsPlacedState, KeepsAllPlaceRules};
ghost use Rattle.pass_renewed_meaning.specs.run_hooks.Hooks.{Hooks, step_of};
ghost use Rattle.pass_renewed_meaning.specs.run_hooks.Reached.{AllHaveSwitches};
ghost use Rattle.pass_frames_proof.specs.run_source.Source.{first_state};
ghost use Rattle.pass_frames_proof.specs.run_source.State.{function_of};
ghost use Rattle.pass_frames_proof.specs.run_source.declared.state.State.{State as TheState};
ghost use Rattle.pass_frames_proof.specs.run_step.Runs.{iterate};
ghost use Rattle.pass_frames_proof.specs.run_step.Step.{fetch};
ghost use Rattle.pass_renewed_meaning.specs.run_types.Rules.{KeepsAllTypes};

/// Hooks that change activations as their names say leave those below right behind their calls, whose result has the
/// name that the callee gives. What makes allocas again has an instance.
pub fn called_states_stay()
    ensures { (h : Hooks) → KeepsCalled h → KeepsAllTypes h.given.code → (s : TheState)
        → IsCalledState h.given.code s → IsPlacedState h s → IsCalledState h.given.code (step_of h s) }
{}

/// So it is in each state of the two runs between which frames are built, where no call gives a frame.
pub fn activations_of_runs_are_behind_calls()
    ensures renewed { (g : RenewedGiven) (entry : ℕ) (args : List Word) (n : ℕ) → AllHaveSwitches g.given.code
        → KeepsAllPlaceRules g.given → KeepsAllTypes g.given.code
        → IsCalledState g.given.code (iterate (renewed_step g) n (first_state g.given.code entry args)) }
    ensures framed { (g : FramedGiven) (entry : ℕ) (args : List Word) (n : ℕ) → AllHaveSwitches g.given.code
        → KeepsAllPlaceRules g.given → KeepsAllTypes g.given.code
        → ((s : TheState) (block at : ℕ) → given_call g s (fetch (function_of g.given s) block at) ≡ None)
        → IsCalledState g.given.code (framed_state_at g entry args n) }
{}
