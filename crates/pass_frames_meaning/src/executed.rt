//! An alloca that a called activation has executed leads to a slot of its own, in each state of a run by hooks.

ghost use Rattle.std.specs.Prelude.{ℕ, Bool, List};
ghost use Rattle.pass_frames_proof.specs.ir_base.declared.outcome.Word.{Word};
ghost use Rattle.pass_frames_proof.specs.ir_laws.facts.sound_states.Named.{AreLocalsNamed};
ghost use Rattle.pass_frames_meaning.specs.Called.{IsCalledState};
ghost use Rattle.pass_frames_meaning.specs.Executed.{IsExecutedState, KeepAllOwn, KeepsExecuted};
ghost use Rattle.pass_frames_proof.specs.pass_renewed_proof.Renewed.{RenewedGiven, renewed_step};
ghost use Rattle.pass_renewed_meaning.specs.run_hooks.Away.{KeepsAllPlaceRules};
ghost use Rattle.pass_renewed_meaning.specs.run_hooks.Hooks.{Hooks, step_of};
ghost use Rattle.pass_renewed_meaning.specs.run_hooks.Meanings.{renewed_hooks};
ghost use Rattle.pass_renewed_meaning.specs.run_hooks.Reached.{AllHaveSwitches};
ghost use Rattle.pass_frames_proof.specs.run_source.Source.{first_state};
ghost use Rattle.pass_frames_proof.specs.run_source.declared.state.State.{State as TheState};
ghost use Rattle.pass_frames_proof.specs.run_states.sound_states.Sound.{HasValues};
ghost use Rattle.pass_frames_proof.specs.run_step.Runs.{iterate};
ghost use Rattle.pass_renewed_meaning.specs.run_types.Rules.{KeepsAllTypes};

/// Of the allocas that count: in a coroutine those of ramp slots, in any other function all. Each step keeps this, and
/// so it is in each state of a run that makes slots anew. What was resumed isn't asked.
pub fn executed_allocas_have_slots()
    ensures step { (h : Hooks) (counts : ℕ → ℕ → Bool) → KeepsExecuted h → KeepAllOwn h.given counts
        → KeepsAllTypes h.given.code → (s : TheState) → IsCalledState h.given.code s
        → HasValues h.given.code s.top.func s.top.values → IsExecutedState h.given.code counts s
        → IsExecutedState h.given.code counts (step_of h s) }
    ensures hooks { (g : RenewedGiven) → KeepsExecuted (renewed_hooks g) }
    ensures renewed { (g : RenewedGiven) (counts : ℕ → ℕ → Bool) (entry : ℕ) (args : List Word)
        → AllHaveSwitches g.given.code → KeepsAllPlaceRules g.given → KeepsAllTypes g.given.code
        → AreLocalsNamed g.given.code → KeepAllOwn g.given counts → (n : ℕ)
        → IsExecutedState g.given.code counts (iterate (renewed_step g) n (first_state g.given.code entry args)) }
{}
