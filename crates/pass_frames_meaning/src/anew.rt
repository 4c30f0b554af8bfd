//! Names of allocas that may be made anew have addresses, and those still to come no values, in each state of a run.

ghost use Rattle.std.specs.Prelude.{ℕ, Bool, List};
ghost use Rattle.pass_frames_proof.specs.ir_base.declared.outcome.Word.{Word};
ghost use Rattle.pass_frames_proof.specs.ir_laws.facts.sound_states.Named.{AreLocalsNamed};
ghost use Rattle.pass_frames_meaning.specs.Anew.{AreEntriesFree, IsAnewState, KeepsAnew};
ghost use Rattle.pass_frames_meaning.specs.Called.{IsCalledState};
ghost use Rattle.pass_frames_proof.specs.pass_renewed_proof.Renewed.{RenewedGiven, renewed_step};
ghost use Rattle.pass_renewed_meaning.specs.run_hooks.Away.{KeepsAllPlaceRules};
ghost use Rattle.pass_renewed_meaning.specs.run_hooks.Hooks.{Hooks, step_of};
ghost use Rattle.pass_renewed_meaning.specs.run_hooks.Meanings.{renewed_hooks};
ghost use Rattle.pass_renewed_meaning.specs.run_hooks.Reached.{AllHaveSwitches};
ghost use Rattle.pass_frames_proof.specs.run_source.Source.{first_state};
ghost use Rattle.pass_frames_proof.specs.run_source.declared.state.State.{State as TheState};
ghost use Rattle.pass_frames_proof.specs.run_states.sound_states.Sound.{HasValues};
ghost use Rattle.pass_frames_proof.specs.run_step.Runs.{iterate};
ghost use Rattle.pass_renewed_meaning.specs.run_types.Rules.{KeepsAllTypes};

/// A resumed activation executes the flagged allocas of its entry before it comes to its label, and nothing else gives
/// their names. A called one has no value for an alloca that it hasn't executed. Each step keeps this, and so it is in
/// each state of a run that makes slots anew.
pub fn slots_made_anew_have_addresses()
    ensures step { (h : Hooks) (flags : ℕ → ℕ → Bool) → KeepsAnew flags h → AreLocalsNamed h.given.code
        → AreEntriesFree h.given.code → KeepsAllTypes h.given.code → (s : TheState) → IsCalledState h.given.code s
        → HasValues h.given.code s.top.func s.top.values → IsAnewState h.given.code flags s
        → IsAnewState h.given.code flags (step_of h s) }
    ensures hooks { (g : RenewedGiven) → KeepsAnew g.flags (renewed_hooks g) }
    ensures renewed { (g : RenewedGiven) (entry : ℕ) (args : List Word)
        → AllHaveSwitches g.given.code → KeepsAllPlaceRules g.given → KeepsAllTypes g.given.code
        → AreLocalsNamed g.given.code → AreEntriesFree g.given.code → (n : ℕ)
        → IsAnewState g.given.code g.flags (iterate (renewed_step g) n (first_state g.given.code entry args)) }
{}
