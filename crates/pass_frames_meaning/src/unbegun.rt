//! An activation that has begun no instance stands before begin, in each state of a run by hooks.

ghost use Rattle.std.specs.Prelude.{ℕ, List};
ghost use Rattle.pass_frames_proof.specs.ir_base.declared.outcome.Word.{Word};
ghost use Rattle.pass_frames_meaning.specs.Called.{IsCalledState};
ghost use Rattle.pass_frames_meaning.specs.Unbegun.{IsUnbegunState, KeepsUnbegun};
ghost use Rattle.pass_frames_proof.specs.pass_renewed_proof.Renewed.{RenewedGiven, renewed_step};
ghost use Rattle.pass_renewed_meaning.specs.run_hooks.Away.{KeepsAllPlaceRules};
ghost use Rattle.pass_renewed_meaning.specs.run_hooks.Hooks.{Hooks, step_of};
ghost use Rattle.pass_renewed_meaning.specs.run_hooks.Meanings.{renewed_hooks};
ghost use Rattle.pass_renewed_meaning.specs.run_hooks.Reached.{AllHaveSwitches};
ghost use Rattle.pass_frames_proof.specs.run_source.Source.{first_state};
ghost use Rattle.pass_frames_proof.specs.run_source.declared.state.State.{State as TheState};
ghost use Rattle.pass_frames_proof.specs.run_step.Runs.{iterate};
ghost use Rattle.pass_renewed_meaning.specs.run_types.Rules.{KeepsAllTypes};

/// A path leads from the entry to its place without passing begin. Each step keeps this, and so it is in each state
/// of a
/// run that makes slots anew.
pub fn activations_stand_before_begin()
    ensures step { (h : Hooks) → KeepsUnbegun h → (s : TheState) → IsCalledState h.given.code s
        → IsUnbegunState h.given.code s → IsUnbegunState h.given.code (step_of h s) }
    ensures hooks { (g : RenewedGiven) → KeepsUnbegun (renewed_hooks g) }
    ensures renewed { (g : RenewedGiven) (entry : ℕ) (args : List Word) (n : ℕ) → AllHaveSwitches g.given.code
        → KeepsAllPlaceRules g.given → KeepsAllTypes g.given.code
        → IsUnbegunState g.given.code (iterate (renewed_step g) n (first_state g.given.code entry args)) }
{}
