//! In framed runs the name of each slot that an activation has made before begin leads to it.

ghost use Rattle.std.specs.Prelude.{◌≡◌, ℕ, Bool, true, List, None};
ghost use Rattle.pass_frames_proof.specs.ir_base.declared.outcome.Outcome.{Outcome};
ghost use Rattle.pass_frames_proof.specs.ir_base.declared.outcome.Word.{Word};
ghost use Rattle.pass_frames_proof.specs.ir_model.declared.module.Module.{Module};
ghost use Rattle.pass_frames_meaning.specs.Called.{IsCalledState};
ghost use Rattle.pass_frames_meaning.specs.Owned.{AreGivenApart, IsOwnedState, KeepAllOwnRules, KeepsOwned};
ghost use Rattle.pass_frames_proof.specs.Temporaries.{HasLedSlots};
ghost use Rattle.pass_frames_proof.specs.run_framed.Framed.{FramedGiven, framed_state_at, given_call};
ghost use Rattle.pass_renewed_meaning.specs.run_hooks.Hooks.{Hooks, step_of};
ghost use Rattle.pass_renewed_meaning.specs.run_hooks.Meanings.{framed_hooks};
ghost use Rattle.pass_frames_proof.specs.run_source.State.{function_of};
ghost use Rattle.pass_frames_proof.specs.run_source.declared.state.State.{State as TheState};
ghost use Rattle.pass_frames_proof.specs.run_step.Step.{fetch};
ghost use Rattle.pass_renewed_meaning.specs.run_types.Rules.{KeepsAllTypes};

/// Of functions that count, whose allocas stand in the entry block, to which no edge leads, and give their names alone.
/// Each step keeps it, where results are given to no name of an alloca: calls give them to no such name. So it is in each
/// state of a framed run, where no call gives a frame.
pub fn names_of_slots_lead_to_them()
    ensures step { (h : Hooks) (counts : ℕ → Bool) → KeepsOwned h → KeepAllOwnRules h.given.code counts
        → (s : TheState) → AreGivenApart h.given.code s.top.result s.below
        → IsOwnedState h.given.code counts s → IsOwnedState h.given.code counts (step_of h s) }
    ensures calls { (m : Module) → KeepsAllTypes m → (s : TheState) → IsCalledState m s
        → AreGivenApart m s.top.result s.below }
    ensures hooks { (g : FramedGiven)
        → ((s : TheState) (block at : ℕ) → given_call g s (fetch (function_of g.given s) block at) ≡ None)
        → KeepsOwned (framed_hooks g) }
    ensures framed { (g : FramedGiven)
        → ((s : TheState) (block at : ℕ) → given_call g s (fetch (function_of g.given s) block at) ≡ None)
        → KeepAllOwnRules g.given.code (λ func. true) → (entry : ℕ) (args : List Word)
        → ((n : ℕ) → AreGivenApart g.given.code (framed_state_at g entry args n).top.result
        (framed_state_at g entry args n).below) → (n : ℕ)
        → (framed_state_at g entry args n).outcome ≡ Outcome.Running → HasLedSlots (framed_state_at g entry args n) }
{}
