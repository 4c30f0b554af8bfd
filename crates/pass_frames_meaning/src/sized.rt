//! The block of a slot is as large and as aligned as its alloca says, in each state of a run by hooks.

ghost use Rattle.std.specs.Prelude.{ℕ, List};
ghost use Rattle.pass_frames_proof.specs.ir_base.declared.outcome.Word.{Word};
ghost use Rattle.pass_frames_meaning.specs.Sized.{IsLonger, IsSizedAt, IsSizedState, KeepsSizes, KeepsSlotwise};
ghost use Rattle.pass_frames_meaning.specs.Sized.{sizes_of};
ghost use Rattle.pass_frames_proof.specs.pass_kept_proof.Kept.{Keep, continue_keeping};
ghost use Rattle.pass_frames_proof.specs.pass_renewed_proof.Renewed.{RenewedGiven, renewed_step};
ghost use Rattle.pass_renewed_meaning.specs.run_hooks.Hooks.{Hooks, step_of};
ghost use Rattle.pass_renewed_meaning.specs.run_hooks.Meanings.{renewed_hooks};
ghost use Rattle.pass_renewed_meaning.specs.run_hooks.Reached.{AllHaveSwitches, IsReachedState};
ghost use Rattle.pass_frames_proof.specs.run_source.Source.{first_state, step_by};
ghost use Rattle.pass_frames_proof.specs.run_source.declared.state.State.{State as TheState};
ghost use Rattle.pass_frames_proof.specs.run_source_tables.Given.{Given};
ghost use Rattle.pass_frames_proof.specs.run_step.Runs.{iterate};

/// A step makes new blocks behind the others, and leaves the size and the alignment of each. So slots keep theirs,
/// where
/// hooks place, keep and give up slots of activations and instances of the same functions.
pub fn sizes_of_slots_stay()
    ensures blocks { (h : Hooks) → KeepsSizes h → (s : TheState)
        → IsLonger (sizes_of s.world.memory) (sizes_of (step_of h s).world.memory) }
    ensures step { (h : Hooks) → KeepsSizes h
        → ((sizes : List (ℕ × ℕ)) → KeepsSlotwise (IsSizedAt h.given.code sizes) h) → (s : TheState)
        → IsReachedState h.given s → IsSizedState h.given.code s → IsSizedState h.given.code (step_of h s) }
    ensures sizes { (g : RenewedGiven) → KeepsSizes (renewed_hooks g) }
    ensures slots { (g : RenewedGiven) (sizes : List (ℕ × ℕ))
        → KeepsSlotwise (IsSizedAt g.given.code sizes) (renewed_hooks g) }
    ensures renewed { (g : RenewedGiven) (entry : ℕ) (args : List Word) (n : ℕ) → AllHaveSwitches g.given.code
        → IsSizedState g.given.code (iterate (renewed_step g) n (first_state g.given.code entry args)) }
    ensures kept { (g : Given) (keep : Keep) (entry : ℕ) (args : List Word) (n : ℕ) → AllHaveSwitches g.code
        → IsSizedState g.code (iterate (step_by g (continue_keeping g keep)) n (first_state g.code entry args)) }
{}
