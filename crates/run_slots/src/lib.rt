//! Slots of activations and instances in each state of a run, and the blocks in which instances begin.
//!
//! Each slot has the block of an alloca, which nobody owns, and no two have one block. Those of activations weren't
//! killed, and each alloca's block that wasn't killed is a slot of an activation or an instance. Slots of an instance
//! that is over were killed. Instances begin at the start of allocators' blocks of their own, which they own until they
//! are freed. It is one law of the step by hooks (`run_hooks`), so it holds in all four meanings.
//!
//! Each slot is that of an alloca of its function, too (`slots_of_runs_are_those_of_allocas`).
#![tactic(auto)]

ghost use Rattle.std.specs.Prelude.{ℕ, List};
ghost use Rattle.run_hooks.specs.ir_base.declared.outcome.Word.{Word};
ghost use Rattle.run_hooks.specs.pass_kept_proof.Kept.{Keep, continue_keeping};
ghost use Rattle.run_hooks.specs.pass_renewed_proof.Renewed.{RenewedGiven, renewed_step};
ghost use Rattle.run_hooks.specs.run_framed.Framed.{FramedGiven, framed_state_at};
ghost use Rattle.run_hooks.specs.Hooks.{Hooks, hooked_state_at, step_of};
ghost use Rattle.run_hooks.specs.Meanings.{framed_hooks, kept_hooks, renewed_hooks, source_hooks};
ghost use Rattle.run_hooks.specs.Reached.{AllHaveSwitches, IsReachedState};
ghost use Rattle.run_slots.specs.Made.{IsMadeState, KeepsMade};
ghost use Rattle.run_slots.specs.Slots.{GivesNoFrames, IsSlottedState, KeepsSlots};
ghost use Rattle.run_hooks.specs.run_source.Source.{first_state, state_at, step_by};
ghost use Rattle.run_hooks.specs.run_source.declared.state.State.{State};
ghost use Rattle.run_hooks.specs.run_source_tables.Given.{Given};
ghost use Rattle.run_hooks.specs.run_step.Runs.{iterate};

/// It holds at the start, and each step keeps it by hooks that place new slots, begin and end instances as the clauses of
/// `KeepsSlots` say.
pub fn slots_of_steps_stay()
    ensures step { (h : Hooks) (s : State) → KeepsSlots h → IsSlottedState s → IsSlottedState (step_of h s) }
    ensures runs { (h : Hooks) (entry : ℕ) (args : List Word) (n : ℕ) → KeepsSlots h
        → IsSlottedState (hooked_state_at h entry args n) }
{}

/// The hooks of the four meanings are such. Those of frames are where no call gives a frame.
pub fn meanings_keep_slots()
    ensures source { (g : Given) → KeepsSlots (source_hooks g) }
    ensures kept { (g : Given) (keep : Keep) → KeepsSlots (kept_hooks g keep) }
    ensures renewed { (g : RenewedGiven) → KeepsSlots (renewed_hooks g) }
    ensures framed { (g : FramedGiven) → GivesNoFrames g.given.code → KeepsSlots (framed_hooks g) }
{}

/// So slots are so in each state of a run.
pub fn runs_keep_slots()
    ensures source { (g : Given) (entry : ℕ) (args : List Word) (n : ℕ) → IsSlottedState (state_at g entry args n) }
    ensures kept { (g : Given) (keep : Keep) (entry : ℕ) (args : List Word) (n : ℕ)
        → IsSlottedState (iterate (step_by g (continue_keeping g keep)) n (first_state g.code entry args)) }
    ensures renewed { (g : RenewedGiven) (entry : ℕ) (args : List Word) (n : ℕ)
        → IsSlottedState (iterate (renewed_step g) n (first_state g.given.code entry args)) }
    ensures framed { (g : FramedGiven) (entry : ℕ) (args : List Word) (n : ℕ) → GivesNoFrames g.given.code
        → IsSlottedState (framed_state_at g entry args n) }
{}

/// Each slot is that of an alloca of its activation's or instance's function. Each step keeps it by hooks that place new
/// slots as `KeepsMade` says.
pub fn slots_stay_those_of_allocas()
    ensures step { (h : Hooks) (s : State) → KeepsMade h → IsReachedState h.given s → IsMadeState h.given.code s
        → IsMadeState h.given.code (step_of h s) }
    ensures source { (g : Given) → KeepsMade (source_hooks g) }
    ensures kept { (g : Given) (keep : Keep) → KeepsMade (kept_hooks g keep) }
    ensures renewed { (g : RenewedGiven) → KeepsMade (renewed_hooks g) }
    ensures framed { (g : FramedGiven) → KeepsMade (framed_hooks g) }
{}

/// So they are in each state of a run.
pub fn slots_of_runs_are_those_of_allocas()
    ensures source { (g : Given) (entry : ℕ) (args : List Word) (n : ℕ) → AllHaveSwitches g.code
        → IsMadeState g.code (state_at g entry args n) }
    ensures kept { (g : Given) (keep : Keep) (entry : ℕ) (args : List Word) (n : ℕ) → AllHaveSwitches g.code
        → IsMadeState g.code (iterate (step_by g (continue_keeping g keep)) n (first_state g.code entry args)) }
    ensures renewed { (g : RenewedGiven) (entry : ℕ) (args : List Word) (n : ℕ) → AllHaveSwitches g.given.code
        → IsMadeState g.given.code (iterate (renewed_step g) n (first_state g.given.code entry args)) }
    ensures framed { (g : FramedGiven) (entry : ℕ) (args : List Word) (n : ℕ) → AllHaveSwitches g.given.code
        → IsMadeState g.given.code (framed_state_at g entry args n) }
{}
